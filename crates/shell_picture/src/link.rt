//! A link between the nodes, which may lose, repeat and delay messages.
ghost use Rattle.std.specs.Prelude.{◌≡◌, ◌==◌, ◌-◌, ◌++◌, [], IfOk, length};
ghost use Rattle.shell_picture.specs.Links.{after_draw, drawn, fate_by, goes, loss_of, seeded, third, traffic, Carries};
ghost use Rattle.shell_picture.specs.Routes.{arrival_at};

use crate::route::Route;
use pair_events::Event;
use rand_core::utils::NextWord;
use rand_pcg::Pcg32;
use shell_language::{Book, Loss};
use std::alloc::{AllocError, Global};

// The stream of the generator; any number does.
const STREAM: u64 = 88;

/// What becomes of a message.
#[derive(Clone, Copy)]
pub enum Fate {
    Arrives,
    IsLost,
    ArrivesTwice,
    IsOvertaken,
}

/// A link, on which this many of 100 messages do not simply arrive, and the arrivals that others overtake.
#[derive(Drop)]
pub struct Link {
    percent: u8,
    generator: Pcg32,
    overtaken: Vec<Event>,
}

impl Link {
    /// A link that does so, or one on which every message arrives.
    pub fn new(alloc: Global, loss: Option<Loss>) -> Link
        ensures percent { result.percent ≡ (loss_of loss).percent }
        ensures seed { result.generator ≡ seeded (loss_of loss).seed }
        ensures none { result.overtaken.items ≡ [] }
    {
        let Loss { percent, seed } = loss.unwrap_or(Loss {
            percent: 0,
            seed: 0,
        });
        Link {
            percent,
            generator: generator_of(seed),
            overtaken: Vec::new(alloc),
        }
    }

    /// Whether every message arrives.
    pub fn is_safe(&self) -> bool
        ensures { result ≡ (self.now.percent == 0) }
    {
        self.percent == 0
    }

    /// The messages from the first on go over the link that have an arrival on this route, one after another. Those that
    /// others overtake arrive after them.
    #[tactic(auto, using(crate::proofs::Counting::none_gone, crate::proofs::Counting::one_goes, crate::proofs::Counting::all_gone))]
    pub fn carry_all(
        &mut self,
        route: Route,
        first: u64,
        book: &Book,
        agenda: &mut Vec<Event>,
    ) -> Result<(), AllocError>
        ensures { IfOk result (λ _. Carries (arrival_at route book.now) first (length book.now.letters.items - first)
            agenda.old.items agenda.new.items self.old self.new) }
    {
        for message in first..book.messages() {
            if let Some(event) = route.arrival_at(message, book) {
                self.carry(event, agenda)?;
            }
        }
        self.catch_up(agenda)
    }

    // A message goes over the link: its arrival is put on the agenda, or is not, or comes after others.
    fn carry(&mut self, event: Event, agenda: &mut Vec<Event>) -> Result<(), AllocError>
        ensures goes { IfOk result (λ _. traffic self.new agenda.new.items
            ≡ goes self.old.percent event (traffic self.old agenda.old.items)) }
        ensures percent { self.new.percent ≡ self.old.percent }
    {
        match self.next() {
            Fate::Arrives => agenda.push(event)?,
            Fate::IsLost => {}
            Fate::ArrivesTwice => {
                agenda.push(event)?;
                agenda.push(event)?;
            }
            Fate::IsOvertaken => self.overtaken.push(event)?,
        }
        Ok(())
    }

    // The messages arrive that others have overtaken.
    fn catch_up(&mut self, agenda: &mut Vec<Event>) -> Result<(), AllocError>
        ensures arrive { IfOk result (λ _. agenda.new.items ≡ agenda.old.items ++ self.old.overtaken.items) }
        ensures none { IfOk result (λ _. self.new.overtaken.items ≡ []) }
        ensures same { (self.new.percent ≡ self.old.percent) × (self.new.generator ≡ self.old.generator) }
    {
        agenda.extend_from_slice(&self.overtaken)?;
        self.overtaken.clear();
        Ok(())
    }

    // What becomes of the next message.
    fn next(&mut self) -> Fate
        ensures fate { result ≡ fate_by self.old.percent (drawn self.old.generator) }
        ensures after { self.new ≡ record self.old { generator = after_draw self.old.generator } }
    {
        let word = draw(&mut self.generator);
        if word % 100 >= u32::from(self.percent) {
            return Fate::Arrives;
        }
        third(word / 100 % 3)
    }
}

// The generator of a seed.
#[tactic(auto, unfolding(crate::specs::Links::seeded))]
fn generator_of(seed: u64) -> Pcg32
    ensures { result ≡ seeded seed }
{
    Pcg32::new(seed, STREAM)
}

// The next number of a generator.
#[tactic(auto, unfolding(crate::specs::Links::drawn, crate::specs::Links::after_draw))]
fn draw(generator: &mut Pcg32) -> u32
    ensures number { result ≡ drawn generator.old }
    ensures after { generator.new ≡ after_draw generator.old }
{
    generator.next_word()
}

// What becomes of a message that does not simply arrive.
fn third(number: u32) -> Fate
    ensures { result ≡ third number }
{
    match number {
        0 => Fate::IsLost,
        1 => Fate::ArrivesTwice,
        _ => Fate::IsOvertaken,
    }
}
