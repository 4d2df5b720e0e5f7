//! Events that happen in a pair, one after another, and what was answered to each.
ghost use Rattle.std.specs.Prelude.{◌≡◌, ◌⊎◌, ◌<◌, ◌≤◌, [], ◌∷◌, ◌++◌, IfOk, None, cond, false, length, nat_lt, option_map, vec_capacity, vec_len};
ghost use Rattle.std.specs.Option.{option_and_then};
ghost use Rattle.ft_world.specs.Applies.{Happens, Shows};
ghost use Rattle.ft_world.specs.Standing.{Course};
ghost use Rattle.shared_disk.specs.Failing.{records_in};
ghost use Rattle.pair_shell.specs.Books.{IsNoted, brings_in, brought_by, sent_in};
ghost use Rattle.pair_shell.specs.Playing.{Lengthens, Plays, pauses};
ghost use Rattle.shell_language.specs.Tapes.{played};
ghost use Rattle.shell_picture.specs.Rounds.{left_waiting, rested};

use altair_pair::moment_of;
use board_image::KeyRoom;
use clone_state::Copies;
use ft_world::{Message, World};
use i8080_words::R;
use pair_events::{Event, Reply};
use sequence_diagram::Moment;
use shared_disk::Disk;
use shell_language::{Book, Brings, Played};
use shell_picture::EventQueue;
use std::alloc::{AllocError, Global};

/// How many events of a session are kept for pictures, from its first one on. With each of them a session that prints would
/// keep two thousand bytes for each byte that it prints.
pub const KEPT: usize = 200_000;

// After so many events a day pauses, as soon as it may, so that its tape is hardly longer than that.
const MOST_TAPED: usize = 1_000_000;

/// Makes the events of a plan happen, one after another, each chosen when the one before it was answered. The tape has
/// exactly these afterwards, with their answers; also if memory for the next one is refused. A day ends once its guest polls with
/// nothing left to do for it, and pauses after a million events. Whether the plan has come to its end.
#[tactic(auto, using(crate::proofs::Playing::plays_nothing, crate::proofs::Playing::many_enough))]
pub fn play<B: Copies<H> + KeyRoom + Drop, H: Drop>(
    alloc: Global,
    world: &mut World<B, Disk, H>,
    book: &mut Book,
    plan: &mut EventQueue,
    tape: &mut Vec<Played>,
    past: &mut Vec<Moment>,
) -> Result<bool, AllocError>
    ensures played { Plays B.state B.copied B.machine world.old tape.new.items world.new }
    ensures paused { IfOk result (λ is_over. is_over ≡ false → 1_000_000 ≤ length tape.new.items) }
{
    tape.clear();
    'events: for _made in 0..u64::MAX {
        let Some(event) = plan.next(book)? else {
            return Ok(true);
        };
        let answer = play_next(alloc, world, book, event, tape, past)?;
        plan.hear(event, answer);
        rest_if_polling(world, book, event, plan);
        if pauses(tape, plan, event) {
            return Ok(false);
        }
    }
    Ok(false)
}

// Whether a day pauses after an event that is the last on its tape.
fn pauses(tape: &[Played], plan: &EventQueue, event: Event) -> bool
    ensures { result ≡ pauses (length tape.now) event plan.now.day }
{
    tape.len() >= MOST_TAPED && plan.may_pause(event)
}

// A day ends if its guest polls after this event, and nothing is left to do for it.
fn rest_if_polling<B: Copies<H> + KeyRoom + Drop, H: Drop>(
    world: &World<B, Disk, H>,
    book: &Book,
    event: Event,
    plan: &mut EventQueue,
)
    ensures busy { option_and_then (λ day. left_waiting event day book.now) plan.old.day ≡ None → plan.new ≡ plan.old }
    ensures rests { (plan.new ≡ plan.old) ⊎ (plan.new ≡ record plan.old { day = option_map rested plan.old.day }) }
{
    let Some(node) = plan.left_waiting(event, book) else {
        return;
    };
    if is_polling(world, node) {
        plan.rest();
    }
}

// Whether the guest of a node polls.
fn is_polling<B: Copies<H> + KeyRoom + Drop, H: Drop>(
    world: &World<B, Disk, H>,
    node: u64,
) -> bool {
    match world.guest(node) {
        Some(guest) => guest.is_polling(),
        None => false,
    }
}

/// Makes one event happen. The tape has it alone afterwards, with its answer; nothing if memory for it is refused.
#[tactic(auto, using(crate::proofs::Playing::plays_nothing))]
pub fn play_one<B: Copies<H> + Drop, H: Drop>(
    alloc: Global,
    world: &mut World<B, Disk, H>,
    book: &mut Book,
    event: Event,
    tape: &mut Vec<Played>,
    past: &mut Vec<Moment>,
) -> Result<R<Reply>, AllocError>
    ensures happened { Plays B.state B.copied B.machine world.old tape.new.items world.new }
    ensures alone { IfOk result (λ answer. tape.new.items ≡ played event answer ∷ []) }
    ensures noted { IfOk result (λ answer. (c : Course B.State) → Shows B.state B.copied B.machine records_in world.new c
        → IsNoted c.world.messages event answer book.old book.new) }
{
    tape.clear();
    play_next(alloc, world, book, event, tape, past)
}

// One more event happens, unless memory for it is refused; the book notes it then.
#[tactic(auto, using(crate::proofs::Playing::lengthens, crate::proofs::Playing::lengthens_not, crate::proofs::Books::notes))]
pub(crate) fn play_next<B: Copies<H> + Drop, H: Drop>(
    alloc: Global,
    world: &mut World<B, Disk, H>,
    book: &mut Book,
    event: Event,
    tape: &mut Vec<Played>,
    past: &mut Vec<Moment>,
) -> Result<R<Reply>, AllocError>
    ensures happened { Lengthens B.state B.copied B.machine world.old world.new tape.old.items tape.new.items }
    ensures taped { IfOk result (λ answer. tape.new.items ≡ tape.old.items ++ played event answer ∷ []) }
    ensures noted { IfOk result (λ answer. (c : Course B.State) → Shows B.state B.copied B.machine records_in world.new c
        → IsNoted c.world.messages event answer book.old book.new) }
{
    tape.reserve(1)?;
    book.make_room()?;
    past.reserve(1)?;
    let answer = make(alloc, world, event, tape);
    book.note(event, answer, sent_by(world, answer));
    keep(past, moment_of(world, event, answer));
    Ok(answer)
}

// Keeps an event for pictures, if it is among the first ones.
fn keep(past: &mut Vec<Moment>, moment: Moment)
    requires room { vec_len past.old < vec_capacity past.old }
    ensures { past.new.items ≡ cond (nat_lt (vec_len past.old) 200_000) (past.old.items ++ moment ∷ []) past.old.items }
{
    if past.len() < KEPT {
        past.push_reserved(moment);
    }
}

// What the message brings that an event has sent, if it has sent one.
fn sent_by<B: Copies<H> + Drop, H: Drop>(
    world: &World<B, Disk, H>,
    answer: R<Reply>,
) -> Option<Brings>
    ensures { (c : Course B.State) → Shows B.state B.copied B.machine records_in world.now c
        → result ≡ sent_in c.world.messages answer }
{
    match answer {
        Ok(Reply::Message { message }) => brought_by(world, message),
        _ => None,
    }
}

// What the message of a number brings, if there is one.
#[tactic(auto, using(crate::proofs::Books::brings_some, crate::proofs::Books::brings_none))]
fn brought_by<B: Copies<H> + Drop, H: Drop>(
    world: &World<B, Disk, H>,
    message: u64,
) -> Option<Brings>
    ensures { (c : Course B.State) → Shows B.state B.copied B.machine records_in world.now c
        → result ≡ brought_by c.world.messages message }
{
    match world.message(message) {
        Some(found) => Some(brings_in(found)),
        None => None,
    }
}

fn brings_in(message: &Message) -> Brings
    ensures { result ≡ brings_in message.now }
{
    match message {
        Message::Log(_) => Brings::Entry,
        Message::Ack(_) => Brings::Acknowledgement,
        Message::Part(_) => Brings::Part,
        Message::Byte { port, .. } => Brings::Byte { port: *port },
        Message::Write(_) => Brings::Write,
        Message::Written(number) => Brings::Written { number: *number },
        Message::Sector(_) => Brings::Sector,
    }
}

// An event happens, and comes onto the tape with its answer.
fn make<B: Copies<H> + Drop, H: Drop>(
    alloc: Global,
    world: &mut World<B, Disk, H>,
    event: Event,
    tape: &mut Vec<Played>,
) -> R<Reply>
    requires room { vec_len tape.old < vec_capacity tape.old }
    ensures happened { Happens B.state B.copied B.machine records_in world.old event result world.new }
    ensures taped { tape.new.items ≡ tape.old.items ++ played event result ∷ [] }
{
    let answer = world.apply(alloc, event);
    match tape.push(Played { event, answer }) {
        Ok(()) => answer,
        Err(_) => unreachable!(),
    }
}
