//! The events of each part of a round.
ghost use Rattle.std.specs.Prelude.{◌≡◌, ◌++◌, IfOk, false, true, length};
ghost use Rattle.shell_picture.specs.Parts.{CarriesOn, FillsPart, acceptances_told, acknowledged, both, bytes_released, entries_sent, fetched, is_news, key_at, looked, marked, may_take, patience, replayed, reported, sector_asked, since_key, steps_made, told_at, waited, waits, writes_released};
ghost use Rattle.shell_picture.specs.declared.phase.Phase.TheVariants as round;

use super::{Day, STEPS};
use crate::ending::DayEnd;
use crate::phase::Phase;
use crate::route::Route;
use crate::series::Series;
use pair_events::Event;
use shell_language::Book;
use std::alloc::AllocError;

// How many moves a backup makes at once; it stops by itself where its entries end.
const MOVES: u64 = 1_000_000_000;

// How many rounds a guest waits for an interrupt before the day ends, on a link that may lose one.
const PATIENCE: u8 = 8;

impl Day {
    pub(super) fn fill_part(
        &mut self,
        part: Phase,
        book: &Book,
        agenda: &mut Vec<Event>,
    ) -> Result<(), AllocError>
        ensures { IfOk result (λ _. FillsPart part self.old book.now agenda.old.items agenda.new.items self.new) }
    {
        match part {
            Phase::Keys => self.fill_keys(book, agenda),
            Phase::Get => self.fill_get(book, agenda),
            Phase::Step => self.fill_step(agenda),
            Phase::Send => self.fill_send(book, agenda),
            Phase::Acknowledge => self.fill_acknowledge(book, agenda),
            Phase::Replay => self.fill_replay(agenda),
            Phase::Fetch => self.fill_fetch(book, agenda),
            Phase::Tell => self.fill_tell(book, agenda),
            Phase::Release => self.fill_release(book, agenda),
            Phase::Complete => self.fill_complete(book, agenda),
            Phase::Under | Phase::Log | Phase::Acknowledged | Phase::Fetched | Phase::Arrive => {
                self.carry_all(part, book, agenda)
            }
        }
    }

    // A key of each port at which one waits.
    fn fill_keys(&self, book: &Book, agenda: &mut Vec<Event>) -> Result<(), AllocError>
        ensures { IfOk result (λ _. agenda.new.items ≡ agenda.old.items ++ both (key_at self.now book.now)) }
    {
        self.fill_key(0, book, agenda)?;
        self.fill_key(1, book, agenda)
    }

    // The key of a port, if one waits there: when the guest is idle, or some time after the one before.
    fn fill_key(&self, port: u8, book: &Book, agenda: &mut Vec<Event>) -> Result<(), AllocError>
        ensures { IfOk result (λ _. agenda.new.items ≡ agenda.old.items ++ key_at self.now book.now port) }
    {
        let notes = book.port(port);
        if notes.taken < notes.typed && self.may_take(port) {
            agenda.push(Event::TakeKey {
                node: self.node,
                port,
                index: notes.taken,
            })?;
        }
        Ok(())
    }

    // Whether a key may be taken at a port now.
    fn may_take(&self, port: u8) -> bool
        ensures { result ≡ may_take self.now port }
    {
        match self.since_key(port) {
            Some(steps) => steps >= STEPS || self.is_idle,
            None => false,
        }
    }

    // Steps since a key of a port was taken.
    fn since_key(&self, port: u8) -> Option<u64>
        ensures { result ≡ since_key self.now port }
    {
        match port {
            0 => Some(self.since_key0),
            1 => Some(self.since_key1),
            _ => None,
        }
    }

    // The sector that comes by, unless no drive waited for one lately.
    fn fill_get(&mut self, book: &Book, agenda: &mut Vec<Event>) -> Result<(), AllocError>
        ensures asked { IfOk result (λ _. agenda.new.items ≡ agenda.old.items ++ sector_asked self.old) }
        ensures looked { IfOk result (λ _. self.new ≡ looked self.old book.now) }
    {
        self.mark = book.messages();
        if self.looks > 0 && !self.is_idle {
            self.looks -= 1;
            return Ok(());
        }
        agenda.push(Event::Get {
            node: self.node,
            sector: self.sector,
        })?;
        Ok(())
    }

    // Some steps, unless the guest still waits for an interrupt.
    fn fill_step(&mut self, agenda: &mut Vec<Event>) -> Result<(), AllocError>
        ensures made { IfOk result (λ _. agenda.new.items ≡ agenda.old.items ++ steps_made self.old) }
        ensures waited { IfOk result (λ _. self.new ≡ waited self.old) }
    {
        if self.is_idle && !self.was_given {
            self.wait();
            return Ok(());
        }
        let turns = self.turns.saturating_sub(self.made).min(STEPS);
        agenda.push(Event::Step {
            node: self.node,
            turns,
        })?;
        Ok(())
    }

    // The guest waits one round more, or the day ends.
    fn wait(&mut self)
        requires { waits self.old ≡ true }
        ensures { self.new ≡ waited self.old }
    {
        if self.rounds_idle >= self.patience() {
            self.ending = Some(DayEnd::WaitsForKey);
        } else {
            self.rounds_idle += 1;
        }
    }

    fn patience(&self) -> u8
        ensures { result ≡ patience self.now.link.percent }
    {
        if self.link.is_safe() { 0 } else { PATIENCE }
    }

    // The entries that the backup has not acknowledged.
    fn fill_send(&mut self, book: &Book, agenda: &mut Vec<Event>) -> Result<(), AllocError>
        ensures sent { IfOk result (λ _. agenda.new.items ≡ agenda.old.items ++ entries_sent self.old book.now) }
        ensures marked { IfOk result (λ _. self.new ≡ marked self.old book.now) }
    {
        self.mark = book.messages();
        let entries = Series::Entries { node: self.node };
        match self.backup {
            Some(_) => entries.add(book, book.held, book.logged, agenda),
            None => Ok(()),
        }
    }

    // The backup acknowledges, if there is anything to say.
    fn fill_acknowledge(&mut self, book: &Book, agenda: &mut Vec<Event>) -> Result<(), AllocError>
        ensures acknowledged { IfOk result (λ _. agenda.new.items ≡ agenda.old.items ++ acknowledged self.old book.now) }
        ensures reported { IfOk result (λ _. self.new ≡ reported self.old book.now) }
    {
        let is_news = self.is_news(book);
        self.mark = book.messages();
        let Some(node) = self.backup else {
            return Ok(());
        };
        if is_news {
            self.awaits_report = false;
            agenda.push(Event::Acknowledge { node })?;
        }
        Ok(())
    }

    // Whether entries were sent to the backup, or a write waits until it says what it has replayed.
    fn is_news(&self, book: &Book) -> bool
        ensures { result ≡ is_news self.now book.now }
    {
        self.mark < book.messages() || self.awaits_report && book.logged <= book.held
    }

    // All moves that the backup can make.
    fn fill_replay(&self, agenda: &mut Vec<Event>) -> Result<(), AllocError>
        ensures { IfOk result (λ _. agenda.new.items ≡ agenda.old.items ++ replayed self.now) }
    {
        if let Some(node) = self.backup {
            agenda.push(Event::Replay { node, turns: MOVES })?;
        }
        Ok(())
    }

    // The sector that the backup waits for.
    fn fill_fetch(&mut self, book: &Book, agenda: &mut Vec<Event>) -> Result<(), AllocError>
        ensures fetched { IfOk result (λ _. agenda.new.items ≡ agenda.old.items ++ fetched self.old) }
        ensures marked { IfOk result (λ _. self.new ≡ record self.old { mark = length book.now.letters.items; awaits_sector = false }) }
    {
        self.mark = book.messages();
        let awaits_sector = self.awaits_sector;
        self.awaits_sector = false;
        let Some(node) = self.backup else {
            return Ok(());
        };
        if awaits_sector {
            agenda.push(Event::Fetch { node })?;
        }
        Ok(())
    }

    // The terminals whose keys are covered by now.
    fn fill_tell(&self, book: &Book, agenda: &mut Vec<Event>) -> Result<(), AllocError>
        ensures { IfOk result (λ _. agenda.new.items ≡ agenda.old.items ++ both (told_at self.now book.now)) }
    {
        self.tell(0, book, agenda)?;
        self.tell(1, book, agenda)
    }

    fn tell(&self, port: u8, book: &Book, agenda: &mut Vec<Event>) -> Result<(), AllocError>
        ensures { IfOk result (λ _. agenda.new.items ≡ agenda.old.items ++ told_at self.now book.now port) }
    {
        let notes = book.port(port);
        if notes.covered < notes.taken {
            agenda.push(Event::Told {
                node: self.node,
                port,
            })?;
        }
        Ok(())
    }

    // What the guest has given and has not heard of.
    fn fill_release(&mut self, book: &Book, agenda: &mut Vec<Event>) -> Result<(), AllocError>
        ensures released { IfOk result (λ _. agenda.new.items
            ≡ agenda.old.items ++ (both (bytes_released self.old book.now) ++ writes_released self.old book.now)) }
        ensures marked { IfOk result (λ _. self.new ≡ marked self.old book.now) }
    {
        self.mark = book.messages();
        self.release_bytes(0, book, agenda)?;
        self.release_bytes(1, book, agenda)?;
        let writes = Series::Writes { node: self.node };
        writes.add(book, 0, book.undone.len() as u64, agenda)
    }

    fn release_bytes(
        &self,
        port: u8,
        book: &Book,
        agenda: &mut Vec<Event>,
    ) -> Result<(), AllocError>
        ensures { IfOk result (λ _. agenda.new.items ≡ agenda.old.items ++ bytes_released self.now book.now port) }
    {
        let notes = book.port(port);
        let node = self.node;
        Series::Bytes { node, port }.add(book, notes.heard, notes.sent, agenda)
    }

    // What the terminals have accepted, and the writes that are done.
    fn fill_complete(&mut self, book: &Book, agenda: &mut Vec<Event>) -> Result<(), AllocError>
        ensures { IfOk result (λ _. CarriesOn round.Complete self.old book.now
            (agenda.old.items ++ both (acceptances_told self.old book.now)) agenda.new.items self.new) }
    {
        self.tell_acceptances(0, book, agenda)?;
        self.tell_acceptances(1, book, agenda)?;
        self.carry_all(Phase::Complete, book, agenda)
    }

    // What a terminal has accepted and the guest has not heard of.
    fn tell_acceptances(
        &self,
        port: u8,
        book: &Book,
        agenda: &mut Vec<Event>,
    ) -> Result<(), AllocError>
        ensures { IfOk result (λ _. agenda.new.items ≡ agenda.old.items ++ acceptances_told self.now book.now port) }
    {
        let notes = book.port(port);
        let node = self.node;
        let end = notes.accepted.min(notes.sent);
        Series::Acceptances { node, port }.add(book, notes.heard, end, agenda)
    }

    // The messages that this part of the round carries, of those that were sent since its beginning.
    fn carry_all(
        &mut self,
        part: Phase,
        book: &Book,
        agenda: &mut Vec<Event>,
    ) -> Result<(), AllocError>
        ensures { IfOk result (λ _. CarriesOn part self.old book.now agenda.old.items agenda.new.items self.new) }
    {
        let route = Route {
            part,
            node: self.node,
            backup: self.backup,
        };
        self.link.carry_all(route, self.mark, book, agenda)
    }
}
