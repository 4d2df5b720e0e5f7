//! The link's worker: it delivers packets, loses them, and delivers them twice.
ghost use Rattle.std.specs.Prelude.{◌≡◌, ◌<◌, ◌^◌, false, is_some, None, Some};
ghost use Rattle.pair_rule.specs.Seats.{swaps_at};
ghost use Rattle.pair_rule.specs.declared.mailbox.Mailbox.TheVariants.{Inbox, Outbox};
ghost use Rattle.pair_rule.specs.declared.payload.Packet.{Packet};
ghost use Rattle.pair_threads.specs.Fates.{HasTaken, IsDealtWith, fate_at};
ghost use Rattle.pair_threads.specs.Turns.{turn_by};

use crate::signals::Told;
use crate::worker::{Turn, Worker};
use i8080_words::{Fault, R};
use pair_rule::{Fabric, LinkSeat};

/// What happens to a packet.
#[derive(Clone, Copy, PartialEq, Eq)]
pub enum Fate {
    /// It is delivered.
    Pass,
    /// It is lost.
    Drop,
    /// It is delivered twice.
    Twice,
}

/// The link's seat, and the fates of its packets in order; the last fate applies to all further packets, and without any
/// each packet is delivered.
#[derive(Drop)]
pub(crate) struct LinkWorker {
    pub(crate) seat: LinkSeat,
    fates: Vec<Fate>,
    packets: usize,
    // The fate of the packet in the seat's hand, if it has one.
    fate: Option<Fate>,
}

impl LinkWorker {
    pub(crate) fn new(seat: LinkSeat, fates: Vec<Fate>) -> LinkWorker
        ensures { (result.seat ≡ seat) × (result.fates ≡ fates) × (result.packets ≡ 0) × (result.fate ≡ None) }
    {
        LinkWorker {
            seat,
            fates,
            packets: 0,
            fate: None,
        }
    }

    // Takes the next packet out, if one lies in the outbox.
    fn take(&mut self, fabric: &Fabric) -> Turn
        requires table { self.old.seat.table ≡ fabric.now }
        requires few { swaps_at self.old.seat.core.empties Outbox < 2 ^ 40 }
        requires none { (self.old.fate ≡ None) × (self.old.seat.hand ≡ None) }
        ensures table { self.new.seat.table ≡ self.old.seat.table }
        ensures taken { HasTaken self.old self.new }
        ensures turn { result ≡ turn_by false (is_some self.new.fate) }
    {
        if !self.seat.carry_out(fabric) {
            return Turn::Waits;
        }
        self.fate = Some(fate_of(&self.fates, self.packets));
        self.packets = self.packets.saturating_add(1);
        Turn::Moved
    }

    // Does with the packet in the seat's hand what its fate says.
    fn deal(&mut self, fabric: &Fabric, fate: Fate)
        requires table { self.old.seat.table ≡ fabric.now }
        requires few { swaps_at self.old.seat.core.fills Inbox < 2 ^ 40 }
        ensures table { self.new.seat.table ≡ self.old.seat.table }
        ensures same { (self.new.fates ≡ self.old.fates) × (self.new.packets ≡ self.old.packets) }
        ensures dealt { (p : Packet) → self.old.seat.hand ≡ Some p
            → IsDealtWith fate p self.old.seat self.new.seat self.new.fate }
    {
        self.fate = None;
        match fate {
            Fate::Pass => self.seat.carry_in(fabric, false),
            Fate::Drop => self.seat.discard(fabric),
            Fate::Twice => {
                self.seat.carry_in(fabric, true);
                self.fate = Some(Fate::Pass);
            }
        }
    }
}

// The fate of a packet, by how many were sent before it: the last one of the list is that of all further packets, and without
// any each is delivered.
fn fate_of(fates: &[Fate], packet: usize) -> Fate
    ensures { result ≡ fate_at fates.now packet }
{
    let own = fates.get(packet).copied();
    let last = fates.last().copied();
    own.or(last).unwrap_or(Fate::Pass)
}

impl Worker for LinkWorker {
    ghost use Rattle.std.specs.Prelude.{◌≡◌, ◌&&◌, is_some, false};
    ghost use Rattle.pair_threads.specs.Fates.{HasCarried};

    ghost table = { λ w. w.seat.table };

    ghost ready = { λ w. is_some w.fate ≡ is_some w.seat.hand };

    ghost came = { λ first w. Unit {0} };

    ghost ended = { λ w. Unit {0} };

    ghost asks = { λ old number new. Unit {0} };

    ghost turned = { λ old number new turn. HasCarried old new turn };

    ghost ends_by = { λ w told. told.primary_ended && told.backup_ended };

    ghost needs_others = { λ w. false };

    fn turn(&mut self, fabric: &Fabric, _number: u64) -> R<Turn> {
        if !self.seat.has_swaps_left() {
            return Err(Fault::Stalled);
        }
        match self.fate {
            Some(fate) => {
                self.deal(fabric, fate);
                Ok(Turn::Moved)
            }
            None => Ok(self.take(fabric)),
        }
    }

    fn may_end(&self, told: Told) -> bool {
        told.primary_ended && told.backup_ended
    }

    fn is_held_up(&self) -> bool {
        false
    }
}
