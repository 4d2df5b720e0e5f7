//! A guest that makes the moves of entries that it need not trust.
ghost use Rattle.std.specs.Prelude.{◌≡◌, ◌<◌, ◌↔◌, IsTrue, OnErr, false};
ghost use Rattle.guest_lockstep.specs.Lockstep.{IsInput, HasRoom};
ghost use Rattle.log_entry.specs.Entries.{count_of, input_of};
ghost use Rattle.replayer.specs.Following.{Follows, TakesIf};

use disk_dcdd::{DRIVES, SECTORS};
use event_callbacks::PORTS;
use guest_lockstep::{Input, Lockstep, StopReason, Stopped, run};
use i8080_words::{GREATEST_NUMBER, R};
use log_entry::Entry;

/// How far a guest got toward an entry.
#[derive(Clone, Copy, PartialEq, Eq)]
pub enum Followed {
    /// It executed this many steps, which gave nothing; the entry's own move is still to be made.
    Stepped(u64),
    /// It made the entry's own move.
    Done,
    /// No moves of the guest log this entry next: the list that it is from belongs to another run.
    Differs,
}

/// Executes at most `turns` steps toward an entry's count, or makes the entry's own move there: the step that gives the
/// operation of a mark, or the input. No move logs a read here, since it does not carry its bytes. Refused as the first
/// step is; so `Idle` and `Spent` say that the guest never gets there by itself.
pub fn follow<B: Lockstep>(board: &mut B, entry: &Entry, turns: u64) -> R<Followed>
    ensures answer { Follows B.machine (B.state board.old) entry.now turns result (B.state board.new) }
    ensures unchanged { OnErr result (board.new ≡ board.old) }
{
    let now = board.count();
    if now < entry.count() {
        return step_toward(board, entry, turns);
    }
    if now > entry.count() {
        return Ok(Followed::Differs);
    }
    match entry.input() {
        Some(input) if take(board, input) => Ok(Followed::Done),
        _ => Ok(Followed::Differs),
    }
}

// Executes at most `turns` steps toward the count of an entry, which is later.
fn step_toward<B: Lockstep>(board: &mut B, entry: &Entry, turns: u64) -> R<Followed>
    requires later { B.machine.count (B.state board.old) < count_of entry.now }
    ensures answer { Follows B.machine (B.state board.old) entry.now turns result (B.state board.new) }
    ensures unchanged { OnErr result (board.new ≡ board.old) }
{
    let ahead = entry.count() - board.count();
    let Stopped { steps, reason } = run(board, turns.min(ahead));
    match reason {
        StopReason::Turns => Ok(Followed::Stepped(steps)),
        StopReason::Operation(_) if steps == ahead && entry.timed().is_none() => Ok(Followed::Done),
        StopReason::Operation(_) => Ok(Followed::Differs),
        StopReason::Refused(fault) if steps == 0 => Err(fault),
        StopReason::Refused(_) => Ok(Followed::Stepped(steps)),
    }
}

// Takes an input, if it may come and nothing refuses it.
pub(crate) fn take<B: Lockstep>(board: &mut B, input: Input) -> bool
    ensures answer { TakesIf B.machine (B.state board.old) input result (B.state board.new) }
    ensures unchanged { result ≡ false → board.new ≡ board.old }
{
    may_come(&input) && has_room(board, &input) && board.take(input).is_ok()
}

// Whether an input is for a port or a sector that exists.
fn may_come(input: &Input) -> bool
    ensures { IsTrue result ↔ IsInput input.now }
{
    match *input {
        Input::Rx(port, _) | Input::Sent(port) => usize::from(port) < PORTS,
        Input::Sector { drive, sector, .. } => usize::from(drive) < DRIVES && sector < SECTORS,
        Input::Written(_) => true,
    }
}

// Whether the number of keys has room for an input.
fn has_room<B: Lockstep>(board: &B, input: &Input) -> bool
    requires { IsInput input.now }
    ensures { IsTrue result ↔ HasRoom B.machine (B.state board.now) input.now }
{
    match *input {
        Input::Rx(port, _) => board.keys(port) < GREATEST_NUMBER,
        _ => true,
    }
}
