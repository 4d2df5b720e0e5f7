//! The moves of a guest by the entries that are held.
ghost use Rattle.std.specs.Prelude.{◌≡◌, ◌<◌, None, OnErr};
ghost use Rattle.replayer.specs.Checking as checking;
ghost use Rattle.replayer.specs.Replaying as table;

use crate::following::take;
use crate::reads::{bytes_after, input_with, wanted};
use crate::replayer::Replayed;
use disk_dcdd::SECTOR_BYTES;
use guest_lockstep::{Lockstep, ReplayEnd, StopReason};
use i8080_words::{Fault, R};
use log_channel::Receiver;

// Makes at most `turns` moves, as far as the entries fit. Refused if none is made: the first runs out of memory, or the
// entries do not fit.
pub(crate) fn run<B: Lockstep>(
    board: &mut B,
    fetched: &mut Option<[u8; SECTOR_BYTES]>,
    receiver: &mut Receiver,
    turns: u64,
) -> R<Replayed>
    ensures answers { checking.AnswersUntrusted B.machine (B.state board.old) receiver.old.entries fetched.old turns result
        (B.state board.new) receiver.new.entries fetched.new }
    ensures held { receiver.new ≡ record receiver.old { entries = receiver.new.entries } }
    ensures unchanged { OnErr result
        ((board.new ≡ board.old) × (fetched.new ≡ fetched.old) × (receiver.new ≡ receiver.old)) }
{
    let mut moves = 0;
    while moves < turns {
        if let Some(why) = stop_at(board, *fetched, receiver) {
            return Ok(Replayed { moves, why });
        }
        match stretch(board, fetched, receiver, turns - moves) {
            Ok(made) => moves += made,
            Err(fault) if moves == 0 => return Err(fault),
            Err(fault) => {
                let why = why_after(fault);
                return Ok(Replayed { moves, why });
            }
        }
    }
    let why = stop_at(board, *fetched, receiver).unwrap_or(ReplayEnd::Turns);
    Ok(Replayed { moves, why })
}

// Why no move can be made at all, apart from memory and from entries that do not fit: no entry is held, or the first
// waits for bytes.
fn stop_at<B: Lockstep>(
    board: &B,
    fetched: Option<[u8; SECTOR_BYTES]>,
    receiver: &Receiver,
) -> Option<ReplayEnd>
    ensures { result ≡ table.stop_at B.machine (B.state board.now) receiver.now.entries fetched }
{
    if receiver.is_empty() {
        return Some(ReplayEnd::End);
    }
    if wanted(board, fetched, receiver).is_some() {
        return Some(ReplayEnd::Wait);
    }
    None
}

// Executes steps up to the first entry that is held, or takes that entry at its count. Returns how many moves were
// made, at most `turns`.
fn stretch<B: Lockstep>(
    board: &mut B,
    fetched: &mut Option<[u8; SECTOR_BYTES]>,
    receiver: &mut Receiver,
    turns: u64,
) -> R<u64>
    requires some { 0 < turns }
    requires ready { table.stop_at B.machine (B.state board.old) receiver.old.entries fetched.old ≡ None }
    ensures answers { checking.AnswersStretch B.machine (B.state board.old) receiver.old.entries fetched.old turns
        result (B.state board.new) receiver.new.entries fetched.new }
    ensures held { receiver.new ≡ record receiver.old { entries = receiver.new.entries } }
    ensures unchanged { OnErr result
        ((board.new ≡ board.old) × (fetched.new ≡ fetched.old) × (receiver.new ≡ receiver.old)) }
{
    let Some(front) = receiver.front() else {
        unreachable!()
    };
    let now = board.count();
    if now > front.count() {
        return Err(Fault::Malformed);
    }
    let ahead = front.count() - now;
    if ahead > 0 {
        let stopped = guest_lockstep::run(board, turns.min(ahead));
        if stopped.steps > 0 {
            return Ok(stopped.steps);
        }
        let StopReason::Refused(fault) = stopped.reason else {
            unreachable!()
        };
        return Err(seen(fault));
    }
    let Some(input) = input_with(*fetched, front) else {
        receiver.pop();
        return Ok(1);
    };
    if !take(board, input) {
        return Err(Fault::Malformed);
    }
    *fetched = bytes_after(*fetched, front);
    receiver.pop();
    Ok(1)
}

// How a step that is refused is seen: a guest that makes no step by itself does not fit its entries.
fn seen(fault: Fault) -> Fault
    ensures { result ≡ checking.seen fault }
{
    match fault {
        Fault::OutOfMemory => Fault::OutOfMemory,
        _ => Fault::Malformed,
    }
}

// Why a replay that has made moves makes no more, if a stretch is refused.
fn why_after(fault: Fault) -> ReplayEnd
    ensures { result ≡ checking.why_after fault }
{
    match fault {
        Fault::OutOfMemory => ReplayEnd::Memory,
        _ => ReplayEnd::Turns,
    }
}
