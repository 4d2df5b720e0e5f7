//! The packets of the log, and what a node does with them: it replays, releases and tells its terminals.
ghost use Rattle.std.specs.Prelude.{◌≡◌, ◌<◌, ℕ, IfOk, IfSome, OnErr, OnOk};
ghost use Rattle.event_callbacks.specs.declared.devices.TheConstants.{PORTS};
ghost use Rattle.log_channel.specs.Packet.{packet_at};
ghost use Rattle.pair_protocol.specs.Copying.{Copying};
ghost use Rattle.pair_protocol.specs.Node as protocol;
ghost use Rattle.ft_node.specs.Calls as calls;
ghost use Rattle.ft_node.specs.Checked as checked;
ghost use Rattle.ft_node.specs.AnyNode.{IsNode, MayHold, MayReplay, PagesStay};

use crate::node::Node;
use clone_state::Copies;
use event_callbacks::{OpId, Operation};
use i8080_words::{Fault, R};
use log_entry::Entry;
use replayer::Replayed;
use std::alloc::Global;

impl<B: Copies<H> + Drop, H: Drop> Node<B, H> {
    /// The packet of a primary's log entry at an index. `Unknown` if the entry is acknowledged or not yet logged, and at
    /// every other node.
    pub fn packet(&self, alloc: Global, index: u64) -> R<Vec<u8>>
        ensures { (C : Copying B.State) (drives : ℕ) (x : protocol.Node B.State) → IsNode B.state B.machine C drives self.now x → calls.Sends index x result }
    {
        match self {
            Node::Primary(primary) => primary.packet(alloc, index),
            _ => Err(Fault::Unknown),
        }
    }

    /// The entry that a packet of the log brings; `None` if the packet is a repeat or past a gap. `Malformed` if the
    /// bytes spell no entry, `WrongGeneration` if they are of another generation.
    pub fn next_entry(&self, bytes: &[u8]) -> R<Option<Entry>>
        ensures answer { (C : Copying B.State) (drives : ℕ) (x : protocol.Node B.State) → IsNode B.state B.machine C drives self.now x
            → calls.Expects (packet_at bytes.now) x result }
        ensures may { IfOk result (λ next. IfSome next (MayHold self.now)) }
    {
        match self {
            Node::Backup(backup) => backup.next_entry(bytes),
            _ => Err(Fault::WrongRole),
        }
    }

    /// Holds the next entry of the log. If all that is held was replayed, no memory is needed.
    pub fn hold(&mut self, entry: Entry) -> R<()>
        requires { MayHold self.old entry }
        ensures answer { (C : Copying B.State) (drives : ℕ) (x : protocol.Node B.State) → IsNode B.state B.machine C drives self.old x
            → calls.Holds entry x result (IsNode B.state B.machine C drives self.new) }
        ensures pages { OnOk result (PagesStay B.stale self.old self.new) }
        ensures unchanged { OnErr result (self.new ≡ self.old) }
    {
        match self {
            Node::Backup(backup) => backup.hold(entry),
            _ => unreachable!(),
        }
    }

    /// Takes a packet of the log: holds the entry that `next_entry` finds, and returns true; a repeat, or a packet past a
    /// gap, is false and changes nothing.
    pub fn on_log(&mut self, bytes: &[u8]) -> R<bool>
        ensures answer { (C : Copying B.State) (drives : ℕ) (x : protocol.Node B.State) → IsNode B.state B.machine C drives self.old x
            → calls.DeliversLog calls.NeedsRoom (packet_at bytes.now) x result (IsNode B.state B.machine C drives self.new) }
        ensures unchanged { OnErr result (self.new ≡ self.old) }
    {
        let Some(entry) = self.next_entry(bytes)? else {
            return Ok(false);
        };
        self.hold(entry)?;
        Ok(true)
    }

    /// The packet by which a backup acknowledges all that it holds; with shared reads it reports how much of it is replayed.
    pub fn ack(&self, alloc: Global) -> R<Vec<u8>>
        ensures { (C : Copying B.State) (drives : ℕ) (x : protocol.Node B.State) → IsNode B.state B.machine C drives self.now x → calls.Acknowledges x result }
    {
        match self {
            Node::Backup(backup) => backup.ack(alloc),
            _ => Err(Fault::WrongRole),
        }
    }

    /// Takes an acknowledgement, with or without the number of replayed entries, and returns how many entries are
    /// acknowledged then. `BadAck` if it covers more entries than the log has.
    pub fn on_ack(&mut self, bytes: &[u8]) -> R<u64>
        ensures answer { (C : Copying B.State) (drives : ℕ) (x : protocol.Node B.State) → IsNode B.state B.machine C drives self.old x
            → calls.DeliversAcknowledgement (packet_at bytes.now) x result (IsNode B.state B.machine C drives self.new) }
        ensures pages { OnOk result (PagesStay B.stale self.old self.new) }
        ensures unchanged { OnErr result (self.new ≡ self.old) }
    {
        match self {
            Node::Primary(primary) => primary.on_ack(bytes),
            _ => Err(Fault::WrongRole),
        }
    }

    /// Makes at most `turns` moves of a backup, each of them a step or a held entry. Makes fewer also where what it holds
    /// fits its guest no longer, since it is not of its guest's run; `OutOfMemory` or `Malformed` if it makes none at all.
    pub fn replay(&mut self, turns: u64) -> R<Replayed>
        ensures answer { (C : Copying B.State) (drives : ℕ) (x : protocol.Node B.State) → IsNode B.state B.machine C drives self.old x
            → checked.Replays B.machine turns x result (IsNode B.state B.machine C drives self.new) }
        ensures exactly { MayReplay B.state B.machine self.old → (C : Copying B.State) (drives : ℕ) (x : protocol.Node B.State) → IsNode B.state B.machine C drives self.old x
            → calls.Replays B.machine turns x result (IsNode B.state B.machine C drives self.new) }
        ensures pages { OnOk result (PagesStay B.stale self.old self.new) }
        ensures unchanged { OnErr result (self.new ≡ self.old) }
    {
        match self {
            Node::Backup(backup) => backup.replay(turns),
            _ => Err(Fault::WrongRole),
        }
    }

    /// The outstanding operation with a name: `NotDue` if there is none, `NotCovered` if a primary's backup has not
    /// acknowledged it.
    pub fn release(&self, id: OpId) -> R<Operation>
        ensures { (C : Copying B.State) (drives : ℕ) (x : protocol.Node B.State) → IsNode B.state B.machine C drives self.now x
            → calls.Releases B.machine id x result }
    {
        match self {
            Node::Primary(primary) => primary.release(id),
            Node::Alone(alone) => alone.release(id),
            _ => Err(Fault::WrongRole),
        }
    }

    /// How many keys of a port are covered, so that its terminal may forget them.
    pub fn told(&self, port: u8) -> R<u64>
        requires { port < PORTS }
        ensures { (C : Copying B.State) (drives : ℕ) (x : protocol.Node B.State) → IsNode B.state B.machine C drives self.now x
            → calls.Tells B.machine port x result }
    {
        match self {
            Node::Primary(primary) => Ok(primary.told(port)),
            Node::Alone(alone) => Ok(alone.told(port)),
            _ => Err(Fault::WrongRole),
        }
    }
}
