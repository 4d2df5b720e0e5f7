//! Inputs that a node takes.
ghost use Rattle.std.specs.Prelude.{◌≡◌, ◌<◌, ℕ, None, [], ◌∷◌, OnErr, OnOk};
ghost use Rattle.disk_dcdd.specs.Completion.{answered};
ghost use Rattle.disk_dcdd.specs.declared.controller.TheConstants.{DRIVES};
ghost use Rattle.disk_dcdd.specs.declared.sector.TheConstants.{SECTORS};
ghost use Rattle.event_callbacks.specs.declared.devices.TheConstants.{PORTS};
ghost use Rattle.guest_lockstep.specs.declared.input.Input.TheVariants as input;
ghost use Rattle.pair_protocol.specs.Copying.{Copying};
ghost use Rattle.pair_protocol.specs.Effects.{Took};
ghost use Rattle.pair_protocol.specs.Node as protocol;
ghost use Rattle.pair_protocol.specs.Refusals as refusals;
ghost use Rattle.ft_node.specs.Calls as calls;
ghost use Rattle.ft_node.specs.Due.{refused_by};
ghost use Rattle.ft_node.specs.AnyNode.{IsNode, MayAccept, PagesStay, room_of};

use crate::due;
use crate::node::Node;
use clone_state::Copies;
use disk_dcdd::{SECTOR_BYTES, SectorAddress};
use guest_lockstep::Input;
use i8080_words::{Fault, R};

impl<B: Copies<H> + Drop, H: Drop> Node<B, H> {
    /// Whether `key` would take the key with an index: returns its refusal, and changes nothing.
    pub fn check_key(&self, port: u8, index: u64) -> R<()>
        requires { port < PORTS }
        ensures answer { (C : Copying B.State) (drives : ℕ) (x : protocol.Node B.State) → IsNode B.state B.machine C drives self.now x
            → result ≡ answered (refusals.take_key_refusal B.machine port index x) }
        ensures may { OnOk result ((byte : ℕ) → MayAccept B.state B.machine self.now (input.Rx port byte)) }
    {
        due::check_key(self.board()?, self.room(), port, index)
    }

    /// Whether `sent` would take the acceptance of a byte: returns its refusal, and changes nothing.
    pub fn check_sent(&self, port: u8, number: u64) -> R<()>
        requires { port < PORTS }
        ensures answer { (C : Copying B.State) (drives : ℕ) (x : protocol.Node B.State) → IsNode B.state B.machine C drives self.now x
            → result ≡ answered (refusals.tell_sent_refusal B.machine port number x) }
        ensures may { OnOk result (MayAccept B.state B.machine self.now (input.Sent port)) }
    {
        due::check_sent(self.board()?, self.room(), port, number)
    }

    /// Whether `done` would take the completion of a write: returns its refusal, and changes nothing.
    pub fn check_done(&self, number: u64) -> R<()>
        ensures answer { (C : Copying B.State) (drives : ℕ) (x : protocol.Node B.State) → IsNode B.state B.machine C drives self.now x
            → result ≡ answered (refusals.put_reply_refusal B.machine number x) }
        ensures may { OnOk result (MayAccept B.state B.machine self.now (input.Written number)) }
    {
        due::check_done(self.board()?, self.room(), number)
    }

    /// Whether `under` would take a sector: returns its refusal, and changes nothing.
    pub fn check_under(
        &self,
        address: SectorAddress,
        number: u64,
        bytes: [u8; SECTOR_BYTES],
    ) -> R<()>
        requires drive { address.drive < DRIVES }
        requires sector { address.sector < SECTORS }
        ensures answer { (C : Copying B.State) (drives : ℕ) (x : protocol.Node B.State) → IsNode B.state B.machine C drives self.now x
            → result ≡ answered (refusals.get_reply_refusal B.machine address number bytes x) }
        ensures may { OnOk result (MayAccept B.state B.machine self.now
            (input.Sector address.drive address.sector number bytes)) }
    {
        due::check_under(self.board()?, self.room(), address, number, bytes)
    }

    /// Takes an input that nothing refuses. Allocates no memory.
    pub fn accept(&mut self, input: Input)
        requires { MayAccept B.state B.machine self.old input }
        ensures pages { PagesStay B.stale self.old self.new }
        ensures node { (C : Copying B.State) (drives : ℕ) (x : protocol.Node B.State) → IsNode B.state B.machine C drives self.old x
            → calls.Makes x (Took B.machine input) (IsNode B.state B.machine C drives self.new) }
    {
        match self {
            Node::Primary(primary) => primary.accept(input),
            Node::Alone(alone) => alone.accept(input),
            _ => unreachable!(),
        }
    }

    /// Takes the key that was typed at an index, from 0. `WrongNumber` if it is not the next one; `LogFull` if the log
    /// has no room, `Spent` if no number is left for an entry or a key.
    pub fn key(&mut self, port: u8, index: u64, byte: u8) -> R<()>
        requires port { port < PORTS }
        ensures answer { (C : Copying B.State) (drives : ℕ) (x : protocol.Node B.State) → IsNode B.state B.machine C drives self.old x
            → calls.Takes B.machine (input.Rx port byte) (refusals.take_key_refusal B.machine port index x) x
            result (IsNode B.state B.machine C drives self.new) }
        ensures unchanged { OnErr result (self.new ≡ self.old) }
    {
        self.check_key(port, index)?;
        self.accept(Input::Rx(port, byte));
        Ok(())
    }

    /// Takes the acceptance of the byte with a number. `NotDue` if no byte of the port waits, `WrongNumber` if another
    /// one is the oldest.
    pub fn sent(&mut self, port: u8, number: u64) -> R<()>
        requires port { port < PORTS }
        ensures answer { (C : Copying B.State) (drives : ℕ) (x : protocol.Node B.State) → IsNode B.state B.machine C drives self.old x
            → calls.Takes B.machine (input.Sent port) (refusals.tell_sent_refusal B.machine port number x) x result
            (IsNode B.state B.machine C drives self.new) }
        ensures unchanged { OnErr result (self.new ≡ self.old) }
    {
        self.check_sent(port, number)?;
        self.accept(Input::Sent(port));
        Ok(())
    }

    /// Takes the completion of a write. `NotDue` if the write is not outstanding.
    pub fn done(&mut self, number: u64) -> R<()>
        ensures answer { (C : Copying B.State) (drives : ℕ) (x : protocol.Node B.State) → IsNode B.state B.machine C drives self.old x
            → calls.Takes B.machine (input.Written number) (refusals.put_reply_refusal B.machine number x) x result
            (IsNode B.state B.machine C drives self.new) }
        ensures unchanged { OnErr result (self.new ≡ self.old) }
    {
        self.check_done(number)?;
        self.accept(Input::Written(number));
        Ok(())
    }

    /// The sector with a number on the track under the head of the selected drive. `NotDue` if no drive is selected.
    pub fn place(&self, sector: u8) -> R<SectorAddress>
        requires { sector < SECTORS }
        ensures { (C : Copying B.State) (drives : ℕ) (x : protocol.Node B.State) → IsNode B.state B.machine C drives self.now x
            → calls.Gets B.machine sector x result }
    {
        let board = self.board()?;
        let drive = board.selected().ok_or(Fault::NotDue)?;
        Ok(board.sector_under(drive, sector))
    }

    /// Takes a sector that was read, with the number of the write that brought its bytes. `NotDue` if the head is
    /// elsewhere by now, `SectorBusy` if a write of the sector is outstanding, `StaleRead` if a later write is done.
    pub fn under(&mut self, address: SectorAddress, number: u64, bytes: [u8; SECTOR_BYTES]) -> R<()>
        requires drive { address.drive < DRIVES }
        requires sector { address.sector < SECTORS }
        ensures answer { (C : Copying B.State) (drives : ℕ) (x : protocol.Node B.State) → IsNode B.state B.machine C drives self.old x
            → calls.Takes B.machine (input.Sector address.drive address.sector number bytes)
            (refusals.get_reply_refusal B.machine address number bytes x) x result (IsNode B.state B.machine C drives self.new) }
        ensures unchanged { OnErr result (self.new ≡ self.old) }
    {
        self.check_under(address, number, bytes)?;
        self.accept(Input::Sector {
            drive: address.drive,
            sector: address.sector,
            number,
            bytes,
        });
        Ok(())
    }

    // What a primary's log answers to one more entry; no other node has a log.
    fn room(&self) -> R<()>
        ensures value { result ≡ room_of self.now }
        ensures log { (C : Copying B.State) (drives : ℕ) (x : protocol.Node B.State) → IsNode B.state B.machine C drives self.now x → refusals.serves x ≡ None
            → refusals.first_of (refusals.log_full x ∷ refusals.log_spent x ∷ []) ≡ refused_by result }
    {
        match self {
            Node::Primary(primary) => {
                primary.recorder.log().stands();
                primary.recorder.log().room()
            }
            _ => Ok(()),
        }
    }
}
