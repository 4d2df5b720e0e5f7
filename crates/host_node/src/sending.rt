//! What a host sends: each frame has what one call of its node gave.
ghost use Rattle.std.specs.Prelude.{IsTrue};
ghost use Rattle.host_law.specs.Host.{HasPort};
ghost use Rattle.host_node.specs.Goes.{Goes};

use crate::host::{HostNode, Hosted};
use crate::joining::may_ask;
use clone_state::Copies;
use disk_dcdd::{DRIVES, SECTOR_BYTES, SECTORS, SectorAddress};
use event_callbacks::{OpId, Operation, PORTS};
use ft_node::Lead;
use host_frames::{Frame, Notice, Transfer};
use i8080_words::{Fault, R};

/// The first byte of a packet that says how many parts of an image have come.
pub(crate) const PARTS: u8 = 0x4a;

impl<B: Copies<H> + Drop, H: Drop> HostNode<B, H> {
    /// Sends the entry of a primary's log at an index. Returns false if there is no room, or the node gives none.
    #[tactic(auto, using(crate::proofs::Sent::entry, crate::proofs::Going::stays, crate::proofs::Going::looked))]
    pub fn send_entry(&mut self, index: u64) -> R<bool>
        ensures { Goes B.state B.machine B.copied self.old self.new }
    {
        let Hosted::Node(node) = &self.node else {
            return Err(Fault::WrongRole);
        };
        if !self.mail.has_room() {
            return Ok(false);
        }
        let bytes = match node.packet(self.alloc, index) {
            Ok(bytes) => bytes,
            Err(Fault::OutOfMemory) => return Err(Fault::OutOfMemory),
            Err(_) => return Ok(false),
        };
        self.mail.say(&Frame::Packet {
            host: self.peer,
            bytes: &bytes,
        })?;
        Ok(true)
    }

    /// Sends a backup's acknowledgement of all that it holds. Returns false if there is no room, or the node gives none.
    #[tactic(auto, using(crate::proofs::Sent::ack, crate::proofs::Going::stays, crate::proofs::Going::looked))]
    pub fn acknowledge(&mut self) -> R<bool>
        ensures { Goes B.state B.machine B.copied self.old self.new }
    {
        let Hosted::Node(node) = &self.node else {
            return Err(Fault::WrongRole);
        };
        if !self.mail.has_room() {
            return Ok(false);
        }
        let bytes = match node.ack(self.alloc) {
            Ok(bytes) => bytes,
            Err(Fault::OutOfMemory) => return Err(Fault::OutOfMemory),
            Err(_) => return Ok(false),
        };
        self.mail.say(&Frame::Packet {
            host: self.peer,
            bytes: &bytes,
        })?;
        Ok(true)
    }

    /// Sends a part of a primary's image. Returns false if there is no room, or the node gives none.
    #[tactic(auto, using(crate::proofs::Sent::part, crate::proofs::Going::stays, crate::proofs::Going::looked))]
    pub fn send_part(&mut self, index: u64) -> R<bool>
        ensures { Goes B.state B.machine B.copied self.old self.new }
    {
        let Hosted::Node(node) = &self.node else {
            return Err(Fault::WrongRole);
        };
        if !self.mail.has_room() {
            return Ok(false);
        }
        if index > u64::from(u16::MAX) {
            return Ok(false);
        }
        let bytes = match node.send_part(self.alloc, index) {
            Ok(bytes) => bytes,
            Err(Fault::OutOfMemory) => return Err(Fault::OutOfMemory),
            Err(_) => return Ok(false),
        };
        self.mail.say(&Frame::Packet {
            host: self.peer,
            bytes: &bytes,
        })?;
        Ok(true)
    }

    /// Releases an operation to its device. `Unknown` if no terminal has the port; otherwise `NotDue` or `NotCovered` as the
    /// node's `release`; Ok(false) if there is no room.
    #[tactic(auto, using(crate::proofs::Sent::byte_out, crate::proofs::Sent::write_out, crate::proofs::Going::stays, crate::proofs::Going::looked))]
    pub fn release(&mut self, id: OpId) -> R<bool>
        ensures { Goes B.state B.machine B.copied self.old self.new }
    {
        let Hosted::Node(node) = &self.node else {
            return Err(Fault::WrongRole);
        };
        if !has_device(id) {
            return Err(Fault::Unknown);
        }
        if !self.mail.has_room() {
            return Ok(false);
        }
        match node.release(id)? {
            Operation::Byte { port, number, byte } => {
                let transfer = Transfer::Byte { port, number, byte };
                self.mail.say(&Frame::Transfer(transfer))?;
            }
            Operation::Write(write) => self.mail.say(&Frame::Transfer(Transfer::Write(write)))?,
        }
        Ok(true)
    }

    // The sector of this number on the track under the head of the selected drive.
    fn place(&self, sector: u8) -> R<SectorAddress> {
        let Hosted::Node(node) = &self.node else {
            return Err(Fault::WrongRole);
        };
        if sector >= SECTORS {
            return Err(Fault::Unknown);
        }
        node.place(sector)
    }

    /// Whether the guest of a live node looks for the sector of this number under its head: it would take some bytes of it.
    /// `SectorBusy` if a write of it is outstanding; otherwise as the node's `check_under`.
    pub fn looks_for(&self, sector: u8) -> R<bool> {
        let address = self.place(sector)?;
        let Hosted::Node(node) = &self.node else {
            return Err(Fault::WrongRole);
        };
        if usize::from(address.drive) >= DRIVES || address.sector >= SECTORS {
            return Err(Fault::Unknown);
        }
        match node.check_under(address, 0, [0; SECTOR_BYTES]) {
            Ok(()) | Err(Fault::StaleRead) => Ok(true),
            Err(Fault::SectorBusy) => Err(Fault::SectorBusy),
            Err(_) => Ok(false),
        }
    }

    /// Asks the disk for the sector of this number under the head of a live node's machine. `NotDue` if no drive is selected;
    /// Ok(false) if there is no room.
    #[tactic(auto, using(crate::proofs::Sent::place, crate::proofs::Going::stays, crate::proofs::Going::looked))]
    pub fn ask_under(&mut self, sector: u8) -> R<bool>
        ensures { Goes B.state B.machine B.copied self.old self.new }
    {
        let Hosted::Node(node) = &self.node else {
            return Err(Fault::WrongRole);
        };
        if sector >= SECTORS {
            return Err(Fault::Unknown);
        }
        let address = node.place(sector)?;
        if !self.mail.has_room() {
            return Ok(false);
        }
        self.mail.say(&Frame::Transfer(Transfer::Get(address)))?;
        Ok(true)
    }

    /// Asks the disk for the sector for whose bytes a replaying node waits. `NotDue` if it waits for none; Ok(false) if there
    /// is no room.
    #[tactic(auto, using(crate::proofs::Sent::wanted, crate::proofs::Going::stays, crate::proofs::Going::looked))]
    pub fn ask_wanted(&mut self) -> R<bool>
        ensures { Goes B.state B.machine B.copied self.old self.new }
    {
        let Hosted::Node(node) = &self.node else {
            return Err(Fault::WrongRole);
        };
        let address = node.wanted()?;
        if !self.mail.has_room() {
            return Ok(false);
        }
        self.mail.say(&Frame::Transfer(Transfer::Get(address)))?;
        Ok(true)
    }

    /// Asks the arbiter for the node's generation. Until the answer comes the host takes no packet. Returns false if there is no
    /// room; `WrongRole` if the node is neither primary nor backup.
    #[tactic(auto, using(crate::proofs::Asked::asks, crate::proofs::Going::stays, crate::proofs::Going::looked))]
    pub fn suspect(&mut self) -> R<bool>
        ensures { Goes B.state B.machine B.copied self.old self.new }
    {
        let Hosted::Node(node) = &self.node else {
            return Err(Fault::WrongRole);
        };
        if !may_ask(node.role()) {
            return Err(Fault::WrongRole);
        }
        let generation = node.generation();
        if !self.mail.has_room() {
            return Ok(false);
        }
        self.mail.say(&Frame::Notice(Notice::Suspect(generation)))?;
        self.is_waiting = true;
        Ok(true)
    }

    /// Says to the peer only that the host is there. Returns false if there is no room.
    #[tactic(auto, using(crate::proofs::Calling::saying, crate::proofs::Going::stays, crate::proofs::Going::looked))]
    pub fn beat(&mut self) -> R<bool>
        ensures { Goes B.state B.machine B.copied self.old self.new }
    {
        if !self.mail.has_room() {
            return Ok(false);
        }
        self.mail.say(&Frame::Packet {
            host: self.peer,
            bytes: &[],
        })?;
        Ok(true)
    }

    /// Tells the peer how far a primary is, or only how many steps a backup has made. Returns false if there is no room.
    #[tactic(auto, using(crate::proofs::Calling::saying, crate::proofs::Going::stays, crate::proofs::Going::looked))]
    pub fn say_progress(&mut self) -> R<bool>
        ensures { Goes B.state B.machine B.copied self.old self.new }
    {
        let lead = self.lead()?;
        if !self.mail.has_room() {
            return Ok(false);
        }
        self.mail.say(&Frame::Notice(Notice::Progress {
            host: self.peer,
            entries: lead.entries,
            count: lead.count,
        }))?;
        Ok(true)
    }

    // How far the node is. The entries of a backup say nothing: a primary looks at its steps alone.
    fn lead(&self) -> R<Lead> {
        let Hosted::Node(node) = &self.node else {
            return Err(Fault::WrongRole);
        };
        match node.lead() {
            Ok(lead) => Ok(lead),
            Err(_) => Ok(Lead {
                entries: 0,
                count: node.count(),
            }),
        }
    }

    /// Tells the peer how many parts of an image have come. Returns false if there is no room.
    #[tactic(auto, using(crate::proofs::Calling::saying, crate::proofs::Going::stays, crate::proofs::Going::looked))]
    pub fn say_parts(&mut self, parts: u16) -> R<bool>
        ensures { Goes B.state B.machine B.copied self.old self.new }
    {
        if !self.mail.has_room() {
            return Ok(false);
        }
        let [high, low] = parts.to_be_bytes();
        self.mail.say(&Frame::Packet {
            host: self.peer,
            bytes: &[PARTS, high, low],
        })?;
        Ok(true)
    }
}

// Whether there is a device for the operation: a byte has a terminal to go to.
fn has_device(id: OpId) -> bool
    ensures { IsTrue result → HasPort id }
{
    match id {
        OpId::Byte(port, _) => usize::from(port) < PORTS,
        OpId::Write(_) => true,
    }
}
