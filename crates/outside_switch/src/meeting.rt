//! What a frame of a host asks for.
ghost use Rattle.std.specs.Prelude.{◌≡◌, [], ℕ, None, length};
ghost use Rattle.outside_switch.specs.DeviceCalls.{arrived_after, is_accepted};
ghost use Rattle.outside_switch.specs.Heeds.{Asked, HeedsAt, HeedsNotice, HeedsTransfer, Stays, Writes, passed_if, room_of, shown_if, told_unless};
ghost use Rattle.host_frames.specs.Frames.{Packet, Said, Tells, Transfers, said_by};
ghost use Rattle.host_frames.specs.Meaning.{covered_at};
ghost use Rattle.host_frames.specs.declared.frame.Notice.TheVariants as of_notice;
ghost use Rattle.host_frames.specs.declared.frame.Transfer.TheVariants as of_transfer;
ghost use Rattle.outside_switch.specs.Lines.{number_at};
ghost use Rattle.outside_switch.specs.Meets.{MeetsSaid};
ghost use Rattle.outside_switch.specs.Passing.{CalledWith, passed_of};
ghost use Rattle.outside_switch.specs.Says.{IsPassed};

use crate::heard::BodyOutcome;
use crate::places;
use crate::sight::Sight;
use crate::switch::Switch;
use disk_dcdd::{SectorAddress, SectorWrite};
use event_callbacks::PORTS;
use host_frames::{Frame, Notice, Report, Transfer};
use i8080_words::Fault;
use shared_disk::SectorStore;
use std::alloc::Global;

impl<D: SectorStore> Switch<D> {
    /// Does what a frame asks for that came from the host at a place. The screen of each port may have room.
    pub(crate) fn meet(
        &mut self,
        alloc: Global,
        place: u8,
        frame: Frame<'_>,
        rooms: [bool; PORTS],
    ) -> BodyOutcome
        ensures meets { MeetsSaid (passed_of result) place (said_by frame.entry) self.old self.new }
        ensures heeds { HeedsAt place rooms (said_by frame.entry) self.old.lines.items self.old.devices self.new.devices result }
    {
        match frame {
            Frame::Packet { host, bytes } => {
                self.pass(alloc, host, &Frame::Packet { host: place, bytes })
            }
            Frame::Transfer(transfer) => self.meet_transfer(alloc, place, transfer, rooms),
            Frame::Notice(notice) => self.meet_notice(alloc, place, notice),
        }
    }

    // What is said to a terminal or the disk.
    #[tactic(auto, using(crate::proofs::Acting::still_met))]
    fn meet_transfer(
        &mut self,
        alloc: Global,
        place: u8,
        transfer: Transfer,
        rooms: [bool; PORTS],
    ) -> BodyOutcome
        ensures meets { MeetsSaid (passed_of result) place (Transfers transfer) self.old self.new }
        ensures heeds { HeedsTransfer rooms transfer self.old.devices self.new.devices result }
    {
        match transfer {
            Transfer::Byte { port, number, byte } => {
                self.meet_byte(alloc, place, port, number, byte, has_room(rooms, port))
            }
            Transfer::Write(write) => self.meet_write(alloc, place, &write),
            Transfer::Get(address) => self.meet_get(alloc, place, address),
            Transfer::Inspected {
                number,
                count,
                bytes,
            } => {
                self.sight = Some(Sight {
                    place,
                    number,
                    count,
                    bytes,
                });
                BodyOutcome::Met
            }
            _ => BodyOutcome::Failed,
        }
    }

    // What is said to the arbiter or the switch.
    #[tactic(auto, using(crate::proofs::Acting::still_met))]
    fn meet_notice(&mut self, alloc: Global, place: u8, notice: Notice) -> BodyOutcome
        ensures meets { MeetsSaid (passed_of result) place (Tells notice) self.old self.new }
        ensures heeds { HeedsNotice (length self.old.lines.items) (number_at self.old.lines.items place) notice self.old.devices self.new.devices result }
    {
        match notice {
            Notice::Suspect(generation) => self.meet_suspect(alloc, place, generation),
            Notice::Report(report) => self.meet_report(place, &report),
            Notice::Join {
                generation,
                host,
                drives,
                count,
            } => self.meet_join(alloc, place, generation, host, drives, count),
            Notice::Progress {
                host,
                entries,
                count,
            } => {
                let passed = Notice::Progress {
                    host: place,
                    entries,
                    count,
                };
                self.pass(alloc, host, &Frame::Notice(passed))
            }
            _ => BodyOutcome::Failed,
        }
    }

    // A frame is passed on to the host at a place, unless the link loses it.
    #[tactic(auto, using(crate::proofs::Acting::passed_met, crate::proofs::Acting::still_met))]
    fn pass(&mut self, alloc: Global, host: u8, frame: &Frame<'_>) -> BodyOutcome
        ensures meets { (place : ℕ) (heard : Said)
            → IsPassed place host (number_at self.old.lines.items host) heard (said_by frame.now)
            → MeetsSaid (passed_of result) place heard self.old self.new }
        ensures heeds { Stays self.old.devices self.new.devices result (passed_if (length self.old.lines.items) host) }
    {
        if usize::from(host) >= self.lines.len() {
            return BodyOutcome::Failed;
        }
        if self.link.loses(is_beat(frame)) {
            return BodyOutcome::Met;
        }
        let _ = places::post(&mut self.lines, alloc, host, frame);
        BodyOutcome::Met
    }

    // A released byte arrives at its terminal, and the host is told how many were accepted.
    #[tactic(auto, using(crate::proofs::Acting::byte_met))]
    fn meet_byte(
        &mut self,
        alloc: Global,
        place: u8,
        port: u8,
        number: u64,
        byte: u8,
        room: bool,
    ) -> BodyOutcome
        ensures meets { MeetsSaid (passed_of result) place (Transfers (of_transfer.Byte port number byte)) self.old self.new }
        ensures heeds { (self.new.devices ≡ record self.old.devices { terminals = arrived_after self.old.devices.terminals port number room })
            × (result ≡ shown_if (is_accepted self.old.devices.terminals port number room) port byte) }
    {
        let shown = self.devices.arrive(port, number, byte, room);
        let count = self.devices.accepted(port);
        let answer = Frame::Transfer(Transfer::Accepted { port, count });
        let _ = places::post(&mut self.lines, alloc, place, &answer);
        match shown {
            Some(byte) => BodyOutcome::Shown { port, byte },
            None => BodyOutcome::Met,
        }
    }

    // A released write arrives at the disk.
    #[tactic(auto, using(crate::proofs::Acting::written_met, crate::proofs::Acting::unwritten_met))]
    fn meet_write(&mut self, alloc: Global, place: u8, write: &SectorWrite) -> BodyOutcome
        ensures meets { MeetsSaid (passed_of result) place (Transfers (of_transfer.Write write.now)) self.old self.new }
        ensures heeds { Writes write.now self.old.devices self.new.devices result }
    {
        match self.devices.put(write) {
            Ok(()) => {
                let answer = Frame::Transfer(Transfer::Written(write.number));
                let _ = places::post(&mut self.lines, alloc, place, &answer);
                BodyOutcome::Written
            }
            Err(_) => {
                let answer = Frame::Transfer(Transfer::Failed(write.number));
                let _ = places::post(&mut self.lines, alloc, place, &answer);
                BodyOutcome::Unwritten
            }
        }
    }

    // A sector is read.
    #[tactic(auto, using(crate::proofs::Acting::sector_met, crate::proofs::Acting::unread_met))]
    fn meet_get(&mut self, alloc: Global, place: u8, address: SectorAddress) -> BodyOutcome
        ensures meets { MeetsSaid (passed_of result) place (Transfers (of_transfer.Get address)) self.old self.new }
        ensures heeds { HeedsTransfer [] (of_transfer.Get address) self.old.devices self.new.devices result }
    {
        let Ok(read) = self.devices.read(address) else {
            return BodyOutcome::Met;
        };
        let answer = Frame::Transfer(Transfer::Sector(read));
        let _ = places::post(&mut self.lines, alloc, place, &answer);
        BodyOutcome::Read(address)
    }

    // The arbiter is asked, in the name of the host that is at the place.
    #[tactic(auto, using(crate::proofs::Acting::won_met, crate::proofs::Acting::lost_met, crate::proofs::Acting::forgot_met, crate::proofs::Acting::still_met))]
    fn meet_suspect(&mut self, alloc: Global, place: u8, generation: u32) -> BodyOutcome
        ensures meets { MeetsSaid (passed_of result) place (Tells (of_notice.Suspect generation)) self.old self.new }
        ensures heeds { Asked (number_at self.old.lines.items place) generation self.old.devices self.new.devices result }
    {
        let Some(host) = places::number_at(&self.lines, place) else {
            return BodyOutcome::Met;
        };
        match self.devices.test_and_set(generation, host) {
            Ok(_) => {
                let answer = Frame::Notice(Notice::Won(generation));
                let _ = places::post(&mut self.lines, alloc, place, &answer);
                BodyOutcome::Won(generation)
            }
            Err(Fault::Lost) => {
                let answer = Frame::Notice(Notice::Lost(generation));
                let _ = places::post(&mut self.lines, alloc, place, &answer);
                BodyOutcome::Lost(generation)
            }
            Err(_) => BodyOutcome::Met,
        }
    }

    // Keys that are covered are told to the terminals, and the report is kept.
    #[tactic(auto, using(crate::proofs::Acting::report_met))]
    fn meet_report(&mut self, place: u8, report: &Report) -> BodyOutcome
        ensures meets { MeetsSaid (passed_of result) place (Tells (of_notice.Report report.now)) self.old self.new }
        ensures heeds { HeedsNotice 0 None (of_notice.Report report.now) self.old.devices self.new.devices result }
    {
        let [first, second] = report.covered;
        self.tell(0, first);
        self.tell(1, second);
        if !places::keep(&mut self.lines, place, report) {
            return BodyOutcome::Met;
        }
        BodyOutcome::Became(report.role)
    }

    // Tells a terminal how many of its keys are covered, unless none are.
    #[tactic(auto, using(crate::proofs::Acting::told_covered, crate::proofs::Acting::told_none))]
    fn tell(&mut self, port: u8, keys: u64)
        ensures called { CalledWith [] self.old.devices (covered_at port keys) [] self.new.devices }
        ensures told { self.new.devices
            ≡ record self.old.devices { terminals = told_unless self.old.devices.terminals port keys } }
        ensures lines { self.new.lines ≡ self.old.lines }
    {
        if keys > 0 {
            self.devices.tell(port, keys);
        }
    }

    // A spare is to join, which it may if it was given to that generation.
    #[tactic(auto, using(crate::proofs::Acting::passed_met, crate::proofs::Acting::still_met))]
    fn meet_join(
        &mut self,
        alloc: Global,
        place: u8,
        generation: u32,
        host: u8,
        drives: u8,
        count: u64,
    ) -> BodyOutcome
        ensures meets { MeetsSaid (passed_of result) place (Tells (of_notice.Join generation host drives count)) self.old self.new }
        ensures heeds { Stays self.old.devices self.new.devices result (passed_if (length self.old.lines.items) host) }
    {
        if usize::from(host) >= self.lines.len() {
            return BodyOutcome::Failed;
        }
        if !places::is_number(&self.lines, host, generation) {
            return BodyOutcome::Met;
        }
        let passed = Notice::Join {
            generation,
            host: place,
            drives,
            count,
        };
        let _ = places::post(&mut self.lines, alloc, host, &Frame::Notice(passed));
        BodyOutcome::Met
    }
}

// Whether the screen of a port has room.
fn has_room(rooms: [bool; PORTS], port: u8) -> bool
    ensures { result ≡ room_of rooms port }
{
    let [first, second] = rooms;
    if port == 0 { first } else { second }
}

// Whether a frame is a packet without an entry, an acknowledgement or a part: it says only that its host is there.
fn is_beat(frame: &Frame<'_>) -> bool {
    match frame {
        Frame::Packet { bytes, .. } => bytes.is_empty(),
        _ => false,
    }
}
