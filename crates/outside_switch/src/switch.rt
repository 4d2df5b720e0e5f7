//! The devices, the lines to all hosts, and the calls that a loop makes of them.
ghost use Rattle.std.specs.Prelude.{◌≡◌, ◌⊎◌, ℕ, [], List, IfOk, OnErr, OnOk, Some, IfErr, IsOkUnless, false, if◌then◌else◌, nat_lt, length, slice_get};
ghost use Rattle.i8080_words.specs.declared.refusal.Fault.TheVariants.{OutOfMemory, Unknown};
ghost use Rattle.outside_switch.specs.declared.heard.BodyOutcome.TheVariants as of_heard;
ghost use Rattle.outside_switch.specs.declared.line.HostLine.{HostLine};
ghost use Rattle.host_frames.specs.Frames.{IsBodyOf, Tells, Transfers, said_by};
ghost use Rattle.pair_protocol.specs.Lawful.{Among};
ghost use Rattle.host_frames.specs.declared.frame.Notice.TheVariants as notice;
ghost use Rattle.host_frames.specs.declared.frame.Transfer.TheVariants as of_transfer;
ghost use Rattle.outside_switch.specs.Held.{at_boot};
ghost use Rattle.outside_switch.specs.Causes.{MayCut, came_at};
ghost use Rattle.outside_switch.specs.DeviceCalls.{key_answer, typed_after, typed_answer};
ghost use Rattle.outside_switch.specs.Goes.{Adds, BeginsSo, BegunSo, GoesWith, HearsBody, HearsFrame, HearsNext, Lines, NextSo, SendsKey, first_number};
ghost use Rattle.outside_switch.specs.Heeds.{HasRoomFor, HeedsAt, HeedsBody, OthersStay, dropped_as, open_in};
ghost use Rattle.outside_switch.specs.Lines.{IsClosed, IsNamed, Posts, PostsAll};
ghost use Rattle.outside_switch.specs.Meets.{seen};
ghost use Rattle.outside_switch.specs.Passing.{passed_of, typed_of};

use crate::devices::OutsideDevices;
use crate::heard::BodyOutcome;
use crate::line::HostLine;
use crate::link::{Link, LinkState};
use crate::places::{self, Audience};
use crate::sight::{Inspection, Sight};
use event_callbacks::PORTS;
use host_frames::{Frame, Notice, Transfer, frame_of};
use i8080_words::{Fault, R};
use rtrb::{Consumer, Producer};
use shared_disk::{SectorStore, SharedDisk};
use std::alloc::Global;
use std::sync::Arc;
use std::thread::Parker;

/// What is outside of the hosts: the devices, and a line to the host at each place. No call waits: a frame that finds no room in the
/// ring of its line is lost, and so is one for which there is no memory.
#[derive(Drop)]
pub struct Switch<D: SectorStore> {
    pub(crate) devices: OutsideDevices<D>,
    pub(crate) lines: Vec<HostLine>,
    pub(crate) link: Link,
    // What a host has shown of its machine that was not handed on yet.
    pub(crate) sight: Option<Sight>,
}

impl<D: SectorStore> Switch<D> {
    /// Devices at which nothing has happened yet, and no place. The hosts of generation 1 are counted already.
    pub fn new(alloc: Global, store: D) -> R<Switch<D>>
        ensures ok { IfOk result (λ switch. seen switch
            ≡ record { devices = record (at_boot (D.records store) (D.may_fail store)) { hosts = 2 }; lines = [] }) }
        ensures only_memory { IsOkUnless result OutOfMemory }
    {
        let mut devices = OutsideDevices::new(alloc, store)?;
        devices.admit(0)?;
        devices.admit(1)?;
        Ok(Switch {
            devices,
            lines: Vec::new(alloc),
            link: Link::new(),
            sight: None,
        })
    }

    /// One place more, and its line. The hosts at the first two places are those of generation 1, and every other one is a spare.
    /// `Unknown` if a byte names no more places.
    pub fn add(
        &mut self,
        from: Consumer<Vec<u8>>,
        to: Producer<Vec<u8>>,
        wake: Arc<Parker>,
    ) -> R<()>
        ensures ok { OnOk result ((line : HostLine) × (line.from ≡ from) × (line.to ≡ Some to) × Adds line (seen self.old) (seen self.new)) }
        ensures err { OnErr result (seen self.new ≡ seen self.old) }
        ensures why { IfErr result (λ fault. fault ≡ (if nat_lt (length self.old.lines.items) 256 then OutOfMemory else Unknown)) }
    {
        let place = self.lines.len();
        if place >= 256 {
            return Err(Fault::Unknown);
        }
        self.lines
            .push(HostLine::new(from, to, wake, first_number(place)))?;
        Ok(())
    }

    /// The lines, by the places of their hosts.
    pub fn lines(&self) -> &[HostLine]
        ensures { result.now ≡ self.now.lines.items }
    {
        &self.lines
    }

    /// From now on this becomes of packets between hosts.
    pub fn set_fate(&mut self, fate: LinkState)
        ensures fate { self.new.link.fate ≡ fate }
        ensures same { seen self.new ≡ seen self.old }
    {
        self.link.fate = fate;
    }

    /// Takes the next body of the host at a place, and does what it asks for. The screen of each port may have room. A host that has
    /// failed, or whose stream has ended, is cut off, and what comes from one that was cut off is dropped.
    pub fn hear(&mut self, alloc: Global, place: u8, rooms: [bool; PORTS]) -> BodyOutcome
        ensures goes { GoesWith (passed_of result) (seen self.old) (seen self.new) }
        ensures hears { HearsNext place rooms (seen self.old) (seen self.new) result }
        ensures cut { (result ≡ of_heard.Failed) ⊎ (result ≡ of_heard.Ended) → open_in (slice_get self.new.lines.items place) ≡ false }
        ensures room { HasRoomFor rooms result }
    {
        match self.next(place) {
            Some(body) => self.hear_body(alloc, place, &body, rooms),
            None => BodyOutcome::Nothing,
        }
    }

    // Does what a body asks for that came from the host at a place. An empty one says that the stream from it has ended.
    fn hear_body(
        &mut self,
        alloc: Global,
        place: u8,
        body: &[u8],
        rooms: [bool; PORTS],
    ) -> BodyOutcome
        requires { Among body.now (came_at self.old.lines.items place) }
        ensures goes { HearsBody (passed_of result) place body.now (seen self.old) (seen self.new) }
        ensures heeds { HeedsBody place rooms body.now self.old.lines.items self.old.devices self.new.devices result }
        ensures cut { (result ≡ of_heard.Failed) ⊎ (result ≡ of_heard.Ended) → open_in (slice_get self.new.lines.items place) ≡ false }
    {
        if !places::is_open(&self.lines, place) {
            return dropped_as(body);
        }
        if body.is_empty() {
            self.gone(alloc, place);
            return BodyOutcome::Ended;
        }
        match frame_of(body) {
            Ok(frame) => self.hear_frame(alloc, place, frame, rooms),
            Err(_) => {
                self.gone(alloc, place);
                BodyOutcome::Failed
            }
        }
    }

    // The next body of the host at a place.
    fn next(&mut self, place: u8) -> Option<Vec<u8>>
        ensures { NextSo place result (seen self.old) (seen self.new) }
    {
        places::next(&mut self.lines, place)
    }

    // Meets a frame, and cuts off its host if it means nothing where it comes from.
    fn hear_frame(
        &mut self,
        alloc: Global,
        place: u8,
        frame: Frame<'_>,
        rooms: [bool; PORTS],
    ) -> BodyOutcome
        requires { (body : List ℕ) × Among body (came_at self.old.lines.items place) × IsBodyOf (said_by frame) body }
        ensures goes { HearsFrame (passed_of result) place (said_by frame.entry) (seen self.old) (seen self.new) }
        ensures heeds { HeedsAt place rooms (said_by frame.entry) self.old.lines.items self.old.devices self.new.devices result }
        ensures cut { (result ≡ of_heard.Failed) ⊎ (result ≡ of_heard.Ended) → open_in (slice_get self.new.lines.items place) ≡ false }
    {
        match self.meet(alloc, place, frame, rooms) {
            BodyOutcome::Failed => {
                self.gone(alloc, place);
                BodyOutcome::Failed
            }
            heard => heard,
        }
    }

    /// The host at a place is gone, for a cause: it is cut off, and all others are told.
    #[tactic(auto, using(crate::proofs::Acting::gone_met, crate::proofs::Going::acts, crate::proofs::Going::closes, crate::proofs::Going::then_with))]
    pub(crate) fn gone(&mut self, alloc: Global, place: u8)
        requires { MayCut self.old.lines.items place }
        ensures goes { GoesWith [] (seen self.old) (seen self.new) }
        ensures devices { self.new.devices ≡ self.old.devices }
        ensures cut { open_in (slice_get self.new.lines.items place) ≡ false }
        ensures others { OthersStay place self.old.lines.items self.new.lines.items }
    {
        self.close(place);
        self.post_all(alloc, &Frame::Notice(Notice::Gone(place)), Audience::All);
    }

    // The host at a place is cut off.
    fn close(&mut self, place: u8)
        ensures { Lines place IsClosed (seen self.old) (seen self.new) }
    {
        places::close(&mut self.lines, place);
    }

    // Sends a frame to the hosts at all places that it is for.
    fn post_all(&mut self, alloc: Global, frame: &Frame<'_>, to: Audience)
        ensures posts { PostsAll (said_by frame.now) self.old.lines.items self.new.lines.items }
        ensures devices { self.new.devices ≡ self.old.devices }
    {
        places::post_all(&mut self.lines, alloc, frame, to);
    }

    /// A key is typed at the terminal of a port. Returns its index. It is sent to nobody.
    #[tactic(auto, using(crate::proofs::Acting::typed_so, crate::proofs::Going::acts))]
    pub fn type_key(&mut self, port: u8, byte: u8) -> R<u64>
        ensures answer { result ≡ typed_answer self.old.devices.terminals port }
        ensures after { self.new.devices
            ≡ record self.old.devices { terminals = typed_after self.old.devices.terminals port byte } }
        ensures goes { GoesWith (typed_of result port byte) (seen self.old) (seen self.new) }
    {
        self.devices.type_key(port, byte)
    }

    /// Sends the key of an index to the host at a place. Returns false if it is not kept, or if the frame is lost.
    pub fn send_key(&mut self, alloc: Global, place: u8, port: u8, index: u64) -> bool
        ensures goes { GoesWith [] (seen self.old) (seen self.new) }
        ensures sends { SendsKey (key_answer self.old.devices.terminals port index) place port index result
            self.old.lines.items self.new.lines.items }
    {
        let Ok(byte) = self.devices.key(port, index) else {
            return false;
        };
        let frame = Frame::Transfer(Transfer::Key { port, index, byte });
        places::post(&mut self.lines, alloc, place, &frame)
    }

    /// Asks the host at a place what its machine has. Returns false if the frame is lost.
    pub fn inspect(&mut self, alloc: Global, place: u8, asked: Inspection) -> bool
        ensures goes { GoesWith [] (seen self.old) (seen self.new) }
        ensures posts { Posts place (Transfers (of_transfer.Inspect asked.number asked.page)) result
            self.old.lines.items self.new.lines.items }
    {
        let Inspection { number, page } = asked;
        let frame = Frame::Transfer(Transfer::Inspect { number, page });
        places::post(&mut self.lines, alloc, place, &frame)
    }

    /// Tells the host at a place, which is alone, to begin a generation with the spare at another one, whose host has the
    /// generation's number from now on. Returns false, and nobody has another number, if that place has no spare, if another place
    /// has the number, if a generation before it has no host yet, or if the frame is lost.
    pub fn send_begin(&mut self, alloc: Global, place: u8, generation: u32, spare: u8) -> bool
        ensures goes { GoesWith [] (seen self.old) (seen self.new) }
        ensures begun { BegunSo spare generation result (seen self.old) (seen self.new) }
    {
        if !places::may_be_given(&self.lines, generation, spare) {
            return false;
        }
        if !self.begin(alloc, place, generation, spare) {
            return false;
        }
        self.name(spare, generation);
        true
    }

    // Counts the host of a generation, and tells one that is alone to begin it.
    fn begin(&mut self, alloc: Global, place: u8, generation: u32, spare: u8) -> bool
        ensures { BeginsSo spare generation result (seen self.old) (seen self.new) }
    {
        let _ = self.devices.admit(generation);
        if !self.devices.may_begin(generation) {
            return false;
        }
        let notice = Notice::Begin {
            generation,
            host: spare,
        };
        places::post(&mut self.lines, alloc, place, &Frame::Notice(notice))
    }

    // The host at a place is this one of the law from now on.
    fn name(&mut self, place: u8, number: u32)
        ensures { Lines place (IsNamed number) (seen self.old) (seen self.new) }
    {
        places::name(&mut self.lines, place, number);
    }

    /// Tells all hosts that have reported that the switch is there, for the so manieth time, and that a guest makes at most so many
    /// steps a second; with 0 as many as it can.
    #[tactic(auto, using(crate::proofs::Acting::tick_met, crate::proofs::Going::acts))]
    pub fn tick(&mut self, alloc: Global, number: u64, speed: u64)
        ensures goes { GoesWith [] (seen self.old) (seen self.new) }
        ensures posts { PostsAll (Tells (notice.Tick number speed)) self.old.lines.items self.new.lines.items }
    {
        let tick = Frame::Notice(Notice::Tick { number, speed });
        self.post_all(alloc, &tick, Audience::Reported);
    }

    /// Tells all hosts to stop.
    #[tactic(auto, using(crate::proofs::Acting::stop_met, crate::proofs::Going::acts))]
    pub fn stop(&mut self, alloc: Global)
        ensures { GoesWith [] (seen self.old) (seen self.new) }
    {
        self.post_all(alloc, &Frame::Notice(Notice::Stop), Audience::All);
    }

    /// The disk, as it is now.
    pub fn into_disk(self) -> SharedDisk<D>
        ensures { D.records result ≡ self.devices.records }
    {
        let Switch { devices, .. } = self;
        devices.into_disk()
    }
}

// What becomes of a body of a host that was cut off before.
fn dropped_as(body: &[u8]) -> BodyOutcome
    ensures { result ≡ dropped_as body.now }
{
    if body.is_empty() {
        BodyOutcome::Nothing
    } else {
        BodyOutcome::Met
    }
}

// Which host of the law is at a place at first.
fn first_number(place: usize) -> Option<u32>
    ensures { result ≡ first_number place }
{
    match place {
        0 => Some(0),
        1 => Some(1),
        _ => None,
    }
}
