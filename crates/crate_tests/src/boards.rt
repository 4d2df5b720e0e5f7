//! A board repeats what another one recorded, with closures of different types.
ghost use Rattle.std.specs.Prelude.{◌≡◌, [], IsTrue, List, None, OnOk, Some};
ghost use Rattle.event_callbacks.specs.Completions.{is_due, done_of};
ghost use Rattle.event_callbacks.specs.Keeping.{Keeps, kind_of};
ghost use Rattle.event_callbacks.specs.declared.devices.TheConstants.{SECTOR, SENT, WRITTEN};
ghost use Rattle.guest_board.specs.Guest.{guest_at_boot};
ghost use Rattle.guest_board.specs.Inputs.{some_altair};
ghost use Rattle.guest_lockstep.specs.Lockstep.{HasRoom, IsInput};
ghost use Rattle.guest_lockstep.specs.Machine.{Move};
ghost use Rattle.guest_lockstep.specs.declared.reads.Reads.TheVariants.{Logged};
ghost use Rattle.log_channel.specs.Laws.{HoldsFirst};
ghost use Rattle.log_channel.specs.Packet.{packet_at};
ghost use Rattle.log_entry.specs.Standing.{IsOnTrace};
ghost use Rattle.recorder.specs.Laws.{Records};

use disk_dcdd::{SECTOR_BYTES, SectorAddress};
use event_callbacks::{Callbacks, Completes, Devices, Done, OpId, Operation, plain_completions};
use guest_board::{Board, Setup};
use guest_lockstep::{Input, Lockstep, Reads, ReplayEnd, StopReason, Stopped};
use guest_memory::BYTES;
use i8080_words::{Fault, Processor, R};
use log_buffer::LogBuffer;
use log_channel::{Packet, Receiver, Sender};
use recorder::Recorder;
use replayer::{Replayed, Replayer};
use std::alloc::Global;
use std::process::Abort;

// No test offers this many keys.
const KEYS: u64 = 1000;

// Sends back each key of port 0 up to the first I; then loads the head of drive 0, waits for a sector, fills it with E5,
// and halts.
const ECHO_AND_WRITE: [u8; 57] = [
    0x3e, 0x03, 0xd3, 0x10, 0x3e, 0x15, 0xd3, 0x10, 0xdb, 0x10, 0x0f, 0xd2, 0x08, 0x00, 0xdb, 0x11,
    0xd3, 0x11, 0xfe, 0x49, 0xc2, 0x08, 0x00, 0x06, 0x89, 0xaf, 0xd3, 0x08, 0x3e, 0x04, 0xd3, 0x09,
    0xdb, 0x09, 0x0f, 0xda, 0x20, 0x00, 0x3e, 0x80, 0xd3, 0x09, 0xdb, 0x08, 0x0f, 0xda, 0x2a, 0x00,
    0x3e, 0xe5, 0xd3, 0x0a, 0x05, 0xc2, 0x2a, 0x00, 0x76,
];

// Sector 5 of track 0 on drive 0.
const PLACE: SectorAddress = SectorAddress {
    drive: 0,
    track: 0,
    sector: 5,
};

// The second key, sent back.
const SECOND: Operation = Operation::Byte {
    port: 0,
    number: 2,
    byte: 0x49,
};

// It comes under the head, before it was ever written.
const FIRST_READ: Input = Input::Sector {
    drive: 0,
    sector: 5,
    number: 0,
    bytes: [0x11; SECTOR_BYTES],
};

// What is done to the guest that is recorded.
enum GuestAct {
    // It runs this many turns, makes this many steps, and stops for this reason.
    Run(u64, u64, StopReason),
    // It takes an input, which is logged under this index.
    Take(Input, u64),
}

// Two keys are sent back, and the byte of the first is accepted. A sector comes under the head, and is written.
static ACTS: [GuestAct; 12] = [
    GuestAct::Run(7, 7, StopReason::Turns),
    GuestAct::Take(Input::Rx(0, 0x48), 0),
    GuestAct::Run(99, 5, StopReason::Operation(OpId::Byte(0, 1))),
    GuestAct::Run(3, 3, StopReason::Turns),
    GuestAct::Take(Input::Sent(0), 2),
    GuestAct::Take(Input::Rx(0, 0x49), 3),
    GuestAct::Run(99, 7, StopReason::Operation(OpId::Byte(0, 2))),
    GuestAct::Run(10, 10, StopReason::Turns),
    GuestAct::Take(FIRST_READ, 5),
    GuestAct::Run(9999, 962, StopReason::Operation(OpId::Write(1))),
    GuestAct::Run(1, 1, StopReason::Turns),
    GuestAct::Take(Input::Written(1), 7),
];

// A memory with the program at address 0.
fn program(alloc: Global) -> R<Vec<u8>> {
    let mut memory = Vec::from_slice(alloc, &ECHO_AND_WRITE)?;
    memory.resize(BYTES, 0x00)?;
    Ok(memory)
}

// A guest with one drive, and the program in its memory.
fn setup(alloc: Global) -> R<Setup> {
    let memory = program(alloc)?;
    if memory.len() != BYTES {
        return Err(Fault::Malformed);
    }
    Ok(Setup {
        memory,
        drives: 1,
        levels: [7; 3],
        sense: 0xff,
        reads: Reads::Logged,
    })
}

// Whether the input is for a port and a sector that exist, and there is room for one more key.
fn may_offer<B: Lockstep>(board: &B, input: &Input) -> bool
    ensures input { IsTrue result → IsInput input.now }
    ensures room { IsTrue result → HasRoom B.machine (B.state board.now) input.now }
{
    match input {
        Input::Rx(port, _) => *port < 2 && board.keys(*port) < KEYS,
        Input::Sent(port) => *port < 2,
        Input::Sector { drive, sector, .. } => *drive < 4 && *sector < 32,
        Input::Written(_) => true,
    }
}

// The recorder runs this many turns, and stops like this.
fn advance<B: Lockstep>(
    rt: &impl Abort,
    recorder: &mut Recorder<B, LogBuffer>,
    turns: u64,
    stopped: Stopped,
)
    requires { recorder.old.reads ≡ Logged }
    ensures reads { recorder.new.reads ≡ Logged }
    ensures records { (moves : List Move) × Records B.machine Logged (B.state recorder.old.board) recorder.old.log
        moves (B.state recorder.new.board) recorder.new.log }
{
    match recorder.advance(turns) {
        Ok(advanced) => assert!(rt; advanced == stopped),
        Err(_) => panic!(rt; "no step is made"),
    }
}

// The recorder takes an input, and logs it under this index.
fn offer<B: Lockstep>(
    rt: &impl Abort,
    recorder: &mut Recorder<B, LogBuffer>,
    input: Input,
    index: u64,
)
    requires reads { recorder.old.reads ≡ Logged }
    ensures reads { recorder.new.reads ≡ Logged }
    ensures records { (moves : List Move) × Records B.machine Logged (B.state recorder.old.board) recorder.old.log
        moves (B.state recorder.new.board) recorder.new.log }
{
    assert!(rt; may_offer(recorder.board(), &input));
    match recorder.offer(input) {
        Ok(logged) => assert!(rt; logged == index),
        Err(_) => panic!(rt; "the input is refused"),
    }
}

// Does this to the guest of a recorder.
fn make<B: Lockstep>(rt: &impl Abort, recorder: &mut Recorder<B, LogBuffer>, act: &GuestAct)
    requires { recorder.old.reads ≡ Logged }
    ensures reads { recorder.new.reads ≡ Logged }
    ensures records { (moves : List Move) × Records B.machine Logged (B.state recorder.old.board) recorder.old.log
        moves (B.state recorder.new.board) recorder.new.log }
{
    match act {
        GuestAct::Run(turns, steps, reason) => {
            let (steps, reason) = (*steps, *reason);
            advance(rt, recorder, *turns, Stopped { steps, reason });
        }
        GuestAct::Take(input, index) => offer(rt, recorder, *input, *index),
    }
}

// Does all of it.
fn make_all<B: Lockstep>(rt: &impl Abort, recorder: &mut Recorder<B, LogBuffer>)
    requires { recorder.old.reads ≡ Logged }
    ensures records { (moves : List Move) × Records B.machine Logged (B.state recorder.old.board) recorder.old.log
        moves (B.state recorder.new.board) recorder.new.log }
{
    for act in &ACTS {
        make(rt, recorder, act);
    }
}

// The packet of an entry arrives at the receiver, as the entry that is next.
fn deliver(
    rt: &(impl Abort + AllocGlobal),
    log: &LogBuffer,
    index: u64,
    receiver: &mut Receiver,
) -> R<()>
    requires first { log.now.first ≡ 0 }
    requires generation { receiver.old.generation ≡ 1 }
    requires holds { HoldsFirst log.now.entries [] receiver.old }
    ensures generation { receiver.new.generation ≡ 1 }
    ensures holds { HoldsFirst log.now.entries [] receiver.new }
{
    let Some(entry) = log.get(index).copied() else {
        return Err(Fault::Unknown);
    };
    let bytes = Sender::new(1).packet(rt.alloc(), log, index)?;
    let packet = Packet::Log {
        generation: 1,
        index,
        entry,
    };
    expect_read(rt, &bytes, &packet);
    assert!(rt; receiver.on_log(&bytes) == Ok(true));
    Ok(())
}

// The bytes are read as this packet.
fn expect_read(rt: &impl Abort, bytes: &[u8], packet: &Packet)
    ensures { packet_at bytes.now ≡ Some packet.now }
{
    match Packet::read(bytes) {
        Ok(read) => assert!(rt; read == *packet),
        Err(_) => panic!(rt; "the bytes are no packet"),
    }
}

// All that is logged arrives at the receiver in its packets.
fn deliver_all(rt: &(impl Abort + AllocGlobal), log: &LogBuffer, receiver: &mut Receiver) -> R<()>
    requires first { log.now.first ≡ 0 }
    requires generation { receiver.old.generation ≡ 1 }
    requires holds { HoldsFirst log.now.entries [] receiver.old }
    ensures holds { HoldsFirst log.now.entries [] receiver.new }
{
    for index in 0..log.next() {
        deliver(rt, log, index, receiver)?;
    }
    Ok(())
}

// All is done to the guest of a recorder, and its log arrives at the receiver.
fn record_all<T: Completes, S: Completes, W: Completes>(
    rt: &(impl Abort + AllocGlobal),
    recorder: &mut Recorder<Board<T, S, W>, LogBuffer>,
    receiver: &mut Receiver,
) -> R<GuestView>
    requires reads { recorder.old.reads ≡ Logged }
    requires log { recorder.old.log ≡ record { first = 0; entries = [] } }
    requires receiver { receiver.old ≡ record { generation = 1; held = 0; entries = [] } }
    ensures { OnOk result (IsOnTrace some_altair recorder.old.board.guest receiver.new.entries None) }
{
    make_all(rt, recorder);
    deliver_all(rt, recorder.log(), receiver)?;
    assert!(rt; receiver.held() == 8 && recorder.log().next() == 8);
    show(rt.alloc(), recorder.board())
}

// A board with these closures is recorded, and its log arrives at the receiver.
fn record_on<T: Completes + Drop, S: Completes + Drop, W: Completes + Drop>(
    rt: &(impl Abort + AllocGlobal),
    setup: &Setup,
    receiver: &mut Receiver,
    sent: T,
    sector: S,
    written: W,
) -> R<GuestView>
    requires sent { Keeps (T.may sent) (T.gives sent) SENT }
    requires sector { Keeps (S.may sector) (S.gives sector) SECTOR }
    requires written { Keeps (W.may written) (W.gives written) WRITTEN }
    requires receiver { receiver.old ≡ record { generation = 1; held = 0; entries = [] } }
    ensures { OnOk result (IsOnTrace some_altair (guest_at_boot setup.now) receiver.new.entries None) }
{
    let log = LogBuffer::new(rt.alloc(), 0)?;
    let board = Board::booted(rt.alloc(), setup, Callbacks::of(sent, sector, written))?;
    record_all(rt, &mut Recorder::new(board, log, Reads::Logged), receiver)
}

// A replayer repeats all that is held, a few moves first.
fn replay_all<T: Completes, S: Completes, W: Completes>(
    rt: &(impl Abort + AllocGlobal),
    replayer: &mut Replayer<Board<T, S, W>>,
    receiver: &mut Receiver,
) -> R<GuestView>
    requires { IsOnTrace some_altair replayer.old.board.guest receiver.old.entries replayer.old.fetched }
{
    let few = Replayed {
        moves: 18,
        why: ReplayEnd::Turns,
    };
    assert!(rt; replayer.replay(receiver, 18) == Ok(few));
    assert!(rt; replayer.board().count() == 15);
    let rest = Replayed {
        moves: 985,
        why: ReplayEnd::End,
    };
    assert!(rt; replayer.replay(receiver, 9999) == Ok(rest));
    show(rt.alloc(), replayer.board())
}

// A board with these closures repeats all that is held.
fn replay_on<T: Completes + Drop, S: Completes + Drop, W: Completes + Drop>(
    rt: &(impl Abort + AllocGlobal),
    setup: &Setup,
    receiver: &mut Receiver,
    sent: T,
    sector: S,
    written: W,
) -> R<GuestView>
    requires sent { Keeps (T.may sent) (T.gives sent) SENT }
    requires sector { Keeps (S.may sector) (S.gives sector) SECTOR }
    requires written { Keeps (W.may written) (W.gives written) WRITTEN }
    requires trace { IsOnTrace some_altair (guest_at_boot setup.now) receiver.old.entries None }
{
    let board = Board::booted(rt.alloc(), setup, Callbacks::of(sent, sector, written))?;
    replay_all(rt, &mut Replayer::new(board), receiver)
}

// What a board shows: its processor, its memory, its count, the keys that were taken, how many bytes of each port are
// unaccepted, the status of its drives, the drive and track of the head, the last completed write of the sector, and which
// of the given operations are outstanding.
#[derive(Drop)]
struct GuestView {
    processor: Processor,
    memory: Vec<u8>,
    count: u64,
    keys: [u64; 2],
    unaccepted: [u8; 2],
    status: u8,
    place: Option<(u8, u8)>,
    done: u64,
    given: [Option<Operation>; 3],
}

// The bytes of a board's memory.
fn memory_of<T: Completes, S: Completes, W: Completes>(
    alloc: Global,
    board: &Board<T, S, W>,
) -> R<Vec<u8>> {
    let mut memory = Vec::with_capacity(alloc, BYTES)?;
    for page in 0..=255 {
        memory.extend_from_slice(board.page(page))?;
    }
    Ok(memory)
}

fn show<T: Completes, S: Completes, W: Completes>(
    alloc: Global,
    board: &Board<T, S, W>,
) -> R<GuestView> {
    let memory = memory_of(alloc, board)?;
    Ok(GuestView {
        processor: *board.processor(),
        memory,
        count: board.count(),
        keys: [board.keys(0), board.keys(1)],
        unaccepted: [board.port(0).unaccepted(), board.port(1).unaccepted()],
        status: board.disk().status(),
        place: board.place(),
        done: board.done(PLACE),
        given: [
            board.outstanding(OpId::Byte(0, 1)).copied(),
            board.outstanding(OpId::Byte(0, 2)).copied(),
            board.outstanding(OpId::Write(1)).copied(),
        ],
    })
}

// It ends like this: after this many steps, two keys, an accepted byte, an unaccepted one, and a write that is done.
fn expect_end(rt: &impl Abort, shown: &GuestView) {
    assert!(rt; shown.count == 995);
    assert!(rt; shown.keys == [2, 0]);
    assert!(rt; shown.unaccepted == [1, 0]);
    assert!(rt; shown.place == Some((0, 0)));
    assert!(rt; shown.done == 1);
    assert!(rt; shown.given == [None, Some(SECOND), None]);
}

// Both show the same.
fn expect_alike(rt: &impl Abort, recorded: &GuestView, replayed: &GuestView) {
    expect_end(rt, recorded);
    expect_end(rt, replayed);
    assert!(rt; recorded.processor == replayed.processor);
    assert!(rt; recorded.memory == replayed.memory);
    assert!(rt; recorded.status == replayed.status);
}

// Completes on a copy of the devices.
fn sent_on_a_copy(devices: Devices, done: Done) -> Devices
    requires kind { kind_of done ≡ SENT }
    requires due { IsTrue (is_due devices done) }
    ensures { result ≡ done_of devices done }
{
    let Done::Sent(port) = done else {
        unreachable!()
    };
    let mut after = devices.copy();
    let accepting = &mut after.ports[port as usize];
    accepting.sent().unwrap();
    after
}

// Takes the devices apart, and puts them together again.
fn written_apart(devices: Devices, done: Done) -> Devices
    requires kind { kind_of done ≡ WRITTEN }
    requires due { IsTrue (is_due devices done) }
    ensures { result ≡ done_of devices done }
{
    let Devices { ports, mut disk } = devices;
    match done {
        Done::Written(number) => disk.written(number).unwrap(),
        _ => unreachable!(),
    }
    Devices { ports, disk }
}

#[test]
fn a_board_repeats_what_a_board_with_other_closures_recorded(rt: HostRuntime) -> R<()> {
    let setup = setup(rt.alloc())?;
    let mut receiver = Receiver::new(rt.alloc(), 1);
    let recorded = record_on(
        &rt,
        &setup,
        &mut receiver,
        plain_completions::sent,
        plain_completions::sector,
        plain_completions::written,
    )?;
    let name = 3u8;
    let replayed = replay_on(
        &rt,
        &setup,
        &mut receiver,
        sent_on_a_copy,
        move |devices: Devices, done: Done| -> Devices
            requires kind { kind_of done ≡ SECTOR }
            requires due { IsTrue (is_due devices done) }
            ensures { result ≡ done_of devices done }
        {
            let _name = name;
            plain_completions::sector(devices, done)
        },
        written_apart,
    )?;
    expect_alike(&rt, &recorded, &replayed);
    Ok(())
}
