//! A recorder, and where its guest stops.
ghost use Rattle.guest_lockstep.specs.Lockstep.{IsInput};

use echo_guest::Echo;
use event_callbacks::OpId;
use guest_lockstep::{Input, Lockstep, Reads, StopReason, Stopped};
use i8080_words::{Fault, R};
use log_buffer::LogBuffer;
use log_entry::Entry;
use recorder::Recorder;
use std::process::Abort;

// No test offers this many keys.
const KEYS: u64 = 1000;

// What a recorder is asked, and its answer: to advance this many turns, so many steps and why they stopped; to take a key of port 0
// or 1, or the acceptance of a byte, the index of its entry.
enum Question {
    Advance(u64, u64, StopReason),
    Stands(Fault),
    Key(R<u64>),
    OtherKey(R<u64>),
    Sent(R<u64>),
}

// For how many operations a guest has room, what its recorder is asked, and two entries at their indexes; the first is entry 7.
static RUNS: [(u64, &[Question], [(u64, Entry); 2]); 2] = [
    // It stops after each operation, and logs its mark.
    (
        2,
        &[
            Question::Advance(3, 3, StopReason::Turns),
            Question::Sent(Err(Fault::NotDue)),
            Question::Key(Ok(7)),
            Question::Advance(9, 2, StopReason::Operation(OpId::Byte(0, 1))),
            Question::Stands(Fault::Idle),
            Question::OtherKey(Ok(9)),
            Question::Advance(9, 1, StopReason::Refused(Fault::Idle)),
            Question::Sent(Ok(10)),
            Question::Advance(1, 1, StopReason::Operation(OpId::Byte(0, 2))),
        ],
        [
            (8, Entry::Mark { count: 5 }),
            (10, Entry::Sent { count: 6, port: 0 }),
        ],
    ),
    // It lacks memory: that is refused if no step is made.
    (
        0,
        &[
            Question::Key(Ok(7)),
            Question::OtherKey(Ok(8)),
            Question::Advance(9, 1, StopReason::Refused(Fault::OutOfMemory)),
            Question::Stands(Fault::OutOfMemory),
        ],
        [(7, KEY), (8, OTHER_KEY)],
    ),
];

const KEY: Entry = Entry::Rx {
    count: 0,
    port: 0,
    byte: 0x48,
};

const OTHER_KEY: Entry = Entry::Rx {
    count: 0,
    port: 1,
    byte: 0x48,
};

fn offer(rt: &impl Abort, recorder: &mut Recorder<Echo, LogBuffer>, input: Input, wanted: R<u64>)
    requires { IsInput input }
{
    assert!(rt; recorder.board().keys(0) < KEYS && recorder.board().keys(1) < KEYS);
    assert!(rt; recorder.offer(input) == wanted);
}

fn advance(
    rt: &impl Abort,
    recorder: &mut Recorder<Echo, LogBuffer>,
    turns: u64,
    wanted: R<Stopped>,
) {
    assert!(rt; recorder.advance(turns) == wanted);
}

fn ask(rt: &impl Abort, recorder: &mut Recorder<Echo, LogBuffer>, asked: &Question) {
    match asked {
        Question::Advance(turns, steps, reason) => {
            let (steps, reason) = (*steps, *reason);
            advance(rt, recorder, *turns, Ok(Stopped { steps, reason }));
        }
        Question::Stands(fault) => advance(rt, recorder, 9, Err(*fault)),
        Question::Key(index) => offer(rt, recorder, Input::Rx(0, 0x48), *index),
        Question::OtherKey(index) => offer(rt, recorder, Input::Rx(1, 0x48), *index),
        Question::Sent(index) => offer(rt, recorder, Input::Sent(0), *index),
    }
}

#[test]
fn a_recorder_logs_what_its_guest_takes_and_gives(rt: HostRuntime) -> R<()> {
    for (room, asked, entries) in &RUNS {
        let log = LogBuffer::new(rt.alloc(), 7)?;
        let mut recorder = Recorder::new(Echo::new(*room), log, Reads::Shared);
        for call in *asked {
            ask(&rt, &mut recorder, call);
        }
        for (index, entry) in entries {
            assert!(rt; recorder.log().get(*index) == Some(entry));
        }
    }
    Ok(())
}
