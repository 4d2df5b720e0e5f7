//! Words of answers that no script gets: of numbers that are spent, of want of memory, and of an empty packet.
use guest_lockstep::{ReplayEnd, StopReason};
use i8080_words::Fault;
use pair_events::{Answer, Reply};
use std::test::Fail;

static ANSWERS: [(Answer<'static>, &str); 4] = [
    (
        Answer::Reply(Reply::Ran {
            steps: 6,
            count: 18446744073709551615,
            why: StopReason::Refused(Fault::Spent),
        }),
        "ran 6 count 18446744073709551615 spent",
    ),
    (
        Answer::Reply(Reply::Ran {
            steps: 6,
            count: 20,
            why: StopReason::Refused(Fault::OutOfMemory),
        }),
        "ran 6 count 20 memory",
    ),
    (
        Answer::Reply(Reply::Moved {
            moves: 7,
            why: ReplayEnd::Memory,
        }),
        "moved 7",
    ),
    (Answer::Packet(&[]), ""),
];

#[test]
fn answers_show_as_words(rt: HostRuntime) -> Result<(), Fail> {
    for (answer, text) in &ANSWERS {
        let said = format!(in rt.alloc(); "{answer}")?;
        assert!(rt; said.as_str() == *text);
    }
    Ok(())
}
