//! A guest that follows entries, those of its own run and others.
use echo_guest::Echo;
use guest_lockstep::Lockstep;
use i8080_words::{Fault, R};
use log_entry::Entry;
use replayer::{Followed, follow};

const KEY: Entry = Entry::Rx {
    count: 0,
    port: 0,
    byte: 0x48,
};

const MARK: Entry = Entry::Mark { count: 2 };

const NOWHERE: Entry = Entry::Rx {
    count: 0,
    port: 2,
    byte: 0x48,
};

// An entry, how many turns there are, and how it is followed.
type FollowedStep = (Entry, u64, R<Followed>);

// For how many operations a guest has room, what it follows, and how many steps it has made then.
static RUNS: [(u64, &[FollowedStep], u64); 4] = [
    // Its own entries.
    (
        1,
        &[
            (KEY, 0, Ok(Followed::Done)),
            (MARK, 0, Ok(Followed::Stepped(0))),
            (MARK, 1, Ok(Followed::Stepped(1))),
            (MARK, 9, Ok(Followed::Done)),
            (Entry::Sent { count: 2, port: 0 }, 9, Ok(Followed::Done)),
        ],
        2,
    ),
    // Entries of another run; its operation is given at count 2.
    (
        1,
        &[
            (Entry::Mark { count: 0 }, 9, Ok(Followed::Differs)),
            (NOWHERE, 9, Ok(Followed::Differs)),
            (Entry::Sent { count: 0, port: 0 }, 9, Ok(Followed::Differs)),
            (KEY, 9, Ok(Followed::Done)),
            (Entry::Mark { count: 3 }, 9, Ok(Followed::Differs)),
            (KEY, 9, Ok(Followed::Differs)),
        ],
        2,
    ),
    // It lacks memory.
    (
        0,
        &[
            (KEY, 9, Ok(Followed::Done)),
            (MARK, 9, Ok(Followed::Stepped(1))),
            (MARK, 9, Err(Fault::OutOfMemory)),
        ],
        1,
    ),
    // It waits.
    (
        1,
        &[
            (KEY, 9, Ok(Followed::Done)),
            (MARK, 9, Ok(Followed::Done)),
            (Entry::Mark { count: 9 }, 9, Err(Fault::Idle)),
        ],
        2,
    ),
];

#[test]
fn a_guest_follows_entries(rt: HostRuntime) {
    for (room, steps, count) in &RUNS {
        let mut guest = Echo::new(*room);
        for (entry, turns, followed) in *steps {
            assert!(rt; follow(&mut guest, entry, *turns) == *followed);
        }
        assert!(rt; guest.count() == *count);
    }
}
