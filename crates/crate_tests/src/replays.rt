//! A replayer whose guest lacks memory.
ghost use Rattle.std.specs.Prelude.{◌≡◌, ◌<◌, ◌∷◌, [], None};
ghost use Rattle.echo_guest.specs.Echo.{at_boot};
ghost use Rattle.log_channel.specs.Channel.{holding};
ghost use Rattle.log_entry.specs.Spelling.{IsEntry};
ghost use Rattle.log_entry.specs.declared.entry.Entry.TheVariants.{Mark, Rx};

use echo_guest::Echo;
use guest_lockstep::{Lockstep, ReplayEnd};
use i8080_words::{Fault, R};
use log_channel::{Packet, Receiver, packets_spell_one_way};
use log_entry::Entry;
use replayer::{Replayed, Replayer};
use std::alloc::Global;
use std::process::Abort;

// No test holds this many entries.
const ENTRIES: u64 = 1000;

const KEY: Entry = Entry::Rx {
    count: 0,
    port: 0,
    byte: 0x48,
};

const MARK: Entry = Entry::Mark { count: 2 };

// The entry arrives at the receiver in its packet.
fn hold(rt: &impl Abort, alloc: Global, receiver: &mut Receiver, generation: u32, entry: Entry)
    requires first { 0 < generation }
    requires generation { receiver.old.generation ≡ generation }
    requires entry { IsEntry entry }
    ensures { receiver.new ≡ holding receiver.old entry }
{
    let index = receiver.held();
    assert!(rt; index < ENTRIES);
    let packet = Packet::Log {
        generation,
        index,
        entry,
    };
    let mut bytes = Vec::new(alloc);
    match packet.write(&mut bytes) {
        Ok(()) => {}
        Err(_) => panic!(rt; "no memory for the packet"),
    }
    packets_spell_one_way();
    match receiver.on_log(&bytes) {
        Ok(true) => {}
        _ => panic!(rt; "the entry is not held"),
    }
}

// A guest that has room for this many operations begins to repeat.
fn repeating(room: u64) -> Replayer<Echo>
    ensures board { result.board ≡ at_boot }
    ensures fetched { result.fetched ≡ None }
{
    Replayer::new(Echo::new(room))
}

// A key at count 0 and the mark of its operation are held.
fn held(rt: &impl Abort, alloc: Global) -> Receiver
    ensures { result.entries ≡ Rx 0 0 0x48 ∷ Mark 2 ∷ [] }
{
    let mut receiver = Receiver::new(alloc, 1);
    hold(rt, alloc, &mut receiver, 1, KEY);
    hold(rt, alloc, &mut receiver, 1, MARK);
    receiver
}

// A replay of a guest without room for its operation goes on where it stopped.
#[test]
fn a_replay_out_of_memory_goes_on_where_it_stopped(rt: HostRuntime) {
    let mut receiver = held(&rt, rt.alloc());
    let mut replayer = repeating(0);
    let moved = replayer.replay(&mut receiver, 9);
    let stopped = Replayed {
        moves: 2,
        why: ReplayEnd::Memory,
    };
    assert!(rt; moved == Ok(stopped) && replayer.board().count() == 1);
    let again = replayer.replay(&mut receiver, 9);
    assert!(rt; again == Err(Fault::OutOfMemory) && replayer.board().count() == 1);
}
