//! How many keys are in a part of the log.
ghost use Rattle.std.specs.Prelude.{◌≡◌, ◌+◌, ◌≤◌, ℕ, option_copied, slice_index};
ghost use Rattle.i8080_words.specs.declared.limits.TheConstants.{GREATEST_NUMBER};
ghost use Rattle.log_buffer.specs.Log.{next_of};
ghost use Rattle.output_rule.specs.Keys as table;
ghost use Rattle.output_rule.specs.Keys.{between, keys_at, keys_in};

use event_callbacks::PORTS;
use log_buffer::LogBuffer;
use log_entry::Entry;

// The numbers of keys of each port, plus those of the entries from one index up to another.
pub(crate) fn with_keys(keys: [u64; PORTS], log: &LogBuffer, from: u64, to: u64) -> [u64; PORTS]
    requires fits { (port : ℕ) → slice_index keys port ≤ GREATEST_NUMBER + from }
    requires first { log.now.first ≤ from }
    requires order { from ≤ to }
    requires next { to ≤ next_of log.now }
    ensures { result ≡ table.with_keys keys (between log.now from to) }
{
    log.stands();
    [
        keys[0] + keys_between(log, 0, from, to),
        keys[1] + keys_between(log, 1, from, to),
    ]
}

// How many keys of a port are among the entries from one index up to another.
#[tactic(auto, using(crate::proofs::KeysBetween::keys_in_between))]
fn keys_between(log: &LogBuffer, port: u8, from: u64, to: u64) -> u64
    requires first { log.now.first ≤ from }
    requires order { from ≤ to }
    requires next { to ≤ next_of log.now }
    ensures keys { result ≡ keys_in port (between log.now from to) }
    ensures few { result + from ≤ to }
{
    let mut keys = 0;
    for index in from..to {
        keys += keys_of(log.get(index), port);
    }
    keys
}

// Whether an entry is a key of a port, as 1 or 0.
fn keys_of(entry: Option<&Entry>, port: u8) -> u64
    ensures keys { result ≡ keys_at port (option_copied entry.entry) }
    ensures few { result ≤ 1 }
{
    match entry {
        Some(Entry::Rx { port: at, .. }) if *at == port => 1,
        _ => 0,
    }
}
