//! What a call does at the terminal of its port, if there is one.
ghost use Rattle.std.specs.Prelude.{◌≡◌, Some, None, if◌then◌else◌, ok_or};
ghost use Rattle.i8080_words.specs.declared.refusal.Fault.TheVariants.{Unknown};
ghost use Rattle.outside_switch.specs.DeviceCalls as calls;
ghost use Rattle.outside_switch.specs.Terminal.{key_of};

use crate::terminal::BoundedTerminal;
use event_callbacks::PORTS;
use i8080_words::{Fault, R};

/// A key is typed. Returns its index.
pub(crate) fn type_key(terminals: &mut [BoundedTerminal; PORTS], port: u8, byte: u8) -> R<u64>
    ensures answer { result ≡ calls.typed_answer terminals.old port }
    ensures after { terminals.new ≡ calls.typed_after terminals.old port byte }
{
    if port as usize >= PORTS {
        return Err(Fault::Unknown);
    }
    terminals[port as usize].typed(byte)
}

/// The key that was typed at an index.
pub(crate) fn key_at(terminals: &[BoundedTerminal; PORTS], port: u8, index: u64) -> R<u8>
    ensures { result ≡ calls.key_answer terminals.now port index }
{
    if port as usize >= PORTS {
        return Err(Fault::Unknown);
    }
    terminals[port as usize].key(index)
}

/// A byte arrives. Returns whether it is accepted.
pub(crate) fn arrive(
    terminals: &mut [BoundedTerminal; PORTS],
    port: u8,
    number: u64,
    room: bool,
) -> bool
    ensures answer { result ≡ calls.is_accepted terminals.old port number room }
    ensures after { terminals.new ≡ calls.arrived_after terminals.old port number room }
{
    if port as usize >= PORTS || !room {
        return false;
    }
    terminals[port as usize].arrive(number)
}

/// How many bytes were accepted; 0 if there is no such port.
pub(crate) fn accepted(terminals: &[BoundedTerminal; PORTS], port: u8) -> u64
    ensures { result ≡ (calls.terminal_at terminals.now port).accepted }
{
    if port as usize >= PORTS {
        return 0;
    }
    terminals[port as usize].accepted()
}

/// A host tells how many keys are covered.
pub(crate) fn tell(terminals: &mut [BoundedTerminal; PORTS], port: u8, keys: u64)
    ensures { terminals.new ≡ calls.told_after terminals.old port keys }
{
    if port as usize >= PORTS {
        return;
    }
    terminals[port as usize].tell(keys);
}
