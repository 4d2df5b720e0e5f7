//! A writer whose bytes go into a ring, until it is full.

use rtrb::{Consumer, Producer};
use std::io::{self, ErrorKind, Write};

/// Writes a byte at a time; without a place in the ring it fails.
#[derive(Drop)]
pub(super) struct Paper {
    ring: Producer<u8>,
}

impl Paper {
    pub(super) fn of(ring: Producer<u8>) -> Paper {
        Paper { ring }
    }
}

impl Write for Paper {
    fn write(&mut self, bytes: &[u8]) -> io::Result<usize> {
        let Some(byte) = bytes.first() else {
            return Ok(0);
        };
        match self.ring.push(*byte) {
            Ok(()) => Ok(1),
            Err(_) => Err(io::Error::from(ErrorKind::BrokenPipe)),
        }
    }

    fn flush(&mut self) -> io::Result<()> {
        Ok(())
    }
}

/// Whether just these come out of a ring.
pub(super) fn come_out<T: PartialEq + Copy>(ring: &mut Consumer<T>, items: &[T]) -> bool {
    for item in items {
        match ring.pop() {
            Ok(came) if came == *item => {}
            _ => return false,
        }
    }
    ring.pop().is_err()
}
