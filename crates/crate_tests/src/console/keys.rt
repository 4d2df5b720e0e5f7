//! What a read of a terminal, or of something else, is heard as.

use console_terminal::{Heard, KeySource, TerminalKeys};
use std::io::{self, ErrorKind, IsTerminal, Read};

// What a read gives.
#[derive(Clone, Copy)]
enum ReadGives {
    Byte(u8),
    Nothing,
    Fails(ErrorKind),
}

#[derive(Drop)]
struct Reader {
    given: ReadGives,
    is_terminal: bool,
}

impl Read for Reader {
    fn read(&mut self, block: &mut [u8]) -> io::Result<usize> {
        match self.given {
            ReadGives::Byte(byte) if !block.is_empty() => {
                block[0] = byte;
                Ok(1)
            }
            ReadGives::Byte(_) | ReadGives::Nothing => Ok(0),
            ReadGives::Fails(kind) => Err(io::Error::from(kind)),
        }
    }
}

impl IsTerminal for Reader {
    fn is_terminal(&self) -> bool {
        self.is_terminal
    }
}

static READS: [(ReadGives, bool, Heard); 6] = [
    (ReadGives::Byte(0x41), true, Heard::Key(0x41)),
    (ReadGives::Byte(0xff), false, Heard::Key(0xff)),
    (ReadGives::Nothing, true, Heard::Quiet),
    (ReadGives::Nothing, false, Heard::End),
    (ReadGives::Fails(ErrorKind::Interrupted), true, Heard::Quiet),
    (ReadGives::Fails(ErrorKind::Other), true, Heard::Failed),
];

#[test]
fn each_read_is_heard_as_its_row_says(rt: HostRuntime) {
    for (given, is_terminal, heard) in &READS {
        let mut keys = TerminalKeys::new(Reader {
            given: *given,
            is_terminal: *is_terminal,
        });
        assert!(rt; keys.hear() == *heard);
    }
}
