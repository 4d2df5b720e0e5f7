//! Readers that are interrupted, and that never end.
use script_language::{InputError, read_script};
use std::io::{self, ErrorKind, Read};
use std::test::Fail;

// Returns one byte at every second read, and is interrupted at the others; counts its reads.
#[derive(Drop)]
struct Interrupted {
    bytes: u64,
    reads: u64,
}

impl Read for Interrupted {
    fn read(&mut self, block: &mut [u8]) -> io::Result<usize> {
        self.reads = self.reads.saturating_add(1);
        if self.reads % 2 == 1 {
            return Err(io::Error::from(ErrorKind::Interrupted));
        }
        if self.bytes == 0 || block.is_empty() {
            return Ok(0);
        }
        self.bytes -= 1;
        block[0] = b'#';
        Ok(1)
    }
}

// How many bytes there are, and whether they are read before there have been 2,097,152 reads.
static SCRIPTS: [(u64, bool); 3] = [(3, true), (1048575, true), (1048576, false)];

#[test]
fn interrupted_reads_are_made_again_and_count(rt: HostRuntime) -> Result<(), Fail> {
    for (bytes, is_read) in &SCRIPTS {
        let bytes = *bytes;
        let mut reader = Interrupted { bytes, reads: 0 };
        match read_script(rt.alloc(), &mut reader) {
            Ok(script) => assert!(rt; *is_read && script.len() as u64 == bytes),
            Err(InputError::OutOfMemory) => return Err(Fail::from(InputError::OutOfMemory)),
            Err(InputError::Failed) => assert!(rt; !*is_read && reader.reads == 2097152),
        }
    }
    Ok(())
}
