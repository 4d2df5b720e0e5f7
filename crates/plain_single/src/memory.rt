//! The 65,536 bytes of memory.
ghost use Rattle.std.specs.Prelude.{◌≡◌, ◌+◌, ◌%◌, vec_len, slice_set};
ghost use Rattle.i8080_words.specs.Arithmetic.{wrapped};
ghost use Rattle.i8080_words.specs.Effects.{word_at};
ghost use Rattle.plain_single.specs.Executor.{byte_at, stored};

use crate::executor::Stores;

/// A byte at each address.
#[derive(Drop)]
pub struct Memory {
    pub(crate) bytes: Vec<u8>,
    ghost whole: { vec_len bytes ≡ 65536 },
}

impl Memory {
    /// The byte at an address.
    pub fn read(&self, address: u16) -> u8
        ensures { result ≡ byte_at self.now.bytes.items address }
    {
        self.bytes[address as usize]
    }

    /// The word whose low byte is at an address.
    pub(crate) fn word(&self, address: u16) -> u16
        ensures { result ≡ word_at (byte_at self.now.bytes.items) address }
    {
        u16::from_le_bytes([self.read(address), self.read(address.wrapping_add(1))])
    }

    /// Writes a byte at an address.
    pub fn write(&mut self, address: u16, byte: u8)
        ensures { self.new.bytes.items ≡ slice_set self.old.bytes.items address byte }
    {
        self.bytes[address as usize] = byte;
    }

    /// Writes what an instruction stores.
    pub(crate) fn store(&mut self, stores: Stores)
        ensures { self.new.bytes.items ≡ stored stores self.old.bytes.items }
    {
        match stores {
            Stores::Nothing => {}
            Stores::Byte(at, byte) => self.write(at, byte),
            Stores::Bytes(at, byte, next_at, next) => {
                self.write(at, byte);
                self.write(next_at, next);
            }
        }
    }
}
