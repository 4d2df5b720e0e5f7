//! What the processor is wired to.
ghost use Rattle.std.specs.Prelude.{◌≡◌, ℕ, ◌+◌, IfSome};
ghost use Rattle.i8080_words.specs.Arithmetic.{wrapped, word_of};
ghost use Rattle.i8080_words.specs.Effects.{Access, word_at};
ghost use Rattle.i8080_words.specs.Effects.Access.{Write, Input, Output};

/// The memory and the devices that a processor is wired to. A read of memory changes nothing; a write, an input or an
/// output changes the state as the implementation's `after` says.
pub trait Bus {
    /// What a `State` is: the part of the memory and the devices that matters.
    ghost State: { Type 0 };

    /// The state of a bus.
    ghost state: { Self → State };

    /// The byte at an address.
    ghost byte_at: { State → ℕ → ℕ };

    /// The byte that the next read of a port gives.
    ghost input_byte: { State → ℕ → ℕ };

    /// The state after an access.
    ghost after: { Access → State → State };

    /// The byte at an address of memory.
    fn read(&self, address: u16) -> u8
        ensures { result ≡ byte_at (state self.now) address };

    /// The byte after an address of memory. Addresses wrap modulo 65,536.
    fn read_byte_after(&self, address: u16) -> u8
        ensures { result ≡ byte_at (state self.now) (wrapped (address + 1)) }
    {
        self.read(address.wrapping_add(1))
    }

    /// The word at an address of memory, whose low byte comes first.
    fn read_word(&self, address: u16) -> u16
        ensures { result ≡ word_at (byte_at (state self.now)) address }
    {
        u16::from_le_bytes([self.read(address), self.read(address.wrapping_add(1))])
    }

    /// The word after an address of memory.
    fn read_word_after(&self, address: u16) -> u16
        ensures { result ≡ word_of
            (byte_at (state self.now) (wrapped (address + 1)))
            (byte_at (state self.now) (wrapped (address + 2))) }
    {
        u16::from_le_bytes([
            self.read(address.wrapping_add(1)),
            self.read(address.wrapping_add(2)),
        ])
    }

    /// Writes a byte at an address of memory.
    fn write(&mut self, address: u16, byte: u8)
        ensures { state self.new ≡ after (Write address byte) (state self.old) };

    /// Reads a byte from a port (IN).
    fn input(&mut self, port: u8) -> u8
        ensures byte { result ≡ input_byte (state self.old) port }
        ensures state { state self.new ≡ after (Input port) (state self.old) };

    /// The byte that a read from this port would give, only if that read would leave the state unchanged.
    fn look(&self, port: u8) -> Option<u8>
        ensures byte { IfSome result (λ byte. byte ≡ input_byte (state self.now) port) }
        ensures leaves { IfSome result (λ _. after (Input port) (state self.now) ≡ state self.now) };

    /// Sends a byte to a port (OUT).
    fn output(&mut self, port: u8, byte: u8)
        ensures { state self.new ≡ after (Output port byte) (state self.old) };
}
