//! What the tests wire a processor to: all of memory, and ports that give their own numbers with some bits flipped.
ghost use Rattle.crate_tests.specs.Examples.{byte_in, input_at, access_of};

use i8080_core::Bus;

/// An access of a port.
#[derive(Clone, Copy)]
pub(super) enum PortAccess {
    In(u8),
    Out(u8, u8),
}

/// Memory, the addresses that were written last, and the port that was accessed last. IN p reads p XOR 5A.
#[derive(Drop)]
pub(super) struct TestBus {
    pub(super) bytes: Vec<u8>,
    pub(super) written: [Option<u16>; 2],
    pub(super) port: Option<PortAccess>,
}

impl Bus for TestBus {
    ghost use Rattle.std.specs.Prelude.{ℕ, List};

    ghost State = { List ℕ };

    ghost state = { λ m. m.bytes.items };

    ghost byte_at = { byte_in };

    ghost input_byte = { input_at };

    ghost after = { access_of };

    fn read(&self, address: u16) -> u8 {
        self.bytes.get(address as usize).copied().unwrap_or(0)
    }

    fn write(&mut self, address: u16, byte: u8) {
        if let Some(place) = self.bytes.get_mut(address as usize) {
            *place = byte;
        }
        let [last, _] = self.written;
        self.written = [Some(address), last];
    }

    fn input(&mut self, port: u8) -> u8 {
        self.port = Some(PortAccess::In(port));
        port ^ 0x5a
    }

    fn look(&self, port: u8) -> Option<u8> {
        Some(port ^ 0x5a)
    }

    fn output(&mut self, port: u8, byte: u8) {
        self.port = Some(PortAccess::Out(port, byte));
    }
}

impl TestBus {
    /// With these bytes in memory, before the first access.
    pub(super) fn of(bytes: Vec<u8>) -> TestBus {
        TestBus {
            bytes,
            written: [None; 2],
            port: None,
        }
    }

    /// Puts a byte at an address, which is no access.
    pub(super) fn put(&mut self, address: u16, byte: u8) {
        if let Some(place) = self.bytes.get_mut(address as usize) {
            *place = byte;
        }
    }

    /// The sum over the bytes written of (address * 256 + byte) * 2654435761 modulo 2^32.
    pub(super) fn written_sum(&self) -> u32 {
        let mut sum = 0u32;
        for address in self.written.iter().flatten() {
            let content = u32::from(*address) * 256 + u32::from(self.read(*address));
            sum = sum.wrapping_add(content.wrapping_mul(2654435761));
        }
        sum
    }
}
