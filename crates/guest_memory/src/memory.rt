//! Memory by address and by page.

ghost use Rattle.std.specs.Prelude.{◌≡◌, ◌+◌, length, IfOk, IfErr};
ghost use Rattle.i8080_words.specs.Arithmetic.{word_of, wrapped};
ghost use Rattle.i8080_words.specs.Effects.{word_at};
ghost use Rattle.i8080_words.specs.declared.refusal.Fault.TheVariants.{OutOfMemory};
ghost use Rattle.guest_memory.specs.Pages.{IsWhole, byte_at, cleared, page_bytes, unwritten, version_at, written, zeros};
ghost use Rattle.guest_memory.specs.Storage.{WrapsAround, bytes_of};

use i8080_words::R;
use std::alloc::Global;
use std::marker::Model;

/// How many bytes the guest addresses.
pub const BYTES: usize = 65_536;

/// How many pages memory has.
pub const PAGES: usize = 256;

/// How many bytes a page has: an address's high byte is its page.
pub const PAGE_BYTES: usize = 256;

// How many bytes are repeated after the last one, so that a word at the end wraps without a test.
const WRAPPED: usize = 2;

/// The guest's bytes, and for each page the number of writes to it. After its last byte the block has its first two once
/// more, so that a word at any address, and the one after it, are read without a test.
#[derive(Drop)]
pub struct Memory {
    bytes: Vec<u8>,
    versions: Vec<u64>,
}

impl Model for Memory {
    ghost use Rattle.guest_memory.specs.Pages.{Pages};

    ghost Value = { Pages };

    ghost use Rattle.guest_memory.specs.Storage.{IsKept, pages_of};

    ghost view = { pages_of };

    ghost invariant = { λ m. IsKept m.bytes.items m.versions.items };
}

impl Memory {
    /// Memory of zeros, each page at version 0. `OutOfMemory` if the allocator refuses its 66 KiB.
    #[tactic(auto, using(crate::proofs::NewMemory::cleared_is_whole, crate::proofs::WrappedAround::shown_of_zeros, crate::proofs::WrappedAround::zeros_wrap))]
    pub fn new(alloc: Global) -> R<Memory>
        ensures ok { IfOk result (λ memory. memory ≡ cleared) }
        ensures only_memory { IfErr result (λ fault. fault ≡ OutOfMemory) }
    {
        let block = zero_bytes(alloc, BYTES + WRAPPED)?;
        Memory::of_block(alloc, block)
    }

    /// Memory that holds these bytes, each page at version 0. `OutOfMemory` as in `new`.
    #[tactic(auto, using(crate::proofs::NewMemory::unwritten_is_whole, crate::proofs::WrappedAround::shown_of))]
    pub fn of_bytes(alloc: Global, bytes: &[u8]) -> R<Memory>
        requires { length bytes.now ≡ BYTES }
        ensures ok { IfOk result (λ memory. memory ≡ unwritten bytes.now) }
        ensures only_memory { IfErr result (λ fault. fault ≡ OutOfMemory) }
    {
        let mut block = Vec::with_capacity(alloc, BYTES + WRAPPED)?;
        block.extend_from_slice(bytes)?;
        block.extend_from_slice(&bytes[..WRAPPED])?;
        Memory::of_block(alloc, block)
    }

    // Memory that keeps this block of bytes, each page at version 0.
    fn of_block(alloc: Global, block: Vec<u8>) -> R<Memory>
        requires whole { IsWhole (unwritten (bytes_of block.items)) }
        requires wraps { WrapsAround block.items }
        ensures ok { IfOk result (λ memory. memory ≡ unwritten (bytes_of block.items)) }
        ensures only_memory { IfErr result (λ fault. fault ≡ OutOfMemory) }
    {
        let versions = zero_versions(alloc, PAGES)?;
        Ok(Memory {
            bytes: block,
            versions,
        })
    }

    /// A copy of the memory: the same bytes at the same versions. `OutOfMemory` as in `new`.
    pub fn copy(&self) -> R<Memory>
        ensures ok { IfOk result (λ memory. memory ≡ self.now) }
        ensures only_memory { IfErr result (λ fault. fault ≡ OutOfMemory) }
    {
        let bytes = self.bytes.clone()?;
        let versions = self.versions.clone()?;
        Ok(Memory { bytes, versions })
    }

    /// The byte at an address.
    #[inline]
    #[tactic(auto, using(crate::proofs::WrappedAround::shown_there))]
    pub fn read(&self, address: u16) -> u8
        ensures { result ≡ byte_at self.now address }
    {
        self.bytes[address as usize]
    }

    /// The byte after an address; addresses wrap modulo 65,536.
    #[inline]
    #[tactic(auto, using(crate::proofs::WrappedAround::byte_there))]
    pub fn read_byte_after(&self, address: u16) -> u8
        ensures { result ≡ byte_at self.now (wrapped (address + 1)) }
    {
        self.bytes[address as usize + 1]
    }

    /// The word at an address, low byte first.
    #[inline]
    #[tactic(auto, using(crate::proofs::WrappedAround::shown_there, crate::proofs::WrappedAround::byte_there))]
    pub fn read_word(&self, address: u16) -> u16
        ensures { result ≡ word_at (byte_at self.now) address }
    {
        let place = address as usize;
        u16::from_le_bytes([self.bytes[place], self.bytes[place + 1]])
    }

    /// The word after an address.
    #[inline]
    #[tactic(auto, using(crate::proofs::WrappedAround::byte_there))]
    pub fn read_word_after(&self, address: u16) -> u16
        ensures { result ≡ word_of (byte_at self.now (wrapped (address + 1))) (byte_at self.now (wrapped (address + 2))) }
    {
        let place = address as usize;
        u16::from_le_bytes([self.bytes[place + 1], self.bytes[place + 2]])
    }

    /// Puts a byte at an address. Its page's version rises even if that byte was already there; it is kept modulo 2^64,
    /// which a board's instruction count does not come near.
    #[inline]
    #[tactic(auto, using(crate::proofs::WrappedAround::shown_after, crate::proofs::WrappedAround::shown_after_repeat))]
    pub fn write(&mut self, address: u16, byte: u8)
        ensures { self.new ≡ written self.old address byte }
    {
        let place = address as usize;
        let page = place / PAGE_BYTES;
        let version = self.versions[page];
        self.versions[page] = version.wrapping_add(1);
        self.bytes[place] = byte;
        if place < WRAPPED {
            self.bytes[BYTES + place] = byte;
        }
    }

    /// The 256 bytes of a page, lowest address first.
    #[inline]
    #[tactic(auto, using(crate::proofs::WrappedAround::page_there))]
    pub fn page(&self, page: u8) -> &[u8]
        ensures bytes { result.now ≡ page_bytes self.now page }
        ensures length { length result.now ≡ PAGE_BYTES }
    {
        let start = page as usize * PAGE_BYTES;
        &self.bytes[start..start + PAGE_BYTES]
    }

    /// How often a page was written.
    #[inline]
    pub fn version(&self, page: u8) -> u64
        ensures { result ≡ version_at self.now page }
    {
        self.versions[page as usize]
    }

    /// Whatever was written, there is a byte at every address and a version for every page.
    pub fn always_whole(&self)
        ensures { IsWhole self.now }
    {
        let _ = &self.bytes;
    }
}

// This many bytes of 00.
#[tactic(auto, unfolding(crate::specs::Pages::zeros))]
fn zero_bytes(alloc: Global, count: usize) -> R<Vec<u8>>
    ensures ok { IfOk result (λ bytes. bytes.items ≡ zeros count) }
    ensures only_memory { IfErr result (λ fault. fault ≡ OutOfMemory) }
{
    let bytes = vec![in alloc; 0; count]?;
    Ok(bytes)
}

// This many versions of 0.
#[tactic(auto, unfolding(crate::specs::Pages::zeros))]
fn zero_versions(alloc: Global, count: usize) -> R<Vec<u64>>
    ensures ok { IfOk result (λ versions. versions.items ≡ zeros count) }
    ensures only_memory { IfErr result (λ fault. fault ≡ OutOfMemory) }
{
    let versions = vec![in alloc; 0; count]?;
    Ok(versions)
}
