//! What a host shows of its machine to whoever is outside: the processor and some memory, as they are at one moment.
ghost use Rattle.std.specs.Prelude.{◌≡◌, ◌++◌, IfOk, length};
ghost use Rattle.host_node.specs.Goes.{Goes};
ghost use Rattle.host_node.specs.Sights.{HasSight, SaysSight, interrupts_code, processor_bytes};

use crate::host::HostNode;
use board_image::DraftedBoard;
use clone_state::Copies;
use event_callbacks::Completes;
use host_frames::{Frame, SIGHT_BYTES, Transfer};
use i8080_words::{Interrupts, Processor, R, psw};

// How many bytes show a processor.
const PROCESSOR: usize = 14;

// How many bytes a page of memory has.
const PAGE: usize = 256;

/// A machine that can be looked at.
pub trait Inspect {
    ghost use Rattle.std.specs.Prelude.{ℕ, List};

    /// The bytes that show it, with its memory from a page on.
    ghost sight: { Self → ℕ → List ℕ };

    /// The bytes of its processor, of a page of its memory, and of the page after that; after the last page comes the first. This
    /// changes nothing.
    fn inspect(&self, page: u8) -> [u8; SIGHT_BYTES]
        ensures { result ≡ sight self.now page };
}

impl<T: Completes, S: Completes, W: Completes> Inspect for DraftedBoard<T, S, W> {
    ghost use Rattle.host_node.specs.Sights.{sight_of};

    ghost sight = { λ d. sight_of d.board.guest };

    fn inspect(&self, page: u8) -> [u8; SIGHT_BYTES] {
        let board = self.board();
        let pages = two_pages(board.page(page), board.page(page.wrapping_add(1)));
        sight(&processor_bytes(board.processor()), &pages)
    }
}

impl<B: Copies<H> + Inspect + Drop, H: Drop> HostNode<B, H> {
    /// Shows the machine of its node, which was asked for by this number. Returns false if it has none, or if there is no room.
    #[tactic(auto, using(crate::proofs::Going::stays, crate::proofs::Going::looked))]
    pub fn show(&mut self, number: u64, page: u8) -> R<bool>
        ensures goes { Goes B.state B.machine B.copied self.old self.new }
        ensures shows { IfOk result (λ is_sent. SaysSight B.state B.machine B.Inspect.sight number page is_sent self.old self.new) }
    {
        let Some(bytes) = self.sight(page) else {
            return Ok(false);
        };
        if !self.mail.has_room() {
            return Ok(false);
        }
        let count = self.count();
        let shown = Transfer::Inspected {
            number,
            count,
            bytes,
        };
        self.mail.say(&Frame::Transfer(shown))?;
        Ok(true)
    }

    // What the machine of its node has, if it has one.
    #[tactic(auto, using(crate::proofs::Looking::says, crate::proofs::Looking::says_nothing))]
    fn sight(&self, page: u8) -> Option<[u8; SIGHT_BYTES]>
        ensures { HasSight B.state B.machine B.Inspect.sight self.now.node page result }
    {
        match self.guest() {
            Some(guest) => Some(guest.inspect(page)),
            None => None,
        }
    }
}

// The bytes that show a processor: its registers, whether it accepts an interrupt, and whether it is halted.
fn processor_bytes(processor: &Processor) -> [u8; PROCESSOR]
    ensures { result ≡ processor_bytes processor.now }
{
    let regs = &processor.regs;
    let (stack, program) = (regs.sp.get(), regs.pc.get());
    [
        regs.a,
        psw(regs.flags),
        regs.b,
        regs.c,
        regs.d,
        regs.e,
        regs.h,
        regs.l,
        (stack / 256) as u8,
        (stack % 256) as u8,
        (program / 256) as u8,
        (program % 256) as u8,
        interrupts_code(processor.interrupts),
        u8::from(processor.halted),
    ]
}

// The number of an interrupt enable.
fn interrupts_code(interrupts: Interrupts) -> u8
    ensures { result ≡ interrupts_code interrupts }
{
    match interrupts {
        Interrupts::Off => 0,
        Interrupts::Soon => 1,
        Interrupts::On => 2,
    }
}

// Two pages, one after the other.
fn two_pages(first: &[u8], second: &[u8]) -> [u8; 2 * PAGE]
    requires first { length first.now ≡ 256 }
    requires second { length second.now ≡ 256 }
    ensures { result ≡ first.now ++ second.now }
{
    let mut bytes = [0; 2 * PAGE];
    bytes[..PAGE].copy_from_slice(first);
    bytes[PAGE..].copy_from_slice(second);
    bytes
}

// The bytes of a processor, and of two pages after them.
fn sight(processor: &[u8; PROCESSOR], pages: &[u8; 2 * PAGE]) -> [u8; SIGHT_BYTES]
    ensures { result ≡ processor.now ++ pages.now }
{
    let mut bytes = [0; SIGHT_BYTES];
    bytes[..PROCESSOR].copy_from_slice(processor);
    bytes[PROCESSOR..].copy_from_slice(pages);
    bytes
}
