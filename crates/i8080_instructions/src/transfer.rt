//! The instructions that move words between registers and memory.
ghost use Rattle.std.specs.Prelude.{◌≡◌, ◌+◌, ◌*◌, ◌/◌, ◌%◌};
ghost use Rattle.i8080_words.specs.Arithmetic.{wrapped};
ghost use Rattle.i8080_words.specs.Effects.{after_accesses, writing_word};

use crate::bus::Bus;
use crate::operands::offset;
use i8080_words::Regs;

/// SHLD: stores L at an address and H at the next.
pub fn store_pair<B: Bus>(bus: &mut B, address: u16, regs: &Regs)
    ensures { B.state bus.new ≡ after_accesses B.after
        (writing_word address regs.now.l regs.now.h regs.now).accesses
        (B.state bus.old) }
{
    bus.write(address, regs.l);
    bus.write(offset(address, 1), regs.h);
}

/// LHLD: loads L from an address and H from the next.
pub fn load_pair<B: Bus>(bus: &B, address: u16, regs: &mut Regs)
    ensures { regs.new ≡ record regs.old {
      l = B.byte_at (B.state bus.now) address;
      h = B.byte_at (B.state bus.now) (wrapped (address + 1));
    } }
{
    regs.l = bus.read(address);
    regs.h = bus.read(offset(address, 1));
}

/// XTHL: exchanges L with the byte at SP, and H with the next.
#[inline(always)]
pub fn exchange_top<B: Bus>(bus: &mut B, regs: &mut Regs)
    ensures regs { regs.new ≡ record regs.old {
      l = B.byte_at (B.state bus.old) regs.old.sp;
      h = B.byte_at (B.state bus.old) (wrapped (regs.old.sp + 1));
    } }
    ensures bus { B.state bus.new ≡ after_accesses B.after
        (writing_word regs.old.sp regs.old.l regs.old.h regs.old).accesses
        (B.state bus.old) }
{
    let top = regs.sp.get();
    let low = bus.read(top);
    let high = bus.read(offset(top, 1));
    store_pair(bus, top, regs);
    regs.l = low;
    regs.h = high;
}

/// XCHG: exchanges H with D, and L with E.
pub fn exchange(regs: &mut Regs)
    ensures { regs.new ≡ record regs.old { d = regs.old.h; e = regs.old.l; h = regs.old.d; l = regs.old.e } }
{
    let (d, e) = (regs.d, regs.e);
    regs.d = regs.h;
    regs.e = regs.l;
    regs.h = d;
    regs.l = e;
}
