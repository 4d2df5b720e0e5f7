//! What the first part of an image says, group by group.
ghost use Rattle.std.specs.Prelude.{◌≡◌, ◌++◌, ◌∷◌, []};
ghost use Rattle.std.specs.Option.{option_copied};
ghost use Rattle.clone_state.specs.Codec.{number, spell_each};
ghost use Rattle.clone_state.specs.FirstPart as grammar;

use disk_dcdd::{Controller, CurrentSector, Drive, SectorWrite};
use event_callbacks::PORTS;
use i8080_words::{Interrupts, Processor, psw};
use log_entry::spelled_number;
use serial_2sio::{Acia, Receiver, WINDOW};

// The version that is written.
const VERSION: u8 = 2;

// What a byte says if there is no number.
const NONE: u8 = 0xff;

/// How many bytes an outstanding write has.
pub(super) const WRITE: usize = 148;

/// The version, the drives, the levels, the sense switches and the count.
#[tactic(auto, unfolding(crate::specs::Codec::number))]
pub(super) fn setting(attached: u8, levels: [u8; 3], sense: u8, count: u64) -> [u8; 14]
    ensures { result ≡ 2 ∷ attached ∷ (levels ++ (sense ∷ number.spell count)) }
{
    let [first, second, third] = levels;
    let mut bytes = [0; 14];
    bytes[..6].copy_from_slice(&[VERSION, attached, first, second, third, sense]);
    bytes[6..].copy_from_slice(&spelled_number(count));
    bytes
}

/// The registers of the processor, its stack pointer and its program counter, its interrupts and its halt.
#[tactic(auto, unfolding(crate::specs::Codec::both, crate::specs::Codec::by, crate::specs::Codec::only, crate::specs::Codec::one, crate::specs::FirstPart::processor, crate::specs::FirstPart::registers, crate::specs::FirstPart::flags, crate::specs::FirstPart::word, crate::specs::FirstPart::interrupts, crate::specs::FirstPart::truth))]
pub(super) fn processor_bytes(processor: &Processor) -> [u8; 14]
    ensures { result ≡ grammar.processor.spell processor.now }
{
    let regs = processor.regs;
    let sp = regs.sp.get();
    let pc = regs.pc.get();
    [
        regs.a,
        psw(regs.flags),
        regs.b,
        regs.c,
        regs.d,
        regs.e,
        regs.h,
        regs.l,
        (sp / 256) as u8,
        (sp % 256) as u8,
        (pc / 256) as u8,
        (pc % 256) as u8,
        interrupts_code(processor.interrupts),
        u8::from(processor.halted),
    ]
}

fn interrupts_code(interrupts: Interrupts) -> u8
    ensures { result ≡ grammar.code_of_interrupts interrupts }
{
    match interrupts {
        Interrupts::Off => 0,
        Interrupts::Soon => 1,
        Interrupts::On => 2,
    }
}

/// A number of each port.
#[tactic(auto, unfolding(crate::specs::Codec::number))]
pub(super) fn port_numbers(numbers: [u64; PORTS]) -> [u8; 16]
    ensures { result ≡ spell_each number numbers }
{
    let [first, second] = numbers;
    let mut bytes = [0; 16];
    bytes[..8].copy_from_slice(&spelled_number(first));
    bytes[8..].copy_from_slice(&spelled_number(second));
    bytes
}

/// A port and the places of its window.
#[tactic(auto, unfolding(crate::specs::Codec::both, crate::specs::Codec::by, crate::specs::Codec::only, crate::specs::Codec::one, crate::specs::Codec::bytes, crate::specs::FirstPart::port, crate::specs::FirstPart::receiver))]
pub(super) fn port_bytes(port: &Acia, window: &[u8; WINDOW as usize]) -> [u8; 20]
    ensures { result ≡ grammar.port.spell (port.now, window.now) }
{
    let mut bytes = [0; 20];
    bytes[0] = port.control_register();
    bytes[1] = port.data_register();
    bytes[2] = receiver_code(port.receiver());
    bytes[3] = port.unaccepted();
    bytes[4..].copy_from_slice(window);
    bytes
}

fn receiver_code(receiver: Receiver) -> u8
    ensures { result ≡ grammar.code_of_receiver receiver }
{
    match receiver {
        Receiver::Empty => 0,
        Receiver::Full => 1,
        Receiver::FullLost => 2,
        Receiver::Over => 3,
    }
}

/// How many writes were issued, the selected drive, and whether interrupts are enabled.
#[tactic(auto, unfolding(crate::specs::Codec::number, crate::specs::Codec::by, crate::specs::Codec::one, crate::specs::Codec::only, crate::specs::FirstPart::maybe, crate::specs::FirstPart::truth))]
pub(super) fn controller_bytes(disk: &Controller) -> [u8; 10]
    ensures { result ≡ number.spell disk.now.issued
        ++ (grammar.maybe.spell disk.now.selected ++ grammar.truth.spell disk.now.interrupts) }
{
    let mut bytes = [0; 10];
    bytes[..8].copy_from_slice(&spelled_number(disk.issued()));
    bytes[8] = disk.selected().unwrap_or(NONE);
    bytes[9] = u8::from(disk.interrupts_enabled());
    bytes
}

/// The tracks of the drives, and whether their heads are loaded.
pub(super) fn drives_bytes(disk: &Controller) -> [u8; 8]
    ensures { result ≡ grammar.drives.spell disk.now.drives }
{
    disk.stands();
    four_drives(disk.drive(0), disk.drive(1), disk.drive(2), disk.drive(3))
}

#[tactic(auto, unfolding(crate::specs::Codec::both, crate::specs::Codec::by, crate::specs::Codec::one, crate::specs::Codec::only, crate::specs::Codec::times, crate::specs::FirstPart::truth, crate::specs::FirstPart::drives))]
fn four_drives(first: Drive, second: Drive, third: Drive, fourth: Drive) -> [u8; 8]
    ensures { result ≡ grammar.drives.spell (first ∷ second ∷ third ∷ fourth ∷ []) }
{
    [
        first.track,
        second.track,
        third.track,
        fourth.track,
        u8::from(first.loaded),
        u8::from(second.loaded),
        u8::from(third.loaded),
        u8::from(fourth.loaded),
    ]
}

/// The sector under the head; with none, what stands for one.
#[tactic(auto, unfolding(crate::specs::Codec::both, crate::specs::Codec::by, crate::specs::Codec::one, crate::specs::Codec::only, crate::specs::Codec::bytes, crate::specs::FirstPart::truth, crate::specs::FirstPart::maybe, crate::specs::FirstPart::current, crate::specs::FirstPart::no_bytes))]
pub(super) fn current_bytes(current: Option<&CurrentSector>) -> [u8; 142]
    ensures { result ≡ grammar.current.spell (option_copied current.entry) }
{
    let mut bytes = [0; 142];
    let Some(sector) = current else {
        bytes[4] = NONE;
        return bytes;
    };
    bytes[..5].copy_from_slice(&[
        u8::from(true),
        sector.sector,
        u8::from(sector.shown),
        sector.read,
        sector.filled.unwrap_or(NONE),
    ]);
    bytes[5..].copy_from_slice(&sector.bytes);
    bytes
}

/// A write: its number, its drive, its track, its sector and its bytes.
#[tactic(auto, unfolding(crate::specs::Codec::both, crate::specs::Codec::by, crate::specs::Codec::one, crate::specs::Codec::bytes, crate::specs::Codec::number, crate::specs::FirstPart::write))]
pub(super) fn write_bytes(write: &SectorWrite) -> [u8; WRITE]
    ensures { result ≡ grammar.write.spell write.now }
{
    let mut bytes = [0; WRITE];
    bytes[..8].copy_from_slice(&spelled_number(write.number));
    bytes[8] = write.drive;
    bytes[9] = write.track;
    bytes[10] = write.sector;
    bytes[11..].copy_from_slice(&write.bytes);
    bytes
}
