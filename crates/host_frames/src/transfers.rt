//! The bodies of transfers.
ghost use Rattle.std.specs.Prelude.{◌≡◌, ◌≤◌, ◌∷◌, ◌++◌, true, length, IfErr, OnOk};
ghost use Rattle.byteorder.specs.Endian.{big_bytes};
ghost use Rattle.i8080_words.specs.declared.refusal.Fault.TheVariants.{OutOfMemory};
ghost use Rattle.host_frames.specs.Frames.{is_transfer, transfer_body};

use crate::frame::{SIGHT_BYTES, Transfer};
use crate::notices::append;
use crate::spelling::MOST_BYTES;
use disk_dcdd::{SECTOR_BYTES, SectorAddress};
use i8080_words::R;
use log_entry::spelled_number;

// How many bytes a tag has with a sector, a number and the sector's bytes.
const CONTENT: usize = 149;

// How many bytes a tag has with two numbers and what a machine has.
const SIGHT: usize = 543;

/// How many bytes the body of a transfer has.
pub(crate) fn transfer_length(transfer: &Transfer) -> usize
    requires { is_transfer transfer.now ≡ true }
    ensures length { result ≡ length (transfer_body transfer.now) }
    ensures within { result ≤ MOST_BYTES }
{
    match transfer {
        Transfer::Byte { .. } | Transfer::Key { .. } => 11,
        Transfer::Accepted { .. } | Transfer::Inspect { .. } => 10,
        Transfer::Write(_) | Transfer::Sector(_) => CONTENT,
        Transfer::Written(_) | Transfer::Failed(_) => 9,
        Transfer::Get(_) => 4,
        Transfer::Inspected { .. } => SIGHT,
    }
}

/// Appends the body of a transfer.
pub(crate) fn write_transfer(out: &mut Vec<u8>, transfer: &Transfer) -> R<()>
    ensures ok { OnOk result (out.new.items ≡ out.old.items ++ transfer_body transfer.now) }
    ensures full { IfErr result (λ fault. fault ≡ OutOfMemory) }
{
    match transfer {
        Transfer::Byte { port, number, byte } => append(out, &of_key(0x42, *port, *number, *byte)),
        Transfer::Key { port, index, byte } => append(out, &of_key(0x4b, *port, *index, *byte)),
        Transfer::Accepted { port, count } => append(out, &of_port(0x41, *port, *count)),
        Transfer::Write(write) => {
            let address = write.address();
            append(out, &of_content(0x57, address, write.number, &write.bytes))
        }
        Transfer::Written(number) => append(out, &of_number(0x77, *number)),
        Transfer::Failed(number) => append(out, &of_number(0x66, *number)),
        Transfer::Get(address) => append(
            out,
            &[0x47, address.drive, address.track, address.sector],
        ),
        Transfer::Sector(read) => {
            let address = SectorAddress {
                drive: read.drive,
                track: read.track,
                sector: read.sector,
            };
            append(out, &of_content(0x53, address, read.number, &read.bytes))
        }
        Transfer::Inspect { number, page } => append(out, &of_port(0x49, *page, *number)),
        Transfer::Inspected {
            number,
            count,
            bytes,
        } => append(out, &inspected_body(*number, *count, bytes)),
    }
}

// A tag, a port, a byte and a number.
fn of_key(tag: u8, port: u8, number: u64, byte: u8) -> [u8; 11]
    ensures { result ≡ tag ∷ port ∷ byte ∷ big_bytes 8 number }
{
    let mut bytes = [0; 11];
    bytes[0] = tag;
    bytes[1] = port;
    bytes[2] = byte;
    bytes[3..].copy_from_slice(&spelled_number(number));
    bytes
}

// A tag, a port or a page, and a number.
fn of_port(tag: u8, port: u8, number: u64) -> [u8; 10]
    ensures { result ≡ tag ∷ port ∷ big_bytes 8 number }
{
    let mut bytes = [0; 10];
    bytes[0] = tag;
    bytes[1] = port;
    bytes[2..].copy_from_slice(&spelled_number(number));
    bytes
}

// A tag and a number.
fn of_number(tag: u8, number: u64) -> [u8; 9]
    ensures { result ≡ tag ∷ big_bytes 8 number }
{
    let mut bytes = [0; 9];
    bytes[0] = tag;
    bytes[1..].copy_from_slice(&spelled_number(number));
    bytes
}

// A tag, a sector, a number and the sector's bytes.
fn of_content(
    tag: u8,
    address: SectorAddress,
    number: u64,
    content: &[u8; SECTOR_BYTES],
) -> [u8; CONTENT]
    ensures { result ≡ tag ∷ address.drive ∷ address.track ∷ address.sector ∷ big_bytes 8 number ++ content.now }
{
    let mut bytes = [0; CONTENT];
    bytes[0] = tag;
    bytes[1] = address.drive;
    bytes[2] = address.track;
    bytes[3] = address.sector;
    bytes[4..12].copy_from_slice(&spelled_number(number));
    bytes[12..].copy_from_slice(content);
    bytes
}

// A tag, two numbers and what a machine has.
fn inspected_body(number: u64, count: u64, sight: &[u8; SIGHT_BYTES]) -> [u8; SIGHT]
    ensures { result ≡ 0x56 ∷ big_bytes 8 number ++ (big_bytes 8 count ++ sight.now) }
{
    let mut bytes = [0; SIGHT];
    bytes[0] = 0x56;
    bytes[1..9].copy_from_slice(&spelled_number(number));
    bytes[9..17].copy_from_slice(&spelled_number(count));
    bytes[17..].copy_from_slice(sight);
    bytes
}
