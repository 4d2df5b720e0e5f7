//! An entry in bytes.

ghost use Rattle.std.specs.Prelude.{◌≡◌, ◌+◌, ◌<◌, ◌≤◌, ◌∷◌, ◌++◌, length, vec_len, vec_capacity, Some, OnOk, OnErr, IfOk, IfErr, Ok, ok_or};
ghost use Rattle.byteorder.specs.Endian.{big_bytes};
ghost use Rattle.i8080_words.specs.declared.refusal.Fault.TheVariants.{Malformed, OutOfMemory};
ghost use Rattle.log_entry.specs.declared.entry.Entry.{Entry};
ghost use Rattle.log_entry.specs.declared.entry.Entry.TheVariants as entry;
ghost use Rattle.log_entry.specs.Spelling.{entry_at, IsEntry, size_of, spelling};

use crate::entry::Entry;
use crate::fields::entry_of;
use crate::numbers::spelled_number;
use disk_dcdd::SECTOR_BYTES;
use i8080_words::{Fault, R};

/// How many bytes the spelling of an entry with this tag has; `None` if no entry has this tag.
pub fn size(tag: u8) -> Option<usize>
    ensures { result ≡ size_of tag }
{
    match tag {
        0 => Some(9),
        1 => Some(11),
        2 => Some(10),
        3 => Some(156),
        4 => Some(17),
        5 => Some(19),
        _ => None,
    }
}

impl Entry {
    /// How many bytes the entry's spelling has.
    pub fn spelled_length(&self) -> usize
        ensures length { result ≡ length (spelling self.now) }
        ensures within { result ≤ 156 }
    {
        match self {
            Entry::Mark { .. } => 9,
            Entry::Rx { .. } => 11,
            Entry::Sent { .. } => 10,
            Entry::Sector { bytes, .. } => {
                let bytes: &[u8] = bytes;
                19 + bytes.len()
            }
            Entry::Written { .. } => 17,
            Entry::Read { .. } => 19,
        }
    }

    /// Appends the entry's spelling. Allocates no memory if the bytes fit, and otherwise only once.
    pub fn write(&self, out: &mut Vec<u8>) -> R<()>
        ensures ok { OnOk result (out.new.items ≡ out.old.items ++ spelling self.now) }
        ensures err { OnErr result (out.new.items ≡ out.old.items) }
        ensures only_memory { IfErr result (λ fault. fault ≡ OutOfMemory) }
        ensures full { OnErr result (vec_capacity out.old < vec_len out.old + length (spelling self.now)) }
    {
        match self {
            Entry::Mark { count } => {
                let text = head(0, *count);
                out.extend_from_slice(&text)?;
            }
            Entry::Rx { count, port, byte } => {
                let text = rx_bytes(*count, *port, *byte);
                out.extend_from_slice(&text)?;
            }
            Entry::Sent { count, port } => {
                let text = sent_bytes(*count, *port);
                out.extend_from_slice(&text)?;
            }
            Entry::Sector {
                count,
                drive,
                sector,
                number,
                bytes,
            } => {
                let text = sector_bytes(*count, *drive, *sector, *number, bytes);
                out.extend_from_slice(&text)?;
            }
            Entry::Written { count, number } => {
                let text = written_bytes(*count, *number);
                out.extend_from_slice(&text)?;
            }
            Entry::Read {
                count,
                drive,
                sector,
                number,
            } => {
                let text = read_bytes(*count, *drive, *sector, *number);
                out.extend_from_slice(&text)?;
            }
        }
        Ok(())
    }

    /// The entry that the bytes spell. `Malformed` if they spell none, or if bytes follow one.
    pub fn read(bytes: &[u8]) -> R<Entry>
        ensures found { IfOk result (λ e. IsEntry e × (bytes.now ≡ spelling e)) }
        ensures only { (e : Entry) → IsEntry e → bytes.now ≡ spelling e → result ≡ Ok e }
        ensures malformed { IfErr result (λ fault. fault ≡ Malformed) }
        ensures exact { result ≡ ok_or (entry_at bytes.now) Malformed }
    {
        entry_of(bytes).ok_or(Fault::Malformed)
    }
}

// A tag and a count.
fn head(tag: u8, count: u64) -> [u8; 9]
    ensures { result ≡ tag ∷ big_bytes 8 count }
{
    let mut bytes = [0; 9];
    bytes[0] = tag;
    bytes[1..].copy_from_slice(&spelled_number(count));
    bytes
}

fn rx_bytes(count: u64, port: u8, byte: u8) -> [u8; 11]
    ensures { result ≡ spelling (entry.Rx count port byte) }
{
    let mut bytes = [0; 11];
    bytes[..9].copy_from_slice(&head(1, count));
    bytes[9] = port;
    bytes[10] = byte;
    bytes
}

fn sent_bytes(count: u64, port: u8) -> [u8; 10]
    ensures { result ≡ spelling (entry.Sent count port) }
{
    let mut bytes = [0; 10];
    bytes[..9].copy_from_slice(&head(2, count));
    bytes[9] = port;
    bytes
}

fn sector_bytes(
    count: u64,
    drive: u8,
    sector: u8,
    number: u64,
    content: &[u8; SECTOR_BYTES],
) -> [u8; 156]
    ensures { result ≡ spelling (entry.Sector count drive sector number content.now) }
{
    let mut bytes = [0; 156];
    bytes[..9].copy_from_slice(&head(3, count));
    bytes[9] = drive;
    bytes[10] = sector;
    bytes[11..19].copy_from_slice(&spelled_number(number));
    bytes[19..].copy_from_slice(content);
    bytes
}

fn written_bytes(count: u64, number: u64) -> [u8; 17]
    ensures { result ≡ spelling (entry.Written count number) }
{
    let mut bytes = [0; 17];
    bytes[..9].copy_from_slice(&head(4, count));
    bytes[9..].copy_from_slice(&spelled_number(number));
    bytes
}

fn read_bytes(count: u64, drive: u8, sector: u8, number: u64) -> [u8; 19]
    ensures { result ≡ spelling (entry.Read count drive sector number) }
{
    let mut bytes = [0; 19];
    bytes[..9].copy_from_slice(&head(5, count));
    bytes[9] = drive;
    bytes[10] = sector;
    bytes[11..].copy_from_slice(&spelled_number(number));
    bytes
}
