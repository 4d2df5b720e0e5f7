//! The bodies of notices.
ghost use Rattle.std.specs.Prelude.{◌≡◌, ◌≤◌, ◌∷◌, ◌++◌, true, length, IfErr, OnOk};
ghost use Rattle.byteorder.specs.Endian.{big_bytes};
ghost use Rattle.i8080_words.specs.declared.refusal.Fault.TheVariants.{OutOfMemory};
ghost use Rattle.host_frames.specs.Frames.{notice_body};
ghost use Rattle.host_frames.specs.declared.frame.Notice.TheVariants as notice;

use crate::frame::Notice;
use crate::report::{REPORT_BYTES, report_body};
use crate::spelling::MOST_BYTES;
use byteorder::{BigEndian, ByteOrder};
use i8080_words::R;
use log_entry::spelled_number;

/// How many bytes the body of a notice has.
pub(crate) fn notice_length(notice: &Notice) -> usize
    ensures length { result ≡ length (notice_body notice.now) }
    ensures within { result ≤ MOST_BYTES }
{
    match notice {
        Notice::Suspect(_) | Notice::Won(_) | Notice::Lost(_) => 5,
        Notice::Gone(_) => 2,
        Notice::Begin { .. } => 6,
        Notice::Join { .. } => 15,
        Notice::Report(_) => REPORT_BYTES,
        Notice::Progress { .. } => 18,
        Notice::Tick { .. } => 17,
        Notice::Stop => 1,
    }
}

/// Appends the body of a notice.
pub(crate) fn write_notice(out: &mut Vec<u8>, notice: &Notice) -> R<()>
    ensures ok { OnOk result (out.new.items ≡ out.old.items ++ notice_body notice.now) }
    ensures full { IfErr result (λ fault. fault ≡ OutOfMemory) }
{
    match notice {
        Notice::Suspect(generation) => append(out, &of_generation(0x55, *generation)),
        Notice::Won(generation) => append(out, &of_generation(0x4f, *generation)),
        Notice::Lost(generation) => append(out, &of_generation(0x4c, *generation)),
        Notice::Gone(host) => append(out, &[0x58, *host]),
        Notice::Begin { generation, host } => append(out, &begin_body(*generation, *host)),
        Notice::Join {
            generation,
            host,
            drives,
            count,
        } => append(out, &join_body(*generation, *host, *drives, *count)),
        Notice::Report(report) => append(out, &report_body(report)),
        Notice::Progress {
            host,
            entries,
            count,
        } => append(out, &progress_body(*host, *entries, *count)),
        Notice::Tick { number, speed } => append(out, &tick_body(*number, *speed)),
        Notice::Stop => append(out, &[0x5a]),
    }
}

/// Appends some bytes.
pub(crate) fn append(out: &mut Vec<u8>, bytes: &[u8]) -> R<()>
    ensures ok { OnOk result (out.new.items ≡ out.old.items ++ bytes.now) }
    ensures full { IfErr result (λ fault. fault ≡ OutOfMemory) }
{
    out.extend_from_slice(bytes)?;
    Ok(())
}

// A tag and a generation.
fn of_generation(tag: u8, generation: u32) -> [u8; 5]
    ensures { result ≡ tag ∷ big_bytes 4 generation }
{
    let mut bytes = [0; 5];
    bytes[0] = tag;
    BigEndian::write_u32(&mut bytes[1..], generation);
    bytes
}

fn begin_body(generation: u32, host: u8) -> [u8; 6]
    ensures { result ≡ notice_body (notice.Begin generation host) }
{
    let mut bytes = [0; 6];
    bytes[..5].copy_from_slice(&of_generation(0x4e, generation));
    bytes[5] = host;
    bytes
}

fn join_body(generation: u32, host: u8, drives: u8, count: u64) -> [u8; 15]
    ensures { result ≡ notice_body (notice.Join generation host drives count) }
{
    let mut bytes = [0; 15];
    bytes[..5].copy_from_slice(&of_generation(0x4a, generation));
    bytes[5] = host;
    bytes[6] = drives;
    bytes[7..].copy_from_slice(&spelled_number(count));
    bytes
}

fn tick_body(number: u64, speed: u64) -> [u8; 17]
    ensures { result ≡ notice_body (notice.Tick number speed) }
{
    let mut bytes = [0; 17];
    bytes[0] = 0x54;
    bytes[1..9].copy_from_slice(&spelled_number(number));
    bytes[9..].copy_from_slice(&spelled_number(speed));
    bytes
}

fn progress_body(host: u8, entries: u64, count: u64) -> [u8; 18]
    ensures { result ≡ notice_body (notice.Progress host entries count) }
{
    let mut bytes = [0; 18];
    bytes[0] = 0x52;
    bytes[1] = host;
    bytes[2..10].copy_from_slice(&spelled_number(entries));
    bytes[10..].copy_from_slice(&spelled_number(count));
    bytes
}
