//! The frame that a body spells.
ghost use Rattle.std.specs.Prelude.{◌≡◌, IfErr, IfOk, option_map};
ghost use Rattle.i8080_words.specs.declared.refusal.Fault.TheVariants.{Malformed};
ghost use Rattle.host_frames.specs.Frames.{IsBodyOf, Said, said_by};
ghost use Rattle.host_frames.specs.Reading as grammar;

use crate::fields::{
    address_of, begin_of, byte_of, content_of, generation_of, inspect_of, join_of, key_of,
    number_of, port_count_of, progress_of, sight_of, tick_of,
};
use crate::frame::{Frame, Notice, Transfer};
use crate::report::report_of;
use crate::spelling::MOST_BYTES;
use disk_dcdd::SectorWrite;
use i8080_words::{Fault, R};
use shared_disk::SectorRead;

/// The frame that a body spells. `Malformed` if it spells none.
pub fn frame_of(body: &[u8]) -> R<Frame<'_>>
    ensures found { IfOk result (λ f. IsBodyOf (said_by f) body.now) }
    ensures none { IfErr result (λ fault. (fault ≡ Malformed) × ((f : Said) → IsBodyOf f body.now → ⊥)) }
{
    read_body(body).ok_or(Fault::Malformed)
}

#[tactic(auto, unfolding(crate::specs::Reading::frame_at))]
fn read_body(body: &[u8]) -> Option<Frame<'_>>
    ensures { option_map said_by result ≡ grammar.frame_at body.now }
{
    let [tag, rest @ ..] = body else {
        return None;
    };
    if *tag == 0x50 {
        return packet_of(rest);
    }
    if let Some(notice) = notice_of(*tag, rest) {
        return Some(Frame::Notice(notice));
    }
    let transfer = transfer_of(*tag, rest)?;
    Some(Frame::Transfer(transfer))
}

fn packet_of(rest: &[u8]) -> Option<Frame<'_>>
    ensures { option_map said_by result ≡ grammar.packet_at rest.now }
{
    let [host, bytes @ ..] = rest else {
        return None;
    };
    if bytes.len() + 2 > MOST_BYTES {
        return None;
    }
    Some(Frame::Packet { host: *host, bytes })
}

#[tactic(auto, unfolding(crate::specs::Reading::notice_at))]
fn notice_of(tag: u8, rest: &[u8]) -> Option<Notice>
    ensures { result ≡ grammar.notice_at tag rest.now }
{
    match tag {
        0x55 => Some(Notice::Suspect(generation_of(rest)?)),
        0x4f => Some(Notice::Won(generation_of(rest)?)),
        0x4c => Some(Notice::Lost(generation_of(rest)?)),
        0x58 => Some(Notice::Gone(byte_of(rest)?)),
        0x4e => {
            let (generation, host) = begin_of(rest)?;
            Some(Notice::Begin { generation, host })
        }
        0x4a => {
            let (generation, host, drives, count) = join_of(rest)?;
            Some(Notice::Join {
                generation,
                host,
                drives,
                count,
            })
        }
        0x45 => Some(Notice::Report(report_of(rest)?)),
        0x52 => {
            let (host, entries, count) = progress_of(rest)?;
            Some(Notice::Progress {
                host,
                entries,
                count,
            })
        }
        0x54 => {
            let (number, speed) = tick_of(rest)?;
            Some(Notice::Tick { number, speed })
        }
        0x5a => rest.is_empty().then_some(Notice::Stop),
        _ => None,
    }
}

#[tactic(auto, unfolding(crate::specs::Reading::transfer_at))]
fn transfer_of(tag: u8, rest: &[u8]) -> Option<Transfer>
    ensures { result ≡ grammar.transfer_at tag rest.now }
{
    match tag {
        0x42 => {
            let (port, byte, number) = key_of(rest)?;
            Some(Transfer::Byte { port, number, byte })
        }
        0x4b => {
            let (port, byte, index) = key_of(rest)?;
            Some(Transfer::Key { port, index, byte })
        }
        0x41 => {
            let (port, count) = port_count_of(rest)?;
            Some(Transfer::Accepted { port, count })
        }
        0x57 => {
            let (address, number, bytes) = content_of(rest)?;
            Some(Transfer::Write(SectorWrite {
                number,
                drive: address.drive,
                track: address.track,
                sector: address.sector,
                bytes,
            }))
        }
        0x53 => {
            let (address, number, bytes) = content_of(rest)?;
            Some(Transfer::Sector(SectorRead {
                number,
                drive: address.drive,
                track: address.track,
                sector: address.sector,
                bytes,
            }))
        }
        0x77 => Some(Transfer::Written(number_of(rest)?)),
        0x66 => Some(Transfer::Failed(number_of(rest)?)),
        0x47 => Some(Transfer::Get(address_of(rest)?)),
        0x49 => {
            let (page, number) = inspect_of(rest)?;
            Some(Transfer::Inspect { number, page })
        }
        0x56 => {
            let (number, count, bytes) = sight_of(rest)?;
            Some(Transfer::Inspected {
                number,
                count,
                bytes,
            })
        }
        _ => None,
    }
}
