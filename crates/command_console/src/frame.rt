//! How an image, or a wish for what is done with a file, is handed to the command that reads and writes files.
ghost use Rattle.std.specs.Prelude.{◌≡◌, IfOk, string_bytes};
ghost use Rattle.command_console.specs.Frames.{answer_of, between, frame_of, unsaved_text, wish_of};

use i8080_words::{Fault, R};
use std::alloc::{AllocError, Global};

/// What is answered to one who saves the disk of a drive: its image, for the command that writes files, or why it cannot be had.
pub(crate) fn answer(
    alloc: Global,
    mark: &str,
    drive: u8,
    image: &R<Vec<u8>>,
    path: &[u8],
) -> Result<String, AllocError>
    ensures { IfOk result (λ text. string_bytes text ≡ answer_of mark.now drive image.now path.now) }
{
    match image {
        Ok(image) => frame(alloc, mark, drive, image, path),
        Err(fault) => unsaved(alloc, drive, *fault),
    }
}

// Why an image of a drive cannot be had.
fn unsaved(alloc: Global, drive: u8, fault: Fault) -> Result<String, AllocError>
    ensures { IfOk result (λ text. string_bytes text ≡ unsaved_text drive fault) }
{
    let reason = match fault {
        Fault::Unknown => return format!(in alloc; "the machine has no drive {drive}"),
        Fault::OutOfMemory => "the disk cannot be read: there is no memory for it",
        Fault::Stalled => "the disk cannot be saved: the copy of it that is saved is behind",
        _ => "the disk cannot be read",
    };
    String::from_str(alloc, reason)
}

// A text that begins with the mark twice and ends with it once, and has between them, in hexadecimal digits, the number of the drive, its
// image and the name of a file.
fn frame(
    alloc: Global,
    mark: &str,
    drive: u8,
    image: &[u8],
    path: &[u8],
) -> Result<String, AllocError>
    ensures { IfOk result (λ text. string_bytes text ≡ frame_of mark.now drive image.now path.now) }
{
    let drive = hex::encode(alloc, &[drive])?;
    let image = hex::encode(alloc, image)?;
    let path = hex::encode(alloc, path)?;
    let mut text = String::new(alloc);
    text.push_str(mark)?;
    text.push_str(mark)?;
    text.push_str(drive.as_str())?;
    text.push_str(image.as_str())?;
    text.push_str(path.as_str())?;
    text.push_str(mark)?;
    Ok(text)
}

/// What is answered to one who wants something to be done with a file: a word, and the name of the file in hexadecimal digits, between marks.
pub(crate) fn wish(alloc: Global, mark: &str, word: &str, path: &[u8]) -> Result<String, AllocError>
    ensures { IfOk result (λ text. string_bytes text ≡ wish_of mark.now word.now path.now) }
{
    let path = hex::encode(alloc, path)?;
    wish_for(alloc, mark, word, path.as_str())
}

fn wish_for(alloc: Global, mark: &str, word: &str, path: &str) -> Result<String, AllocError>
    ensures { IfOk result (λ text. string_bytes text ≡ between mark.now word.now path.now) }
{
    format!(in alloc; "{mark}{mark}{word} {path}{mark}")
}
