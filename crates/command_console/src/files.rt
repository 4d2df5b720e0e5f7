//! The files that are disks of drives: opened before anything runs, and ended once all has.
ghost use Rattle.std.specs.Prelude.{◌≡◌, IfOk};
ghost use Rattle.command_console.specs.Attached.{HasAttached};
ghost use Rattle.disk_file.specs.Names.{AreInFiles};

use command_io::{Failure, ScriptInput};
use command_line::ConsoleOrder;
use disk_dcdd::SectorWrite;
use disk_file::{
    Attached, DriveFiles, FileDevice, OpenError, are_named, end_image, is_named, open_drives,
    refusal_text,
};
use shared_disk::MemoryStore;
use std::alloc::{AllocError, Global};
use std::io::Write;

/// The drives of a disk, some of them in files, and what padded the images of these.
#[derive(Drop)]
pub(crate) struct Files {
    pub(crate) drives: DriveFiles<FileDevice>,
    pub(crate) paddings: Vec<Vec<u8>>,
}

/// Opens the files of an order. The drives that have one begin with what it has; all else is as it was.
pub(crate) fn attach(
    alloc: Global,
    files: &HostRuntime,
    order: &ConsoleOrder,
    input: ScriptInput,
) -> Result<(ScriptInput, Files), Failure>
    ensures sectors { IfOk result (λ r. HasAttached order.now.attached.items input r.0) }
    ensures files { IfOk result (λ r. AreInFiles order.now.attached.items r.1.drives) }
{
    let Attached {
        drives,
        sectors,
        paddings,
    } = open_files(alloc, files, order, &input)?;
    let input = with_sectors(order, input, &sectors)?;
    Ok((input, Files { drives, paddings }))
}

// Opens the files of an order, and says which of them is refused, and why.
fn open_files(
    alloc: Global,
    files: &HostRuntime,
    order: &ConsoleOrder,
    input: &ScriptInput,
) -> Result<Attached, Failure>
    ensures { IfOk result (λ attached. AreInFiles order.now.attached.items attached.drives) }
{
    let drives = input.script.setup.guest.drives;
    let mut boot = MemoryStore::at_boot(alloc, drives, &input.sectors)?;
    match open_drives(
        alloc,
        files,
        &order.attached,
        !order.unsynced,
        &mut boot,
        drives,
    ) {
        Ok(attached) => Ok(attached),
        Err(refused) => Err(refusal(alloc, name_of(order, refused.drive), &refused.why)),
    }
}

// The name of a drive's file.
fn name_of(order: &ConsoleOrder, drive: u8) -> &str {
    match order.attached.get(usize::from(drive)) {
        Some(name) => name.as_str(),
        None => "",
    }
}

// Why a file is refused.
fn refusal(alloc: Global, name: &str, why: &OpenError) -> Failure {
    match refusal_text(alloc, name, why) {
        Some(text) => Failure::CommandLine(text),
        None => Failure::OutOfMemory,
    }
}

// An input with these sectors after its own, if each of them is of a drive that has a file.
fn with_sectors(
    order: &ConsoleOrder,
    input: ScriptInput,
    sectors: &[SectorWrite],
) -> Result<ScriptInput, Failure>
    ensures { IfOk result (HasAttached order.now.attached.items input) }
{
    if !are_named(&order.attached, sectors) {
        return Err(Failure::Stalled);
    }
    let mut input = input;
    input.sectors.extend_from_slice(sectors)?;
    Ok(input)
}

/// Ends the files of an order, which nobody has open any more: each is an image then, padded as it was. Says which is not, and why.
pub(crate) fn end_files<N: Write + Drop>(
    alloc: Global,
    files: &HostRuntime,
    order: &ConsoleOrder,
    paddings: Vec<Vec<u8>>,
    notes: &mut N,
) -> Result<(), Failure> {
    let mut is_ended = true;
    let mut drive = 0_u8;
    for padding in paddings {
        if is_named(&order.attached, drive) {
            let name = name_of(order, drive);
            is_ended &= end_file(alloc, files, name, padding, notes);
        }
        drive = drive.saturating_add(1);
    }
    if is_ended {
        Ok(())
    } else {
        Err(Failure::InputOrOutput)
    }
}

// Ends a file, and says so if that fails.
fn end_file<N: Write + Drop>(
    alloc: Global,
    files: &HostRuntime,
    name: &str,
    padding: Vec<u8>,
    notes: &mut N,
) -> bool {
    let Err(why) = end_image(alloc, files, name, padding) else {
        return true;
    };
    let _ = tell(alloc, name, &why, notes);
    false
}

// Says why a file is not ended.
fn tell<N: Write + Drop>(
    alloc: Global,
    name: &str,
    why: &OpenError,
    notes: &mut N,
) -> Result<(), AllocError> {
    if let Some(text) = refusal_text(alloc, name, why) {
        let line = format!(in alloc;
            "\r\n{text}; what it was told is in its journal, which the next opening takes up\r\n"
        )?;
        let _ = notes.write_all(line.as_bytes());
    }
    Ok(())
}
