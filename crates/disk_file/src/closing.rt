//! Ending an image: its journal is taken up, and it is padded as it was.
ghost use Rattle.std.specs.Prelude.{◌≡◌, ◌++◌, IfOk};
ghost use Rattle.disk_file.specs.FileBytes.{bytes_in};
ghost use Rattle.disk_file.specs.Kept.{bytes_of};

use crate::file_device::FileDevice;
use crate::opening::{ImageOptions, OpenImage, open_image};
use crate::refusal::OpenError;
use crate::write_through;
use std::alloc::Global;

/// Ends a session. The file is then an ordinary image of the disk, padded as it was.
pub fn close_image(alloc: Global, image: OpenImage) -> Result<FileDevice, OpenError>
    ensures image { IfOk result (λ device. bytes_in device ≡ bytes_of image.store.records.items ++ image.padding.items) }
{
    let OpenImage { store, padding, .. } = image;
    let (mut device, ended) = store.close(alloc);
    ended?;
    pad(&mut device, &padding)?;
    Ok(device)
}

// Writes bytes behind those of a file.
fn pad(device: &mut FileDevice, padding: &[u8]) -> Result<(), OpenError>
    ensures padded { IfOk result (λ _. bytes_in device.new ≡ bytes_in device.old ++ padding.now) }
{
    let end = device.size();
    write_through(device, end, padding)?;
    Ok(())
}

// An image that is there is opened to be ended, up to where its journal was cut or spoiled.
const TO_END: ImageOptions = ImageOptions {
    is_made: false,
    is_synced: true,
    takes_spoiled: true,
};

/// Takes up what a crash has left in the journal of an image, and ends it. A missing file is not made. Returns whether the journal was
/// cut or spoiled; then what was before the damage is taken up.
pub fn recover_image(alloc: Global, files: &HostRuntime, path: &str) -> Result<bool, OpenError> {
    let image = open_image(alloc, files, path, TO_END)?;
    let is_spoiled = image.is_spoiled;
    close_image(alloc, image)?;
    Ok(is_spoiled)
}

/// The same of an image that was padded by these bytes before its journal began.
pub fn end_image(
    alloc: Global,
    files: &HostRuntime,
    path: &str,
    padding: Vec<u8>,
) -> Result<(), OpenError> {
    let image = open_image(alloc, files, path, TO_END)?;
    close_image(alloc, OpenImage { padding, ..image })?;
    Ok(())
}
