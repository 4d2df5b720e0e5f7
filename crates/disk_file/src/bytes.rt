//! Bytes that a write changes in their place.
ghost use Rattle.std.specs.Prelude.{◌≡◌, ◌≤◌, ◌+◌, length, max, take, OnErr, OnOk};
ghost use Rattle.disk_file.specs.Device.{Holds};

use std::alloc::AllocError;

// Makes them no fewer than so many, by zeros after them.
pub(crate) fn lengthen(bytes: &mut Vec<u8>, len: usize) -> Result<(), AllocError>
    ensures length { OnOk result (length bytes.new.items ≡ max (length bytes.old.items) len) }
    ensures front { OnOk result (take (length bytes.old.items) bytes.new.items ≡ bytes.old.items) }
    ensures unchanged { OnErr result (bytes.new.items ≡ bytes.old.items) }
{
    if len > bytes.len() {
        bytes.resize(len, 0)?;
    }
    Ok(())
}

// Puts others in the place of those from an offset on.
pub(crate) fn write_over(bytes: &mut Vec<u8>, at: usize, others: &[u8])
    requires { at + length others.now ≤ length bytes.old.items }
    ensures { Holds bytes.old.items at others.now bytes.new.items }
{
    bytes[at..at + others.len()].copy_from_slice(others);
}
