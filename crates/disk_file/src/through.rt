//! One change of a file, kept on the disk before the next.
ghost use Rattle.std.specs.Prelude.{◌≡◌, ◌<◌, ◌≤◌, length, take, OnOk, IsErrOf};
ghost use Rattle.disk_file.specs.Device.{Cut, Holds, LeavesOnly, Only, Torn};

use crate::{CrashableFile, DeviceError};

/// Writes, and waits until it is on the disk. Meanwhile a crash may tear the write, and nothing else.
pub fn write_through<D: CrashableFile>(
    device: &mut D,
    at: usize,
    bytes: &[u8],
) -> Result<(), DeviceError>
    requires here { at ≤ length (D.seen device.old) }
    requires durable { Only (D.seen device.old) (D.may_leave device.old) }
    ensures written { OnOk result (Holds (D.seen device.old) at bytes.now (D.seen device.new)) }
    ensures durable { OnOk result (Only (D.seen device.new) (D.may_leave device.new)) }
    ensures any_moment { LeavesOnly D.moment D.left_since device.old device.new
        (Torn at (length bytes.now) (D.seen device.old)) }
    ensures after { (c : _) → D.may_leave device.new c → Torn at (length bytes.now) (D.seen device.old) c }
    ensures failed { IsErrOf result DeviceError.Failed → D.faults device.old < D.faults device.new }
    ensures time { D.faults device.old ≤ D.faults device.new }
    ensures full { IsErrOf result DeviceError.Full → ⊥ }
    ensures short { IsErrOf result DeviceError.Short → ⊥ }
{
    device.write_at(at, bytes)?;
    device.sync()
}

/// Cuts the file, and waits until that is on the disk.
pub fn cut_through<D: CrashableFile>(device: &mut D, len: usize) -> Result<(), DeviceError>
    requires here { len ≤ length (D.seen device.old) }
    requires durable { Only (D.seen device.old) (D.may_leave device.old) }
    ensures cut { OnOk result (D.seen device.new ≡ take len (D.seen device.old)) }
    ensures durable { OnOk result (Only (D.seen device.new) (D.may_leave device.new)) }
    ensures any_moment { LeavesOnly D.moment D.left_since device.old device.new (Cut len (D.seen device.old)) }
    ensures after { (c : _) → D.may_leave device.new c → Cut len (D.seen device.old) c }
    ensures failed { IsErrOf result DeviceError.Failed → D.faults device.old < D.faults device.new }
    ensures time { D.faults device.old ≤ D.faults device.new }
    ensures full { IsErrOf result DeviceError.Full → ⊥ }
    ensures short { IsErrOf result DeviceError.Short → ⊥ }
{
    device.cut(len)?;
    device.sync()
}
