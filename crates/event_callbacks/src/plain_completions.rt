//! Completions as plain functions, for a holder whose closures need nothing of their own.
ghost use Rattle.std.specs.Prelude.{◌≡◌, IsTrue};
ghost use Rattle.event_callbacks.specs.declared.devices.TheConstants.{SENT, SECTOR, WRITTEN};
ghost use Rattle.event_callbacks.specs.Completions.{is_due, done_of};
ghost use Rattle.event_callbacks.specs.Keeping.{kind_of};

use crate::devices::{Devices, Done};

/// The terminal of a port has accepted a byte.
pub fn sent(mut devices: Devices, done: Done) -> Devices
    requires kind { kind_of done ≡ SENT }
    requires due { IsTrue (is_due devices done) }
    ensures { result ≡ done_of devices done }
{
    let Done::Sent(port) = done else {
        unreachable!()
    };
    let port = &mut devices.ports[port as usize];
    port.sent().unwrap();
    devices
}

/// A sector comes under the head.
pub fn sector(mut devices: Devices, done: Done) -> Devices
    requires kind { kind_of done ≡ SECTOR }
    requires due { IsTrue (is_due devices done) }
    ensures { result ≡ done_of devices done }
{
    let Done::Sector(sector, bytes) = done else {
        unreachable!()
    };
    devices.disk.sector(sector, bytes).unwrap();
    devices
}

/// A write is on the disk.
pub fn written(mut devices: Devices, done: Done) -> Devices
    requires kind { kind_of done ≡ WRITTEN }
    requires due { IsTrue (is_due devices done) }
    ensures { result ≡ done_of devices done }
{
    let Done::Written(number) = done else {
        unreachable!()
    };
    devices.disk.written(number).unwrap();
    devices
}
