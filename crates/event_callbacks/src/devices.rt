//! The devices of the board together, and what they may have done.
ghost use Rattle.std.specs.Prelude.{◌≡◌, ◌≤◌};
ghost use Rattle.disk_dcdd.specs.declared.controller.TheConstants.{DRIVES};

use disk_dcdd::{Controller, SECTOR_BYTES};
use serial_2sio::Acia;

/// How many serial ports the board has; they are numbered from 0.
pub const PORTS: usize = 2;

/// The kind of a closure that completes `Done::Sent`.
pub const SENT: u8 = 0;

/// The kind of a closure that completes `Done::Sector`.
pub const SECTOR: u8 = 1;

/// The kind of a closure that completes `Done::Written`.
pub const WRITTEN: u8 = 2;

/// The serial ports of the MITS 88-2SIO and the controller of the MITS 88-DCDD.
#[derive(Drop)]
pub struct Devices {
    pub ports: [Acia; PORTS],
    pub disk: Controller,
}

/// What has been done at the far side of a device, and is not yet shown by the device.
#[derive(Clone, Copy)]
pub enum Done {
    /// The terminal of this port has accepted one of the bytes that were sent to it.
    Sent(u8),
    /// This sector of the selected drive comes under the head, with these bytes.
    Sector(u8, [u8; SECTOR_BYTES]),
    /// The write of this number is on the disk.
    Written(u64),
}

impl Devices {
    ghost use Rattle.event_callbacks.specs.Completions as table;

    /// The devices at boot, with one to four drives.
    pub fn new(drives: u8) -> Self
        requires some { 1 ≤ drives }
        requires few { drives ≤ DRIVES }
        ensures { result ≡ table.at_boot drives }
    {
        Devices {
            ports: [Acia::new(); PORTS],
            disk: Controller::new(drives),
        }
    }

    /// A copy of the devices. Allocates no memory.
    pub fn copy(&self) -> Self
        ensures { result ≡ self.now }
    {
        Devices {
            ports: self.ports,
            disk: self.disk.copy(),
        }
    }

    /// Whether this may have been done: whether a device is waiting for it.
    pub fn is_due(&self, done: &Done) -> bool
        ensures { result ≡ table.is_due self.now done.now }
    {
        match done {
            Done::Sent(port) => self
                .ports
                .get(*port as usize)
                .is_some_and(|port| port.unaccepted() > 0),
            Done::Sector(sector, _) => {
                self.disk.is_sector_due(*sector) && !self.disk.is_sector_busy(*sector)
            }
            Done::Written(number) => self.disk.is_outstanding(*number),
        }
    }
}
