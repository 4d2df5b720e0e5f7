//! Which device is at which port number.

ghost use Rattle.std.specs.Prelude.{◌≡◌};
ghost use Rattle.guest_board.specs.Ports as table;
ghost use Rattle.guest_board.specs.Wiring.{IsThere};

/// What IN returns if no device answers.
pub(crate) const OPEN_BUS: u8 = 0xff;

/// The status register of the first serial port, the console's, which most guests poll.
pub(crate) const FIRST_STATUS: u8 = 0x10;

/// What is at a port number (MITS 88-2SIO and 88-DCDD manuals). Serial ports are numbered from 0.
#[derive(Clone, Copy)]
pub(crate) enum Device {
    SerialControl(u8),
    SerialData(u8),
    DiskSelect,
    DiskControl,
    DiskData,
    SenseSwitches,
    Nothing,
}

impl Device {
    // The device at a port number.
    pub(crate) fn at(number: u8) -> Device
        ensures device { result ≡ table.device_at number }
        ensures there { IsThere result }
    {
        match number {
            FIRST_STATUS => Device::SerialControl(0),
            0x11 => Device::SerialData(0),
            0x12 => Device::SerialControl(1),
            0x13 => Device::SerialData(1),
            0x08 => Device::DiskSelect,
            0x09 => Device::DiskControl,
            0x0a => Device::DiskData,
            0xff => Device::SenseSwitches,
            _ => Device::Nothing,
        }
    }
}
