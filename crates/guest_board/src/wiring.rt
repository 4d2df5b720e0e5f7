//! What the processor of a board is wired to.

ghost use Rattle.std.specs.Prelude.{◌≡◌, ◌<◌, IsTrue};
ghost use Rattle.guest_board.specs.Ports as table;
ghost use Rattle.serial_2sio.specs.Port as serial;
ghost use Rattle.event_callbacks.specs.Completions.{port_of};
ghost use Rattle.event_callbacks.specs.declared.devices.TheConstants.{PORTS};
ghost use Rattle.i8080_words.specs.Effects.Access.{Input};
ghost use Rattle.guest_board.specs.Fields.{wired_of, versioned_of};
ghost use Rattle.guest_board.specs.Wiring.{input_behind, versioned_after};

use crate::ports::{Device, FIRST_STATUS, OPEN_BUS};
use event_callbacks::{Devices, Operation, PORTS};
use guest_memory::Memory;
use i8080_instructions::Bus;
use i8080_words::GREATEST_NUMBER;

/// Memory, the devices, how many bytes each port was sent, the sense switches, and the operation that this step has given.
#[derive(Drop)]
pub(crate) struct Wiring {
    pub(crate) memory: Memory,
    pub(crate) devices: Devices,
    pub(crate) issued: [u64; PORTS],
    pub(crate) sense: u8,
    pub(crate) given: Option<Operation>,
}

// A read of the status register of a port.
fn port_status(devices: &Devices, port: u8) -> u8
    requires { port < PORTS }
    ensures { result ≡ serial.status_of (port_of devices.now port) }
{
    let acia = &devices.ports[port as usize];
    acia.status()
}

// A read of the data register of a port.
fn port_data_in(devices: &mut Devices, port: u8) -> u8
    requires { port < PORTS }
    ensures byte { result ≡ serial.data_in_answer (port_of devices.old port) }
    ensures after { devices.new
        ≡ table.with_port devices.old port (serial.after_data_in (port_of devices.old port)) }
{
    let acia = &mut devices.ports[port as usize];
    acia.data_in()
}

// A write of the control register of a port.
fn port_control(devices: &mut Devices, port: u8, byte: u8)
    requires { port < PORTS }
    ensures { devices.new
        ≡ table.with_port devices.old port (serial.after_control (port_of devices.old port) byte) }
{
    let acia = &mut devices.ports[port as usize];
    acia.control(byte);
}

impl Wiring {
    // A write of the data register of a port: the byte that it sends is the operation of this step.
    fn send(&mut self, port: u8, byte: u8)
        requires { port < PORTS }
        ensures memory { self.new.memory ≡ self.old.memory }
        ensures wired { wired_of self.new ≡ table.after_serial_data (wired_of self.old) port byte }
    {
        let issued = self.issued[port as usize];
        if issued >= GREATEST_NUMBER {
            return;
        }
        let acia = &mut self.devices.ports[port as usize];
        let Some(byte) = acia.data_out(byte) else {
            return;
        };
        let number = issued + 1;
        self.issued[port as usize] = number;
        self.given = Some(Operation::Byte { port, number, byte });
    }

    // A write of the data register of the drive: the write that it issues is the operation of this step.
    fn write_disk(&mut self, byte: u8)
        ensures memory { self.new.memory ≡ self.old.memory }
        ensures wired { wired_of self.new ≡ table.after_disk_data (wired_of self.old) byte }
    {
        if self.devices.disk.issued() >= GREATEST_NUMBER {
            return;
        }
        self.given = match self.devices.disk.data_out(byte) {
            Some(write) => Some(Operation::Write(write)),
            None => None,
        };
    }

    // Looks at a port that guests seldom poll: whether a read would change nothing, and then the byte that it would give. As a call,
    // since LLVM would make one table of it and of the test for the first port; and the byte is in memory, since LLVM would keep
    // the two results together, and test both ports' once more.
    #[cold]
    #[inline(never)]
    fn look_further(&self, port: u8, byte: &mut u8) -> bool
        ensures byte { IsTrue result → byte.new ≡ input_behind (versioned_of self.now) port }
        ensures leaves { IsTrue result → versioned_after (Input port) (versioned_of self.now) ≡ versioned_of self.now }
    {
        match Device::at(port) {
            Device::SerialControl(port) => *byte = port_status(&self.devices, port),
            Device::DiskSelect => *byte = self.devices.disk.status(),
            Device::SenseSwitches => *byte = self.sense,
            Device::Nothing => *byte = OPEN_BUS,
            Device::SerialData(_) | Device::DiskControl | Device::DiskData => return false,
        }
        true
    }
}

impl Bus for Wiring {
    ghost use Rattle.guest_board.specs.Wiring.{Versioned, byte_behind};

    ghost State = { Versioned };

    ghost state = { versioned_of };

    ghost byte_at = { byte_behind };

    ghost input_byte = { input_behind };

    ghost after = { versioned_after };

    fn read(&self, address: u16) -> u8 {
        self.memory.read(address)
    }

    fn read_byte_after(&self, address: u16) -> u8 {
        self.memory.read_byte_after(address)
    }

    fn read_word(&self, address: u16) -> u16 {
        self.memory.read_word(address)
    }

    fn read_word_after(&self, address: u16) -> u16 {
        self.memory.read_word_after(address)
    }

    fn write(&mut self, address: u16, byte: u8) {
        self.memory.write(address, byte);
    }

    fn input(&mut self, port: u8) -> u8 {
        match Device::at(port) {
            Device::SerialControl(port) => port_status(&self.devices, port),
            Device::SerialData(port) => port_data_in(&mut self.devices, port),
            Device::DiskSelect => self.devices.disk.status(),
            Device::DiskControl => self.devices.disk.position(),
            Device::DiskData => self.devices.disk.data_in(),
            Device::SenseSwitches => self.sense,
            Device::Nothing => OPEN_BUS,
        }
    }

    fn look(&self, port: u8) -> Option<u8> {
        if port == FIRST_STATUS {
            return Some(port_status(&self.devices, 0));
        }
        let mut byte = OPEN_BUS;
        if !self.look_further(port, &mut byte) {
            return None;
        }
        Some(byte)
    }

    fn output(&mut self, port: u8, byte: u8) {
        if self.given.is_some() {
            return;
        }
        match Device::at(port) {
            Device::SerialControl(port) => port_control(&mut self.devices, port, byte),
            Device::SerialData(port) => self.send(port, byte),
            Device::DiskSelect => self.devices.disk.select(byte),
            Device::DiskControl => self.devices.disk.command(byte),
            Device::DiskData => self.write_disk(byte),
            Device::SenseSwitches | Device::Nothing => {}
        }
    }
}
