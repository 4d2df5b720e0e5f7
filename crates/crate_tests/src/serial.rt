//! What a program on the guest and a terminal see of a port.
mod walks;

use i8080_words::Fault;
use serial_2sio::{Acia, Receiver, WINDOW};
use std::process::Abort;

// A call of a port, with what it gives.
enum Call {
    Status(u8),
    Control(u8),
    ControlRegister(u8),
    Receive(u8),
    Read(u8),
    // A byte of the guest, and what goes out.
    Send(u8, Option<u8>),
    Accept,
    // An acceptance that is not due.
    AcceptNothing,
    Line(bool),
    Ready(bool),
}

// Makes a call.
fn make(rt: &impl Abort, port: &mut Acia, call: &Call) {
    match call {
        Call::Status(byte) => assert!(rt; port.status() == *byte),
        Call::Control(byte) => port.control(*byte),
        Call::ControlRegister(byte) => assert!(rt; port.control_register() == *byte),
        Call::Receive(byte) => port.receive(*byte),
        Call::Read(byte) => assert!(rt; port.data_in() == *byte),
        Call::Send(byte, sent) => assert!(rt; port.data_out(*byte) == *sent),
        Call::Accept => assert!(rt; port.sent() == Ok(())),
        Call::AcceptNothing => assert!(rt; port.sent() == Err(Fault::NotDue)),
        Call::Line(active) => assert!(rt; port.line() == *active),
        Call::Ready(ready) => assert!(rt; port.is_ready() == *ready),
    }
}

// Calls of a port from boot.
#[rattlefmt::skip]
static ROWS: [&[Call]; 5] = [
    // An overrun shows after the byte before it is read.
    &[Call::Status(0x02), Call::Receive(0x41), Call::Receive(0x42), Call::Status(0x03), Call::Read(0x41),
        Call::Status(0x23), Call::Read(0x41), Call::Status(0x02), Call::Control(0x95), Call::Receive(0x43),
        Call::Status(0x83), Call::Line(true)],
    // A master reset leaves the sent bytes unaccepted.
    &[Call::Send(0x48, Some(0x48)), Call::Status(0x02), Call::Send(0x49, Some(0x49)), Call::Control(0x03),
        Call::Status(0x02), Call::Accept, Call::Accept, Call::AcceptNothing, Call::Control(0x01),
        Call::Send(0xc8, Some(0x48))],
    // A full window sends nothing.
    &[Call::Send(0x41, Some(0x41)), Call::Send(0x42, Some(0x42)), Call::Send(0x43, Some(0x43)),
        Call::Send(0x44, Some(0x44)), Call::Send(0x45, Some(0x45)), Call::Send(0x46, Some(0x46)),
        Call::Send(0x47, Some(0x47)), Call::Send(0x48, Some(0x48)), Call::Send(0x49, Some(0x49)),
        Call::Send(0x4a, Some(0x4a)), Call::Send(0x4b, Some(0x4b)), Call::Send(0x4c, Some(0x4c)),
        Call::Send(0x4d, Some(0x4d)), Call::Send(0x4e, Some(0x4e)), Call::Send(0x4f, Some(0x4f)), Call::Status(0x02),
        Call::Send(0x50, Some(0x50)), Call::Status(0x00), Call::Ready(false), Call::Send(0x51, None), Call::Accept,
        Call::Status(0x02), Call::Accept, Call::Accept, Call::Accept, Call::Accept, Call::Accept, Call::Accept, Call::Accept,
        Call::Accept, Call::Accept, Call::Accept, Call::Accept, Call::Accept, Call::Accept, Call::Accept, Call::Accept,
        Call::AcceptNothing],
    // The first four formats, 7E2 7O2 7E1 7O1, have seven bits, and the others, 8N2 8N1 8E1 8O1, eight.
    &[Call::Control(0x01), Call::Send(0xc8, Some(0x48)), Call::Receive(0xc8), Call::Read(0x48), Call::Control(0x05),
        Call::Send(0xc8, Some(0x48)), Call::Receive(0xc8), Call::Read(0x48), Call::Control(0x09),
        Call::Send(0xc8, Some(0x48)), Call::Receive(0xc8), Call::Read(0x48), Call::Control(0x0d),
        Call::Send(0xc8, Some(0x48)), Call::Receive(0xc8), Call::Read(0x48), Call::Control(0x11),
        Call::Send(0xc8, Some(0xc8)), Call::Receive(0xc8), Call::Read(0xc8), Call::Control(0x15),
        Call::Send(0xc8, Some(0xc8)), Call::Receive(0xc8), Call::Read(0xc8), Call::Control(0x19),
        Call::Send(0xc8, Some(0xc8)), Call::Receive(0xc8), Call::Read(0xc8), Call::Control(0x1d),
        Call::Send(0xc8, Some(0xc8)), Call::Receive(0xc8), Call::Read(0xc8)],
    // An empty port gives the last byte again, and one that is reset has none.
    &[Call::ControlRegister(0x15), Call::Read(0x00), Call::Receive(0x41), Call::Read(0x41), Call::Read(0x41),
        Call::Status(0x02), Call::Receive(0x42), Call::Control(0x14), Call::Status(0x03), Call::Read(0x42),
        Call::Receive(0x42), Call::Control(0x15), Call::Status(0x03), Call::Read(0x42), Call::Receive(0x42),
        Call::Control(0x16), Call::Status(0x03), Call::Read(0x42), Call::Receive(0x42), Call::Control(0x17),
        Call::Status(0x02)],
];

#[test]
fn each_call_does_as_the_manual_says(rt: HostRuntime) {
    for calls in &ROWS {
        let mut port = Acia::new();
        for call in *calls {
            make(&rt, &mut port, call);
        }
    }
}

// A port with interrupts of the receiver, whose window is full, if this many bytes are.
fn rebuilt(unaccepted: u8) -> Result<Acia, Fault> {
    Acia::rebuild(0x95, 0x43, Receiver::FullLost, unaccepted)
}

#[test]
fn a_port_is_rebuilt_from_what_its_readers_give(rt: HostRuntime) {
    let mut port = rebuilt(WINDOW).expect(&rt, "sixteen fit");
    assert!(rt; port.control_register() == 0x95 && port.data_register() == 0x43);
    assert!(rt; port.receiver() == Receiver::FullLost && port.unaccepted() == 16);
    assert!(rt; port.status() == 0x81 && port.data_in() == 0x43);
    assert!(rt; port.receiver() == Receiver::Over);
    assert!(rt; matches!(rebuilt(17), Err(Fault::Malformed)));
}

// The states of a port at boot, with a byte received, with a full window, and with both.
static STATES: [(Receiver, u8); 4] = [
    (Receiver::Empty, 0),
    (Receiver::Full, 0),
    (Receiver::Empty, 16),
    (Receiver::Full, 16),
];

// A control byte, and the lines of a port that has it in each of these states.
static LINES: [(u8, [bool; 4]); 7] = [
    (0x15, [false, false, false, false]),
    (0x35, [true, true, false, false]),
    (0x55, [false, false, false, false]),
    (0x75, [false, false, false, false]),
    (0x95, [false, true, false, true]),
    (0xb5, [true, true, false, true]),
    (0xd5, [false, true, false, true]),
];

#[test]
fn control_bits_enable_interrupts(rt: HostRuntime) {
    for (control, lines) in &LINES {
        for ((receiver, unaccepted), active) in STATES.iter().zip(lines) {
            let port = Acia::rebuild(*control, 0x41, *receiver, *unaccepted);
            let port = port.expect(&rt, "sixteen fit");
            assert!(rt; port.line() == *active, "{control}");
        }
    }
}
