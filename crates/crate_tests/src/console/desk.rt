//! What each byte does at a desk whose escape key is Ctrl-E.

use console_terminal::{Act, Command, Desk, Edit, Heard, Mistake, Order, Port, Sequence};

// Some bytes, what the last of them does, and the command line then, if one is open.
static BYTES: [(&[u8], Act, Option<&[u8]>); 44] = [
    (b"a", Act::Key(b'a'), None),
    (b"\x03", Act::Key(0x03), None),
    (b"\r", Act::Key(b'\r'), None),
    (b"\xff", Act::Key(0xff), None),
    (b"\x1b[D", Act::Key(b'D'), None),
    (b"\x05", Act::Opens, Some(b"")),
    (b"\x05a", Act::Edits(Edit::Adds(b'a')), Some(b"a")),
    (b"\x05~", Act::Edits(Edit::Adds(b'~')), Some(b"~")),
    (b"\x05\x1f", Act::Nothing, Some(b"")),
    // Bytes of any character, in UTF-8 two of each.
    (b"\x05\xe4", Act::Edits(Edit::Adds(0xe4)), Some(b"\xe4")),
    (
        b"\x05a\xc3\xa4\x7f",
        Act::Edits(Edit::TakesBack),
        Some(b"a"),
    ),
    (
        b"\x05\xc3\xa4\x1b[Da",
        Act::Edits(Edit::Adds(b'a')),
        Some(b"a\xc3\xa4"),
    ),
    (
        b"\x05\xc3\xa4\xc3\x9f\x01\x1b[C\x1b[3~",
        Act::Edits(Edit::Deletes),
        Some(b"\xc3\xa4"),
    ),
    // Tab.
    (b"\x05he\t", Act::Edits(Edit::Completes), Some(b"help ")),
    (b"\x05s\t", Act::Lists, Some(b"s")),
    (b"\x05x\t", Act::Edits(Edit::Completes), Some(b"x")),
    (b"\x05\x05", Act::Key(0x05), None),
    (b"\x05a\x05", Act::Nothing, Some(b"a")),
    (b"\x05ab\x08", Act::Edits(Edit::TakesBack), Some(b"a")),
    (b"\x05ab\x7f", Act::Edits(Edit::TakesBack), Some(b"a")),
    (b"\x05\x7f", Act::Edits(Edit::TakesBack), Some(b"")),
    (b"\x05ab\x03", Act::Cancels, None),
    (b"\x05ab\x03\x05", Act::Opens, Some(b"")),
    (b"\x05ab\x03c", Act::Key(b'c'), None),
    // ESC alone, and twice.
    (b"\x05ab\x1b", Act::Waits(Sequence::Escape), Some(b"ab")),
    (b"\x05ab\x1bc", Act::Key(b'c'), None),
    (b"\x05ab\x1b\r", Act::Key(b'\r'), None),
    (b"\x05ab\x1b\x05", Act::Opens, Some(b"")),
    (b"\x05ab\x1b\x1bc", Act::Key(b'c'), None),
    // Cursor keys.
    (b"\x05ab\x1b[D", Act::Edits(Edit::GoesLeft), Some(b"ab")),
    (b"\x05ab\x1b[Dc", Act::Edits(Edit::Adds(b'c')), Some(b"acb")),
    (b"\x05ab\x1bOHc", Act::Edits(Edit::Adds(b'c')), Some(b"cab")),
    (
        b"\x05ab\x1b[D\x1b[D\x1b[D\x1b[Cc",
        Act::Edits(Edit::Adds(b'c')),
        Some(b"acb"),
    ),
    (
        b"\x05ab\x1b[1~\x1b[4~c",
        Act::Edits(Edit::Adds(b'c')),
        Some(b"abc"),
    ),
    (
        b"\x05abc\x01\x1b[3~",
        Act::Edits(Edit::Deletes),
        Some(b"bc"),
    ),
    (
        b"\x05abc\x1b[D\x08",
        Act::Edits(Edit::TakesBack),
        Some(b"ac"),
    ),
    (
        b"\x05abc\x1b[D\x15",
        Act::Edits(Edit::CutsFront),
        Some(b"c"),
    ),
    (
        b"\x05abc\x1b[D\x0b",
        Act::Edits(Edit::CutsRest),
        Some(b"ab"),
    ),
    // Others mean nothing, and are no text.
    (b"\x05ab\x1b[1;5D", Act::Nothing, Some(b"ab")),
    (b"\x05ab\x1b[5~", Act::Nothing, Some(b"ab")),
    (b"\x05ab\x1b[3x", Act::Nothing, Some(b"ab")),
    (b"\x05ab\x1b[?\r", Act::HandsOn, None),
    // Lines that were carried out come back.
    (
        b"\x05ab\r\x05c\r\x05\x1b[A\x1b[A\x1b[A",
        Act::Edits(Edit::RecallsEarlier),
        Some(b"ab"),
    ),
    (
        b"\x05ab\r\x05\r\x05\x1bOA\x1bOB",
        Act::Edits(Edit::RecallsLater),
        Some(b""),
    ),
];

// Types some bytes, and gives what the last of them does.
fn last_of(desk: &mut Desk, typed: &[u8]) -> Act {
    let mut last = Act::Nothing;
    for byte in typed {
        last = desk.take(Heard::Key(*byte)).act;
    }
    last
}

#[test]
fn each_byte_does_what_its_row_says(rt: HostRuntime) {
    for (typed, act, line) in &BYTES {
        let mut desk = Desk::new(Port::One, 0x05);
        assert!(rt; last_of(&mut desk, typed) == *act);
        assert!(rt; desk.is_open() == line.is_some());
        assert!(rt; line.is_none() || *line == Some(desk.line()));
    }
}

// Some bytes, what a pause after them does, and the command line then, if one is open.
static PAUSES: [(&[u8], Act, Option<&[u8]>); 4] = [
    (b"a", Act::Nothing, None),
    (b"\x05ab", Act::Nothing, Some(b"ab")),
    (b"\x05ab\x1b", Act::Cancels, None),
    (b"\x05ab\x1b[", Act::Nothing, Some(b"ab")),
];

// After it nothing of a sequence is left: the next byte is a key, or is added.
#[test]
fn a_pause_ends_what_has_begun(rt: HostRuntime) {
    for (typed, act, line) in &PAUSES {
        let mut desk = Desk::new(Port::One, 0x05);
        let _ = last_of(&mut desk, typed);
        assert!(rt; desk.take(Heard::Quiet).act == *act);
        assert!(rt; desk.is_open() == line.is_some());
        let next = desk.take(Heard::Key(b'[')).act;
        assert!(rt;
            next == Act::Key(b'[') || line.is_some() && next == Act::Edits(Edit::Adds(b'['))
        );
    }
}

// Eighty bytes are in the line: one more is not added, but the line is still carried out.
#[test]
fn a_full_line_takes_no_more(rt: HostRuntime) {
    let mut desk = Desk::new(Port::Zero, 0x05);
    let _ = desk.take(Heard::Key(0x05));
    for _ in 0..81 {
        assert!(rt; desk.take(Heard::Key(b'q')).act == Act::Edits(Edit::Adds(b'q')));
    }
    assert!(rt; desk.line().len() == 80);
    let done = desk.take(Heard::Key(b'\n'));
    assert!(rt; done.act == Act::HandsOn && done.order == Order::Mistake(Mistake::Unknown));
    assert!(rt; !desk.is_open());
}

// One turns to the other terminal, and stays there.
#[test]
fn a_line_is_carried_out_once(rt: HostRuntime) {
    let mut desk = Desk::new(Port::Zero, 0x05);
    let mut is_ordered = false;
    for byte in b"\x05terminal 1\r\rx" {
        if desk.take(Heard::Key(*byte)).order == Order::Command(Command::Terminal(Port::One)) {
            assert!(rt; !is_ordered);
            is_ordered = true;
        }
    }
    assert!(rt; is_ordered && desk.port == Port::One);
}
