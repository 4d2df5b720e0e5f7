//! What a listener hands on of some bytes that are typed: to both terminals, to an interpreter that records it, and to the display.
ghost use Rattle.std.specs.Prelude.{◌≤◌, None, Some};
ghost use Rattle.rtrb.specs.Ring.{known_free};

use super::paper::{Paper, come_out};
use console_terminal::{
    Command, Desk, Display, DisplayNote, Ending, Heard, Interpreter, KeySource, Listener, Port,
    Signs, Stroke, listen, show_all,
};
use rtrb::{Consumer, Producer, RingBuffer};
use std::alloc::Global;
use std::process::Abort;
use std::test::Fail;
use std::time::Clock;

// Some bytes, and then the sign to stop, or the end.
#[derive(Drop)]
pub(super) struct Typed<'a> {
    pub(super) bytes: &'static [u8],
    pub(super) stops: Option<&'a Signs>,
}

impl KeySource for Typed<'_> {
    ghost left = { λ _. None };

    fn hear(&mut self) -> Heard {
        if let Some((key, rest)) = self.bytes.split_first() {
            self.bytes = rest;
            return Heard::Key(*key);
        }
        match self.stops {
            Some(signs) => {
                signs.stop();
                Heard::Quiet
            }
            None => Heard::End,
        }
    }
}

// Records the commands that it is given, and answers to `status` alone.
#[derive(Drop)]
pub(super) struct CommandRecorder<R> {
    pub(super) rt: R,
    pub(super) alloc: Global,
    pub(super) commands: Vec<Command>,
}

impl<R: Abort> Interpreter for CommandRecorder<R> {
    ghost given = { λ r. Some r.commands.items };

    fn carry_out(&mut self, command: Command, _line: &[u8]) -> Option<String> {
        self.commands.push(command).expect(&self.rt, "no memory");
        match command {
            Command::Status => String::from_str(self.alloc, "fine").ok(),
            _ => None,
        }
    }
}

// What is typed, and what comes of it; `first` and `second` are the strokes of the two keyboards.
struct TypedCase {
    typed: &'static [u8],
    ending: Ending,
    first: &'static [Stroke],
    second: &'static [Stroke],
    commands: &'static [Command],
    text: &'static [u8],
}

static CASES: [TypedCase; 10] = [
    TypedCase {
        typed: b"ab",
        ending: Ending::EndOfInput,
        first: &[Stroke::Key(b'a'), Stroke::Key(b'b'), Stroke::End],
        second: &[Stroke::End],
        commands: &[],
        text: b"",
    },
    TypedCase {
        typed: b"a\x05terminal 1\rb\x05\x05",
        ending: Ending::EndOfInput,
        first: &[Stroke::Key(b'a'), Stroke::End],
        second: &[Stroke::Key(b'b'), Stroke::Key(0x05), Stroke::End],
        commands: &[Command::Terminal(Port::One)],
        text: b"\r\npair> terminal 1\r\n\r\npair> \r\n",
    },
    TypedCase {
        typed: b"\x05status\r\x05stop 1\r",
        ending: Ending::Stopped,
        first: &[],
        second: &[],
        commands: &[Command::Status, Command::Stop(1)],
        text: b"\r\npair> status\r\nfine\r\n\r\npair> stop 1\r\n",
    },
    TypedCase {
        typed: b"\x05go\r",
        ending: Ending::EndOfInput,
        first: &[Stroke::End],
        second: &[Stroke::End],
        commands: &[],
        text: b"\r\npair> go\r\nno such command; `help` lists them\r\n",
    },
    TypedCase {
        typed: b"x\x05quit\ry",
        ending: Ending::Quit,
        first: &[Stroke::Key(b'x'), Stroke::End],
        second: &[Stroke::End],
        commands: &[Command::Quit],
        text: b"\r\npair> quit\r\n",
    },
    TypedCase {
        typed: b"\x05ab\x7f\x03c",
        ending: Ending::EndOfInput,
        first: &[Stroke::Key(b'c'), Stroke::End],
        second: &[Stroke::End],
        commands: &[],
        text: b"\r\npair> ab\x08 \x08\r\n",
    },
    TypedCase {
        typed: b"\x05satus\x01\x1b[Ct\x1b[F\rd",
        ending: Ending::EndOfInput,
        first: &[Stroke::Key(b'd'), Stroke::End],
        second: &[Stroke::End],
        commands: &[Command::Status],
        text: b"\r\npair> satus\x08\x08\x08\x08\x08satus\x08\x08\x08\x08tatus\x08\x08\x08\x08atus\r\nfine\r\n",
    },
    TypedCase {
        typed: b"\x05sta",
        ending: Ending::EndOfInput,
        first: &[Stroke::End],
        second: &[Stroke::End],
        commands: &[],
        text: b"\r\npair> sta\r\n",
    },
    TypedCase {
        typed: b"d\x05sta",
        ending: Ending::Stopped,
        first: &[Stroke::Key(b'd')],
        second: &[],
        commands: &[],
        text: b"\r\npair> sta\r\n",
    },
    TypedCase {
        typed: b"",
        ending: Ending::EndOfInput,
        first: &[Stroke::End],
        second: &[Stroke::End],
        commands: &[],
        text: b"",
    },
];

// The keys and commands of a case are heard.
fn expect_heard<R: Abort + Clock + Copy>(
    rt: R,
    alloc: Global,
    case: &TypedCase,
    signs: &Signs,
    notes: Producer<DisplayNote>,
) -> Result<(), Fail>
    requires { 3 ≤ known_free notes }
{
    let (first, mut first_out) = RingBuffer::new(alloc, 8)?;
    let (second, mut second_out) = RingBuffer::new(alloc, 8)?;
    let stops = match case.ending {
        Ending::Stopped => Some(signs),
        Ending::Quit | Ending::EndOfInput | Ending::Failed => None,
    };
    let listener = Listener {
        source: Typed {
            bytes: case.typed,
            stops,
        },
        desk: Desk::new(Port::Zero, 0x05),
        first,
        second,
        notes,
        interpreter: CommandRecorder {
            rt,
            alloc,
            commands: Vec::new(alloc),
        },
    };
    let (listener, ending) = listen(&rt, listener, signs);
    assert!(rt; ending == case.ending);
    assert!(rt; !listener.desk.is_open());
    assert!(rt; listener.interpreter.commands.as_slice() == case.commands);
    assert!(rt; come_out(&mut first_out, case.first));
    assert!(rt; come_out(&mut second_out, case.second));
    Ok(())
}

// These bytes are written of what was said, once no more is heard.
fn expect_written<R: Abort + Clock>(
    rt: &R,
    alloc: Global,
    said: Consumer<DisplayNote>,
    signs: &Signs,
    wanted: &[u8],
) -> Result<(), Fail> {
    let (_, shown) = RingBuffer::new(alloc, 1)?;
    let (_, told) = RingBuffer::new(alloc, 1)?;
    let (screen, mut screen_out) = RingBuffer::new(alloc, 1)?;
    let (text, mut text_out) = RingBuffer::new(alloc, 256)?;
    let (screen, text) = (Paper::of(screen), Paper::of(text));
    let display = Display::new(alloc, screen, text, Port::Zero, shown, said, told);
    signs.show_all();
    let (_, end) = show_all(rt, display, signs);
    end?;
    assert!(rt; come_out(&mut screen_out, &[]));
    assert!(rt; come_out(&mut text_out, wanted));
    Ok(())
}

#[test]
fn what_is_typed_is_handed_on(rt: HostRuntime) -> Result<(), Fail> {
    for case in &CASES {
        let signs = Signs::new();
        let (notes, said) = RingBuffer::new(rt.alloc(), 64)?;
        expect_heard(rt, rt.alloc(), case, &signs, notes)?;
        expect_written(&rt, rt.alloc(), said, &signs, case.text)?;
    }
    Ok(())
}
