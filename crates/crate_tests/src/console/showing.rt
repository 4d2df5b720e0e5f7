//! A display that shows, holds still and catches up, and one whose writer fails.
ghost use Rattle.std.specs.Prelude.{IfOk};
ghost use Rattle.console_terminal.specs.Screen.{IsClear};

use super::paper::{Paper, come_out};
use console_terminal::{Display, DisplayNote, Port, Shown, Signs, show_all};
use rtrb::{Producer, RingBuffer};
use std::alloc::{AllocError, Global};
use std::io;
use std::test::Fail;

// What becomes of the command line.
#[derive(Clone, Copy)]
enum LineChange {
    Stays,
    Opens,
    Closes(Port),
}

// What comes to a display, and what it writes then, on the screen and beside it.
struct DisplayStep {
    shown: &'static [(u8, u8)],
    line: LineChange,
    told: Option<&'static str>,
    screen: &'static [u8],
    notes: &'static [u8],
}

static STEPS: [DisplayStep; 6] = [
    DisplayStep {
        shown: &[(0, b'a'), (1, b'b'), (0, b'c'), (1, b'd')],
        line: LineChange::Stays,
        told: Some("one\r\n"),
        screen: b"ac",
        notes: b"one\r\n",
    },
    DisplayStep {
        shown: &[(1, b'e'), (0, b'f')],
        line: LineChange::Opens,
        told: Some("two\r\n"),
        screen: b"",
        notes: b"\r\npair> ",
    },
    DisplayStep {
        shown: &[(0, b'g')],
        line: LineChange::Stays,
        told: Some("three\r\n"),
        screen: b"",
        notes: b"",
    },
    DisplayStep {
        shown: &[(1, b'h'), (0, b'i')],
        line: LineChange::Closes(Port::One),
        told: None,
        screen: b"bdeh",
        notes: b"\r\ntwo\r\nthree\r\n",
    },
    DisplayStep {
        shown: &[],
        line: LineChange::Opens,
        told: None,
        screen: b"",
        notes: b"\r\npair> ",
    },
    DisplayStep {
        shown: &[(1, b'j'), (0, b'k')],
        line: LineChange::Closes(Port::Zero),
        told: Some("four\r\n"),
        screen: b"fgik",
        notes: b"\r\nfour\r\n",
    },
];

// The rings by which something comes to a display.
#[derive(Drop)]
struct DisplayRings {
    shown: Producer<Shown>,
    said: Producer<DisplayNote>,
    told: Producer<String>,
}

impl DisplayRings {
    fn take(&mut self, alloc: Global, step: &DisplayStep) -> Result<(), AllocError> {
        for (port, byte) in step.shown {
            let _ = self.shown.push(Shown {
                port: *port,
                byte: *byte,
            });
        }
        let _ = match step.line {
            LineChange::Stays => Ok(()),
            LineChange::Opens => self.said.push(DisplayNote::Opened),
            LineChange::Closes(port) => self.said.push(DisplayNote::Closed(port)),
        };
        if let Some(line) = step.told {
            let _ = self.told.push(String::from_str(alloc, line)?);
        }
        Ok(())
    }

    fn are_empty(&mut self) -> bool {
        self.shown.slots() == 8 && self.said.slots() == 8 && self.told.slots() == 8
    }
}

// A display at terminal 0, and the rings by which something comes to it.
fn display_of(
    alloc: Global,
    screen: Paper,
    notes: Paper,
) -> Result<(Display<Paper, Paper>, DisplayRings), AllocError>
    ensures { IfOk result (λ made. IsClear made.0) }
{
    let (shown, shown_out) = RingBuffer::new(alloc, 8)?;
    let (said, said_out) = RingBuffer::new(alloc, 8)?;
    let (told, told_out) = RingBuffer::new(alloc, 8)?;
    let display = Display::new(
        alloc,
        screen,
        notes,
        Port::Zero,
        shown_out,
        said_out,
        told_out,
    );
    Ok((display, DisplayRings { shown, said, told }))
}

// Nothing more will come.
fn over() -> Signs {
    let signs = Signs::new();
    signs.hear_all();
    signs.show_all();
    signs
}

// All that has come is shown or kept.
fn show(
    rt: &HostRuntime,
    display: Display<Paper, Paper>,
) -> Result<Display<Paper, Paper>, io::Error>
    requires { IsClear display }
    ensures { IfOk result IsClear }
{
    let (display, end) = show_all(rt, display, &over());
    end?;
    Ok(display)
}

#[test]
fn a_display_holds_still_and_catches_up(rt: HostRuntime) -> Result<(), Fail> {
    let (screen, mut screen_out) = RingBuffer::new(rt.alloc(), 16)?;
    let (notes, mut notes_out) = RingBuffer::new(rt.alloc(), 64)?;
    let (mut display, mut ends) = display_of(rt.alloc(), Paper::of(screen), Paper::of(notes))?;
    'steps: for step in &STEPS {
        ends.take(rt.alloc(), step)?;
        display = show(&rt, display)?;
        assert!(rt; come_out(&mut screen_out, step.screen));
        assert!(rt; come_out(&mut notes_out, step.notes));
    }
    Ok(())
}

static FAILING: DisplayStep = DisplayStep {
    shown: &[(0, b'a'), (1, b'b'), (0, b'c'), (0, b'd'), (0, b'e')],
    line: LineChange::Closes(Port::Zero),
    told: Some("one\r\n"),
    screen: b"ac",
    notes: b"\r\none\r\n",
};

// After two bytes there is no place on its screen: the run is to stop, and nobody waits for a ring that stays full.
#[test]
fn a_display_that_fails_takes_the_rest(rt: HostRuntime) -> Result<(), Fail> {
    let (screen, mut screen_out) = RingBuffer::new(rt.alloc(), 2)?;
    let (notes, mut notes_out) = RingBuffer::new(rt.alloc(), 64)?;
    let (display, mut ends) = display_of(rt.alloc(), Paper::of(screen), Paper::of(notes))?;
    ends.take(rt.alloc(), &FAILING)?;
    let signs = over();
    let (_, end) = show_all(&rt, display, &signs);
    assert!(rt; end.is_err() && signs.is_stopped());
    assert!(rt; signs.moved() == 5);
    assert!(rt; ends.are_empty());
    assert!(rt; come_out(&mut screen_out, FAILING.screen));
    assert!(rt; come_out(&mut notes_out, FAILING.notes));
    Ok(())
}
