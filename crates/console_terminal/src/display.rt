//! The display, on which one looks at one terminal at a time.
ghost use Rattle.std.specs.Prelude.{◌≡◌, ◌∷◌, [], OnOk, Some, false, true};
ghost use Rattle.std.specs.Io.KnownBytes.{Appends};
ghost use Rattle.console_terminal.specs.Lines.{shown_at};
ghost use Rattle.rtrb.specs.Ring.{known_items};
ghost use Rattle.console_terminal.specs.Screen.{HasNoMore, IsClear, IsEmpty, Wrote, but_at, byte_seen, bytes_seen, is_looked_at, is_looking, kept_with, look_after, unseen};

use crate::Shown;
use crate::note::{DisplayNote, write_note};
use crate::port::Port;
use rtrb::Consumer;
use std::alloc::Global;
use std::io::{self, Write};

/// Two terminals, of which one looks at one, or at none while a command line is open: the guest's bytes go to a writer, and what is
/// said beside them to another one. What the guest writes at a terminal at which nobody looks is kept until somebody does, as a
/// line of a computer keeps it for a terminal that is not connected; so what it writes at one terminal is never seen on the other,
/// and a command line that is open is not written over.
#[derive(Drop)]
pub struct Display<W, N> {
    screen: W,
    notes: N,
    // What was accepted, and not looked at yet.
    kept: Vec<Shown>,
    look: Option<Port>,
    shown: Consumer<Shown>,
    said: Consumer<DisplayNote>,
    told: Consumer<String>,
}

impl<W, N> Display<W, N> {
    /// One looks at the terminal of this port. The bytes that the terminals accept come through the first ring, what becomes of the
    /// command line through the second, and lines about the pair, which end in CR LF, through the third.
    pub fn new(
        alloc: Global,
        screen: W,
        notes: N,
        port: Port,
        shown: Consumer<Shown>,
        said: Consumer<DisplayNote>,
        told: Consumer<String>,
    ) -> Display<W, N>
        ensures writers { (result.screen ≡ screen) × (result.notes ≡ notes) }
        ensures rings { (result.shown ≡ shown) × (result.said ≡ said) × (result.told ≡ told) }
        ensures look { result.look ≡ Some port }
        ensures kept { result.kept.items ≡ [] }
        ensures clear { IsClear result }
    {
        Display {
            screen,
            notes,
            kept: Vec::new(alloc),
            look: Some(port),
            shown,
            said,
            told,
        }
    }

    /// The writers that it was made of, and the end of the ring of accepted bytes.
    pub fn into_parts(self) -> (W, N, Consumer<Shown>)
        ensures { (result.0 ≡ self.screen) × (result.1 ≡ self.notes) × (result.2 ≡ self.shown) }
    {
        let Display {
            screen,
            notes,
            shown,
            ..
        } = self;
        (screen, notes, shown)
    }

    /// Takes what comes next, and drops it, if something has come.
    pub(crate) fn drop_next(&mut self) -> bool
        ensures { result ≡ false → IsEmpty self.new }
    {
        if self.said.pop().is_ok() {
            return true;
        }
        if self.told.pop().is_ok() {
            return true;
        }
        self.shown.pop().is_ok()
    }
}

impl<W: Write, N: Write> Display<W, N> {
    /// Writes or keeps what comes next, if something has come.
    #[tactic(auto, using(crate::proofs::Pieces::and_then))]
    pub(crate) fn turn(&mut self) -> io::Result<bool>
        requires { IsClear self.old }
        ensures wrote { OnOk result (Wrote W.contents N.contents self.old self.new) }
        ensures rest { result ≡ Ok false → HasNoMore self.new }
    {
        if self.say()? {
            return Ok(true);
        }
        if self.tell()? {
            return Ok(true);
        }
        self.show()
    }

    // What becomes of the command line.
    #[tactic(auto, using(crate::proofs::Pieces::of_nothing, crate::proofs::Pieces::of_a_note))]
    fn say(&mut self) -> io::Result<bool>
        requires { IsClear self.old }
        ensures wrote { OnOk result (Wrote W.contents N.contents self.old self.new) }
        ensures rest { result ≡ Ok false → known_items self.new.said ≡ [] }
    {
        let Ok(note) = self.said.pop() else {
            return Ok(false);
        };
        write_note(&mut self.notes, &note)?;
        self.look = look_after(self.look, &note);
        catch_up(&mut self.screen, &mut self.kept, self.look)?;
        Ok(true)
    }

    // A line about the pair, which waits while a command line is open.
    #[tactic(auto, using(crate::proofs::Pieces::of_nothing, crate::proofs::Pieces::of_a_line))]
    fn tell(&mut self) -> io::Result<bool>
        requires { IsClear self.old }
        ensures wrote { OnOk result (Wrote W.contents N.contents self.old self.new) }
        ensures rest { result ≡ Ok false → is_looking self.new.look ≡ true → known_items self.new.told ≡ [] }
        ensures said { self.new.said ≡ self.old.said }
    {
        if !is_looking(self.look) {
            return Ok(false);
        }
        let Ok(line) = self.told.pop() else {
            return Ok(false);
        };
        self.notes.write_all(line.as_bytes())?;
        Ok(true)
    }

    // A byte that was accepted.
    #[tactic(auto, using(crate::proofs::Pieces::of_nothing, crate::proofs::Pieces::of_a_byte))]
    fn show(&mut self) -> io::Result<bool>
        requires { IsClear self.old }
        ensures wrote { OnOk result (Wrote W.contents N.contents self.old self.new) }
        ensures rest { result ≡ Ok false → known_items self.new.shown ≡ [] }
        ensures beside { (self.new.said ≡ self.old.said) × (self.new.told ≡ self.old.told) × (self.new.look ≡ self.old.look) }
    {
        let Ok(shown) = self.shown.pop() else {
            return Ok(false);
        };
        place(&mut self.screen, &mut self.kept, self.look, shown)?;
        Ok(true)
    }
}

// Which terminal one looks at after a note.
fn look_after(look: Option<Port>, note: &DisplayNote) -> Option<Port>
    ensures { result ≡ look_after look note.now }
{
    match note {
        DisplayNote::Opened => None,
        DisplayNote::Closed(port) => Some(*port),
        _ => look,
    }
}

// Whether no command line is open.
fn is_looking(look: Option<Port>) -> bool
    ensures { result ≡ is_looking look }
{
    match look {
        Some(_) => true,
        None => false,
    }
}

// Whether one looks at the terminal of this port.
fn is_looked_at(look: Option<Port>, port: u8) -> bool
    ensures { result ≡ is_looked_at look port }
{
    match look {
        Some(at) => port == at.number(),
        None => false,
    }
}

// Writes a byte, or keeps it.
#[tactic(auto, using(crate::proofs::Bytes::appends_none))]
fn place<W: Write>(
    screen: &mut W,
    kept: &mut Vec<Shown>,
    look: Option<Port>,
    shown: Shown,
) -> io::Result<()>
    ensures bytes { OnOk result (Appends (W.contents screen.old) (W.contents screen.new) (byte_seen look shown)) }
    ensures kept { OnOk result (kept.new.items ≡ kept_with look shown kept.old.items) }
{
    if is_looked_at(look, shown.port) {
        return screen.write_all(&[shown.byte]);
    }
    kept.push(shown)?;
    Ok(())
}

// Writes what was kept of the terminal that one looks at.
#[tactic(auto, using(crate::proofs::Bytes::appends_none))]
fn catch_up<W: Write>(screen: &mut W, kept: &mut Vec<Shown>, look: Option<Port>) -> io::Result<()>
    ensures bytes { OnOk result (Appends (W.contents screen.old) (W.contents screen.new) (bytes_seen look kept.old.items)) }
    ensures kept { OnOk result (kept.new.items ≡ unseen look kept.old.items) }
{
    let Some(port) = look else {
        return Ok(());
    };
    write_seen(screen, kept.as_slice(), port.number())?;
    forget_seen(kept, port.number());
    Ok(())
}

// Writes the bytes of a port.
fn write_seen<W: Write>(screen: &mut W, kept: &[Shown], port: u8) -> io::Result<()>
    ensures { OnOk result (Appends (W.contents screen.old) (W.contents screen.new) (shown_at port kept.now)) }
{
    let mut rest = kept;
    'kept: while let [shown, after @ ..] = rest {
        write_if_seen(screen, *shown, port)?;
        rest = after;
    }
    Ok(())
}

// Writes a byte if it is of this port.
#[tactic(auto, using(crate::proofs::Bytes::appends_none))]
fn write_if_seen<W: Write>(screen: &mut W, shown: Shown, port: u8) -> io::Result<()>
    ensures { OnOk result (Appends (W.contents screen.old) (W.contents screen.new) (shown_at port (shown ∷ []))) }
{
    if shown.port == port {
        screen.write_all(&[shown.byte])?;
    }
    Ok(())
}

// Leaves out the bytes of a port.
fn forget_seen(kept: &mut Vec<Shown>, port: u8)
    ensures { kept.new.items ≡ but_at port kept.old.items }
{
    kept.retain(|shown| shown.port != port);
}
