//! What each byte does that is typed.
ghost use Rattle.std.specs.Prelude.{◌≡◌, ◌≤◌, [], None, length};
ghost use Rattle.console_terminal.specs.Editing.{back_after, kept_after, line_after, line_before};
ghost use Rattle.console_terminal.specs.Telling.{drawn};
ghost use Rattle.console_terminal.specs.Typing.{act_of, after, line_of, listing, open_after, order_by, past_after, place_of, port_after};

use crate::acts::{done_in, paused, typed};
use crate::command::{Command, Order, order_of};
use crate::cursor_line::{CursorLine, MOST_BYTES, copied};
use crate::edit::Edit;
use crate::keys::Heard;
use crate::port::Port;
use crate::redraw::Redraw;
use crate::sequence::Sequence;
use arrayvec::ArrayVec;

/// How many command lines are kept that were carried out.
pub const MOST_LINES: usize = 32;

/// What a byte does, or a pause.
#[derive(Debug, Clone, Copy, PartialEq, Eq)]
pub enum Act {
    /// It is a key of the terminal that one is at; a command line is closed.
    Key(u8),
    /// It opens a command line.
    Opens,
    /// It edits the command line.
    Edits(Edit),
    /// It has the commands listed that begin as the command line does.
    Lists,
    /// It is of an escape sequence, of which so much has come.
    Waits(Sequence),
    /// It closes the command line, which is forgotten.
    Cancels,
    /// It closes the command line, which is carried out.
    HandsOn,
    Nothing,
}

/// What was done: what a byte does, which order it gives, and what is drawn of the command line.
#[derive(Drop)]
pub struct Done {
    pub act: Act,
    pub order: Order,
    pub redraw: Option<Redraw>,
}

/// Where one types: the terminal that one is at, the command line, if one is open, and those that were carried out.
#[derive(Drop)]
pub struct Desk {
    escape: u8,
    pub port: Port,
    is_open: bool,
    line: CursorLine,
    sequence: Sequence,
    // Of how many lines before it one sees one.
    back: usize,
    // The newest first.
    past: ArrayVec<ArrayVec<u8, MOST_BYTES>, MOST_LINES>,
}

impl Desk {
    /// At the terminal of a port, with this escape key. No command line is open, and none was carried out.
    pub fn new(port: Port, escape: u8) -> Desk
        ensures place { (result.port ≡ port) × (result.escape ≡ escape) }
        ensures closed { line_of result ≡ None }
        ensures first { result.past.items ≡ [] }
    {
        Desk {
            escape,
            port,
            is_open: false,
            line: CursorLine::new(),
            sequence: Sequence::Nothing,
            back: 0,
            past: ArrayVec::new(),
        }
    }

    /// What that which is heard does here.
    pub fn act_of(&self, heard: Heard) -> Act
        ensures { result ≡ act_of self.now heard }
    {
        match heard {
            Heard::Key(byte) if self.is_open => self.listing(done_in(
                self.escape,
                self.line.bytes().is_empty(),
                self.sequence,
                byte,
            )),
            Heard::Key(byte) => typed(self.escape, byte),
            Heard::Quiet if self.is_open => paused(self.sequence),
            _ => Act::Nothing,
        }
    }

    // What is done in place of completing a line: if several commands begin as it does they are listed.
    fn listing(&self, act: Act) -> Act
        ensures { result ≡ listing self.now.line act }
    {
        match act {
            Act::Edits(Edit::Completes) if self.line.lists() => Act::Lists,
            _ => act,
        }
    }

    /// Takes what is heard, and says what was done.
    pub fn take(&mut self, heard: Heard) -> Done
        ensures act { result.act ≡ act_of self.old heard }
        ensures order { result.order ≡ order_by result.act (line_of self.old) }
        ensures redraw { result.redraw ≡ drawn result.act (line_of self.old) (line_of self.new) }
        ensures after { place_of self.new ≡ after self.old.escape (place_of self.old) heard }
        ensures escape { self.new.escape ≡ self.old.escape }
    {
        let act = self.act_of(heard);
        let order = self.order_by(act);
        let redraw = self.change(act);
        self.port = port_after(self.port, order);
        Done { act, order, redraw }
    }

    // The order that is given by a byte that does this.
    fn order_by(&self, act: Act) -> Order
        ensures { result ≡ order_by act (line_of self.now) }
    {
        match act {
            Act::HandsOn if self.is_open => order_of(self.line.bytes()),
            _ => Order::Nothing,
        }
    }

    /// Whether a command line is open.
    pub fn is_open(&self) -> bool
        ensures { result ≡ self.now.is_open }
    {
        self.is_open
    }

    /// The bytes of the command line that is or was open.
    pub fn line(&self) -> &[u8]
        ensures { result.now ≡ self.now.line.bytes }
    {
        self.line.bytes()
    }

    /// Closes the command line, which is forgotten.
    pub fn close(&mut self)
        ensures place { (self.new.port ≡ self.old.port) × (self.new.escape ≡ self.old.escape) }
        ensures line { line_of self.new ≡ None }
        ensures past { self.new.past ≡ self.old.past }
    {
        self.is_open = false;
    }

    // Changes the command line as a byte does that does this, and says what is drawn of it.
    fn change(&mut self, act: Act) -> Option<Redraw>
        ensures place { (self.new.port ≡ self.old.port) × (self.new.escape ≡ self.old.escape) }
        ensures line { line_of self.new ≡ open_after act self.old.past.items (line_of self.old) }
        ensures past { self.new.past.items ≡ past_after act (line_of self.old) self.old.past.items }
        ensures redraw { result ≡ drawn act (line_of self.old) (line_of self.new) }
    {
        match act {
            Act::Key(_) | Act::Cancels => self.close(),
            Act::HandsOn => self.hand_on(),
            Act::Opens => self.open(),
            Act::Edits(edit) => return self.edit(edit),
            Act::Lists => return self.list(),
            Act::Waits(sequence) => self.sequence = sequence,
            Act::Nothing => self.sequence = Sequence::Nothing,
        }
        None
    }

    // Opens a command line.
    fn open(&mut self)
        ensures place { (self.new.port ≡ self.old.port) × (self.new.escape ≡ self.old.escape) }
        ensures line { line_of self.new ≡ open_after Act.Opens self.old.past.items (line_of self.old) }
        ensures past { self.new.past ≡ self.old.past }
    {
        self.is_open = true;
        self.line = CursorLine::new();
        self.sequence = Sequence::Nothing;
        self.back = 0;
    }

    // Closes the command line, which is kept.
    fn hand_on(&mut self)
        ensures place { (self.new.port ≡ self.old.port) × (self.new.escape ≡ self.old.escape) }
        ensures line { line_of self.new ≡ None }
        ensures past { self.new.past.items ≡ past_after Act.HandsOn (line_of self.old) self.old.past.items }
    {
        if self.is_open {
            keep(&mut self.past, self.line.bytes());
        }
        self.is_open = false;
    }

    // What is drawn of the command line after a list, if one is open.
    fn list(&mut self) -> Option<Redraw>
        ensures place { (self.new.port ≡ self.old.port) × (self.new.escape ≡ self.old.escape) }
        ensures line { line_of self.new ≡ open_after Act.Lists self.old.past.items (line_of self.old) }
        ensures past { self.new.past ≡ self.old.past }
        ensures redraw { result ≡ drawn Act.Lists (line_of self.old) (line_of self.new) }
    {
        self.sequence = Sequence::Nothing;
        if !self.is_open {
            return None;
        }
        Some(Redraw::between(&CursorLine::new(), &self.line))
    }

    // Edits the command line, if one is open, and says what is drawn of that.
    fn edit(&mut self, edit: Edit) -> Option<Redraw>
        ensures place { (self.new.port ≡ self.old.port) × (self.new.escape ≡ self.old.escape) }
        ensures line { line_of self.new ≡ open_after (Act.Edits edit) self.old.past.items (line_of self.old) }
        ensures past { self.new.past ≡ self.old.past }
        ensures redraw { result ≡ drawn (Act.Edits edit) (line_of self.old) (line_of self.new) }
    {
        if !self.is_open {
            return None;
        }
        let old = self.line.copy();
        self.back = back_after(edit, self.past.as_slice(), self.back);
        edit_line(&mut self.line, edit, self.past.as_slice(), self.back);
        self.sequence = Sequence::Nothing;
        Some(Redraw::between(&old, &self.line))
    }
}

// How far back one is after an edit.
fn back_after(edit: Edit, past: &[ArrayVec<u8, MOST_BYTES>], back: usize) -> usize
    ensures { result ≡ back_after edit past.now back }
{
    match edit {
        Edit::RecallsEarlier if back < past.len() => back + 1,
        Edit::RecallsLater => back.saturating_sub(1),
        _ => back,
    }
}

// Edits a line; after an edit that recalls one it is the one so far back.
fn edit_line(line: &mut CursorLine, edit: Edit, past: &[ArrayVec<u8, MOST_BYTES>], back: usize)
    ensures { line.new ≡ line_after edit past.now back line.old }
{
    match edit {
        Edit::Adds(byte) => line.add(byte),
        Edit::TakesBack => line.take_back(),
        Edit::Deletes => line.delete(),
        Edit::GoesLeft => line.go_left(),
        Edit::GoesRight => line.go_right(),
        Edit::GoesToBegin => line.go_to_begin(),
        Edit::GoesToEnd => line.go_to_end(),
        Edit::CutsFront => line.cut_front(),
        Edit::CutsRest => line.cut_rest(),
        Edit::Completes => line.complete(),
        Edit::RecallsEarlier | Edit::RecallsLater => line.replace(line_before(past, back)),
    }
}

// The line that is so many lines back.
fn line_before(past: &[ArrayVec<u8, MOST_BYTES>], back: usize) -> &[u8]
    ensures line { result.now ≡ line_before back past.now }
    ensures fits { length result.now ≤ MOST_BYTES }
{
    if back == 0 {
        return &[];
    }
    match past.get(back - 1) {
        Some(line) => line.as_slice(),
        None => &[],
    }
}

// Keeps a line before those that are kept, unless it has no byte.
fn keep(past: &mut ArrayVec<ArrayVec<u8, MOST_BYTES>, MOST_LINES>, line: &[u8])
    requires { length line.now ≤ MOST_BYTES }
    ensures { past.new.items ≡ kept_after line.now past.old.items }
{
    if line.is_empty() {
        return;
    }
    past.truncate(MOST_LINES - 1);
    past.insert(0, copied(line));
}

// The terminal that one is at after an order.
fn port_after(port: Port, order: Order) -> Port
    ensures { result ≡ port_after port order }
{
    match order {
        Order::Command(Command::Terminal(at)) => at,
        _ => port,
    }
}
