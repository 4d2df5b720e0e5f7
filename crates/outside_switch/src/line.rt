//! The line to one host.
ghost use Rattle.std.specs.Prelude.{◌≡◌, Some, None, [], true, is_none};
ghost use Rattle.host_frames.specs.Frames.{said_by};
ghost use Rattle.outside_switch.specs.Lines.{Hears, LineGoes, Pushes, Sends, is_spare};

use host_frames::{Frame, Report, spelled};
use pair_events::Role;
use rtrb::{Consumer, Producer};
use std::alloc::Global;
use std::sync::Arc;
use std::thread::Parker;

/// The line to the host at one place: the bodies that come from it, of which an empty one says that no more come, the frames that go to it, and what is known of it.
#[derive(Drop)]
pub struct HostLine {
    from: Consumer<Vec<u8>>,
    // None once the host is cut off.
    to: Option<Producer<Vec<u8>>>,
    // Wakes the thread that writes to the host.
    wake: Arc<Parker>,
    // Which host of the law it is, for good; None of a spare that was given to no generation yet.
    number: Option<u32>,
    // What it reported last.
    report: Option<Report>,
}

impl HostLine {
    /// The line to a host that has said nothing yet.
    pub(crate) fn new(
        from: Consumer<Vec<u8>>,
        to: Producer<Vec<u8>>,
        wake: Arc<Parker>,
        number: Option<u32>,
    ) -> HostLine
        ensures from { result.from ≡ from }
        ensures to { result.to ≡ Some to }
        ensures number { result.number ≡ number }
    {
        HostLine {
            from,
            to: Some(to),
            wake,
            number,
            report: None,
        }
    }

    /// The next body that came from the host, if one waits.
    pub(crate) fn next(&mut self) -> Option<Vec<u8>>
        ensures { Hears result self.old self.new }
    {
        self.from.pop().ok()
    }

    /// Sends a frame. Returns false, and the frame is lost, if the host is cut off, if its ring is full, if there is no memory
    /// for the frame, or if it has no spelling.
    pub(crate) fn send(&mut self, alloc: Global, frame: &Frame<'_>) -> bool
        ensures { Sends (said_by frame.now) result self.old self.new }
    {
        let is_sent = push(&mut self.to, alloc, frame);
        self.wake.unpark();
        is_sent
    }

    /// Cuts the host off: its ring is dropped, so that the stream to it ends.
    pub(crate) fn close(&mut self)
        ensures { self.new ≡ record self.old { to = None } }
    {
        self.to = None;
    }

    /// Keeps what the host reports. Returns whether its role is another one.
    pub(crate) fn keep(&mut self, report: &Report) -> bool
        ensures { self.new ≡ record self.old { report = Some report.now } }
    {
        let is_same = is_role(&self.report, report.role);
        self.report = Some(*report);
        !is_same
    }

    /// It is this host of the law from now on.
    pub(crate) fn name(&mut self, number: u32)
        ensures { self.new ≡ record self.old { number = Some number } }
    {
        self.number = Some(number);
    }

    /// Which host of the law it is.
    pub fn number(&self) -> Option<u32>
        ensures { result ≡ self.now.number }
    {
        self.number
    }

    /// What the host reported last.
    pub fn report(&self) -> Option<Report>
        ensures { result ≡ self.now.report }
    {
        self.report
    }

    /// Whether the host was cut off, or its stream has ended.
    pub fn is_cut(&self) -> bool
        ensures { result ≡ is_none self.now.to }
    {
        self.to.is_none()
    }

    /// Whether the host is a spare that can be given to a generation: it says that it is one, and has no number yet.
    pub fn is_spare(&self) -> bool
        ensures { result ≡ is_spare self.now }
    {
        if self.to.is_none() || self.number.is_some() {
            return false;
        }
        match self.report {
            Some(report) => report.role.is_none(),
            None => false,
        }
    }
}

// Pushes the bytes of a frame, if there is a ring with room for them and memory.
fn push(to: &mut Option<Producer<Vec<u8>>>, alloc: Global, frame: &Frame<'_>) -> bool
    ensures { Pushes (said_by frame.now) result to.old to.new }
{
    let Some(to) = to else {
        return false;
    };
    if to.is_full() {
        return false;
    }
    let Ok(bytes) = spelled(alloc, frame) else {
        return false;
    };
    to.push_reserved(bytes);
    true
}

// Whether a report is of this role.
fn is_role(report: &Option<Report>, role: Option<Role>) -> bool {
    match report {
        Some(report) => report.role == role,
        None => false,
    }
}
