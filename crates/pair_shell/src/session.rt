//! A session: its setup, the pair once it has booted, and the answers to its lines.
ghost use Rattle.event_callbacks.specs.declared.devices.TheConstants.{SENT, SECTOR, WRITTEN};
ghost use Rattle.event_callbacks.specs.Keeping.{Keeps};

use crate::booting::booted;
use crate::lists::{list_forms, list_refusals};
use crate::machine::take_line;
use crate::notes::Notes;
use altair_pair::Altairs;
use event_callbacks::Completes;
use shell_language::{LineOutcome, Mistake, Printed, SessionSetup, ShellLine, read_line, refuse};
use std::alloc::{AllocError, Global};

/// The shell with its pair.
#[derive(Drop)]
pub struct ShellSession<T: Completes + Drop, S: Completes + Drop, W: Completes + Drop> {
    opening: SessionSetup,
    world: Option<Altairs<T, S, W>>,
    notes: Notes,
    is_traced: bool,
}

impl<
    T: Completes + Drop + Copy,
    S: Completes + Drop + Copy,
    W: Completes + Drop + Copy,
> ShellSession<T, S, W> {
    ghost use Rattle.std.specs.Prelude.{◌≡◌, [], true, false, IfOk, None, Some, string_bytes};
    ghost use Rattle.shell_language.specs.Saying.{said};
    ghost use Rattle.shell_language.specs.Openings.{IsDefault, IsSame, SetsUp, SetsUpSaid};
    ghost use Rattle.pair_shell.specs.Sessions.{AltairsPlay, HeedsSaid, IsAsBefore, IsHeeded, MayRefuse, is_quit, trace_after};
    ghost use Rattle.pair_shell.specs.Looking.{IsLooked, IsSeenSaid};
    ghost use Rattle.shell_language.specs.Outcomes.{is_ended};
    ghost use Rattle.shell_language.specs.Tapes.{Begins, trace_text};
    ghost use Rattle.shell_language.specs.declared.outcome.LineOutcome.TheVariants as outcome;
    ghost use Rattle.std.specs.Prelude.{is_some};
    ghost use Rattle.pair_shell.specs.Sessions.{BootsBy, is_setup};

    /// A session before its first line.
    pub fn new(alloc: Global) -> Result<Self, AllocError>
        ensures set { IfOk result (λ session. IsDefault session.opening) }
        ensures none { IfOk result (λ session. session.world ≡ None) }
        ensures untraced { IfOk result (λ session. session.is_traced ≡ false) }
    {
        Ok(ShellSession {
            opening: SessionSetup::new(alloc)?,
            world: None,
            notes: Notes::new(alloc),
            is_traced: false,
        })
    }

    /// Answers a line, which is without its LF and a CR before that. What it makes happen is on the tape, event by event,
    /// each with its answer; a trace says it line by line. A line that is wrong changes nothing. One that is an event of the
    /// script language makes that event alone, and is answered as a script is. A day may pause; it goes on with `go_on`.
    #[tactic(auto, using(crate::proofs::Playing::line_plays_nothing, crate::proofs::Tracing::begins_nothing, crate::proofs::Tracing::heeds_said, crate::proofs::Looking::seen_said, crate::proofs::Tracing::ends_said, crate::proofs::Tracing::ends_not, crate::proofs::Tracing::sets_up_said, crate::proofs::Tracing::switches, crate::proofs::Tracing::switches_not, crate::proofs::Tracing::late_said, crate::proofs::Refusing::why_said, crate::proofs::Refusing::why_nothing))]
    pub fn answer(
        &mut self,
        alloc: Global,
        sent: T,
        sector: S,
        written: W,
        text: &[u8],
    ) -> Result<(LineOutcome, String), AllocError>
        requires sent { Keeps (T.may sent) (T.gives sent) SENT }
        requires sector { Keeps (S.may sector) (S.gives sector) SECTOR }
        requires written { Keeps (W.may written) (W.gives written) WRITTEN }
        ensures played { AltairsPlay (λ d. d.board.guest) self.old.opening self.old.world self.new.notes.tape.items
            self.new.world }
        ensures traced { IfOk result (λ told. self.old.is_traced ≡ true
            → Begins (trace_text self.new.notes.tape.items) (string_bytes told.1)) }
        ensures heeded { IfOk result (λ told. told.0 ≡ outcome.Done → HeedsSaid (said text.now)
            self.new.notes.tape.items self.old.is_traced [] (string_bytes told.1)) }
        ensures seen { IfOk result (λ told. told.0 ≡ outcome.Done → IsSeenSaid (λ d. d.board.guest) (said text.now)
            self.new.notes.tape.items self.new.world self.old.is_traced (string_bytes told.1)) }
        ensures wrong { said text.now ≡ None → IfOk result (λ told. told.0 ≡ outcome.Refused) }
        ensures why { IfOk result (λ told. told.0 ≡ outcome.Refused
            → MayRefuse self.old.opening (is_some self.old.world) (said text.now)) }
        ensures set { IfOk result (λ told. told.0 ≡ outcome.Done
            → SetsUpSaid (said text.now) self.old.opening self.new.opening) }
        ensures switched { self.new.is_traced ≡ trace_after (said text.now) self.old.is_traced }
        ensures refused { IfOk result (λ told. told.0 ≡ outcome.Refused → IsAsBefore self.old.opening self.new.opening
            self.old.world self.new.world self.old.notes self.new.notes self.old.is_traced self.new.is_traced) }
        ensures ended { IfOk result (λ told. is_ended told.0 ≡ is_quit (said text.now)) }
        ensures late { is_setup (said text.now) ≡ true → is_some self.old.world ≡ true
            → IfOk result (λ told. told.0 ≡ outcome.Refused) }
    {
        self.notes.tape = Vec::new(alloc);
        let mut printed = Printed::new(alloc, self.is_traced);
        let outcome = match read_line(text) {
            Ok(line) => self.take(alloc, sent, sector, written, text, line, &mut printed)?,
            Err(mistake) => refuse(mistake, &mut printed)?,
        };
        Ok((outcome, printed.into_text()))
    }

    /// Whether the day of the last line has paused.
    pub fn goes_on(&self) -> bool
        ensures { result ≡ is_some self.now.notes.left }
    {
        self.notes.goes_on()
    }

    /// Goes on with a day that has paused. What it makes happen is on the tape; a trace says it line by line.
    #[tactic(auto, using(crate::proofs::Playing::line_plays_nothing, crate::proofs::Playing::line_plays, crate::proofs::Tracing::begins_nothing))]
    pub fn go_on(&mut self, alloc: Global) -> Result<String, AllocError>
        ensures played { AltairsPlay (λ d. d.board.guest) self.old.opening self.old.world self.new.notes.tape.items
            self.new.world }
        ensures traced { IfOk result (λ told. self.old.is_traced ≡ true
            → Begins (trace_text self.new.notes.tape.items) (string_bytes told)) }
        ensures opening { self.new.opening ≡ self.old.opening }
        ensures switched { self.new.is_traced ≡ self.old.is_traced }
    {
        self.notes.tape.clear();
        let mut printed = Printed::new(alloc, self.is_traced);
        if let Some(world) = &mut self.world {
            self.notes.go_on(alloc, world, &mut printed)?;
        }
        Ok(printed.into_text())
    }

    // Does what a line says.
    #[tactic(auto, using(crate::proofs::Playing::line_plays_nothing, crate::proofs::Tracing::begins_nothing))]
    fn take(
        &mut self,
        alloc: Global,
        sent: T,
        sector: S,
        written: W,
        text: &[u8],
        line: ShellLine<'_>,
        printed: &mut Printed,
    ) -> Result<LineOutcome, AllocError>
        requires sent { Keeps (T.may sent) (T.gives sent) SENT }
        requires sector { Keeps (S.may sector) (S.gives sector) SECTOR }
        requires written { Keeps (W.may written) (W.gives written) WRITTEN }
        requires empty { self.old.notes.tape.items ≡ [] }
        requires blank { string_bytes printed.old.text ≡ [] }
        ensures played { AltairsPlay (λ d. d.board.guest) self.old.opening self.old.world self.new.notes.tape.items
            self.new.world }
        ensures traced { IfOk result (λ _. printed.old.is_traced ≡ true
            → Begins (trace_text self.new.notes.tape.items) (string_bytes printed.new.text)) }
        ensures heeded { IfOk result (λ told. told ≡ outcome.Done → IsHeeded line.entry self.new.notes.tape.items
            printed.old.is_traced (string_bytes printed.old.text) (string_bytes printed.new.text)) }
        ensures looked { IfOk result (λ told. told ≡ outcome.Done → IsLooked (λ d. d.board.guest) line.entry
            self.new.notes.tape.items self.new.world printed.old printed.new) }
        ensures why { IfOk result (λ told. told ≡ outcome.Refused
            → MayRefuse self.old.opening (is_some self.old.world) (Some line.entry)) }
        ensures set { IfOk result (λ told. told ≡ outcome.Done
            → SetsUp line.entry self.old.opening self.new.opening) }
        ensures switched { self.new.is_traced ≡ trace_after (Some line.entry) self.old.is_traced }
        ensures refused { IfOk result (λ told. told ≡ outcome.Refused → IsAsBefore self.old.opening self.new.opening
            self.old.world self.new.world self.old.notes self.new.notes self.old.is_traced self.new.is_traced) }
        ensures ended { IfOk result (λ told. is_ended told ≡ is_quit (Some line.entry)) }
        ensures late { is_setup (Some line.entry) ≡ true → is_some self.old.world ≡ true
            → IfOk result (λ told. told ≡ outcome.Refused) }
    {
        match line {
            ShellLine::Empty => Ok(LineOutcome::Done),
            ShellLine::Trace(is_traced) => {
                self.is_traced = is_traced;
                Ok(LineOutcome::Done)
            }
            ShellLine::Help => list_forms(printed),
            ShellLine::Refusals => list_refusals(printed),
            ShellLine::Quit => Ok(LineOutcome::Ended),
            ShellLine::Setup { .. } | ShellLine::SetSector { .. } | ShellLine::Load(_) => {
                self.take_setup(alloc, text, line, printed)
            }
            line => self.take_event(alloc, sent, sector, written, line, printed),
        }
    }

    // Does what a line of the setup says, unless the pair has booted.
    #[tactic(auto, using(crate::proofs::Refusing::comes_late, crate::proofs::Refusing::is_wrong))]
    fn take_setup(
        &mut self,
        alloc: Global,
        text: &[u8],
        line: ShellLine<'_>,
        printed: &mut Printed,
    ) -> Result<LineOutcome, AllocError>
        ensures set { IfOk result (λ told. told ≡ outcome.Done
            → SetsUp line.entry self.old.opening self.new.opening) }
        ensures refused { IfOk result (λ told. told ≡ outcome.Refused → IsSame self.old.opening self.new.opening) }
        ensures why { is_setup (Some line.entry) ≡ true → IfOk result (λ told. told ≡ outcome.Refused
            → MayRefuse self.old.opening (is_some self.old.world) (Some line.entry)) }
        ensures late { is_some self.old.world ≡ true → IfOk result (λ told. told ≡ outcome.Refused) }
        ensures world { self.new.world ≡ self.old.world }
        ensures notes { self.new.notes ≡ self.old.notes }
        ensures switched { self.new.is_traced ≡ self.old.is_traced }
        ensures goes_on { IfOk result (λ told. is_ended told ≡ false) }
    {
        if self.world.is_some() {
            return refuse(Mistake::Late { line: text }, printed);
        }
        self.opening.take(alloc, text, line, printed)
    }

    // Does what a line says, other than one of the setup; the pair boots if it has not yet.
    #[tactic(auto, using(crate::proofs::Playing::line_plays, crate::proofs::Looking::looked_in))]
    fn take_event(
        &mut self,
        alloc: Global,
        sent: T,
        sector: S,
        written: W,
        line: ShellLine<'_>,
        printed: &mut Printed,
    ) -> Result<LineOutcome, AllocError>
        requires sent { Keeps (T.may sent) (T.gives sent) SENT }
        requires sector { Keeps (S.may sector) (S.gives sector) SECTOR }
        requires written { Keeps (W.may written) (W.gives written) WRITTEN }
        requires empty { self.old.notes.tape.items ≡ [] }
        requires blank { string_bytes printed.old.text ≡ [] }
        ensures played { AltairsPlay (λ d. d.board.guest) self.old.opening self.old.world self.new.notes.tape.items
            self.new.world }
        ensures traced { IfOk result (λ _. printed.old.is_traced ≡ true
            → Begins (trace_text self.new.notes.tape.items) (string_bytes printed.new.text)) }
        ensures heeded { IfOk result (λ told. told ≡ outcome.Done → IsHeeded line.entry self.new.notes.tape.items
            printed.old.is_traced (string_bytes printed.old.text) (string_bytes printed.new.text)) }
        ensures looked { IfOk result (λ told. told ≡ outcome.Done → IsLooked (λ d. d.board.guest) line.entry
            self.new.notes.tape.items self.new.world printed.old printed.new) }
        ensures why { IfOk result (λ told. told ≡ outcome.Refused
            → MayRefuse self.old.opening (is_some self.old.world) (Some line.entry)) }
        ensures opening { self.new.opening ≡ self.old.opening }
        ensures goes_on { IfOk result (λ told. is_ended told ≡ false) }
        ensures switched { self.new.is_traced ≡ self.old.is_traced }
        ensures refused { IfOk result (λ told. told ≡ outcome.Refused → IsAsBefore self.old.opening self.new.opening
            self.old.world self.new.world self.old.notes self.new.notes self.old.is_traced self.new.is_traced) }
    {
        if let Some(world) = &mut self.world {
            take_line(alloc, &mut self.notes, &self.opening, world, line, printed)?;
            return Ok(LineOutcome::Done);
        }
        self.take_first(alloc, sent, sector, written, line, printed)
    }

    // The same of a pair that has not booted yet.
    #[tactic(auto, using(crate::proofs::Playing::line_plays_nothing, crate::proofs::Tracing::begins_nothing, crate::proofs::Refusing::none_boots))]
    fn take_first(
        &mut self,
        alloc: Global,
        sent: T,
        sector: S,
        written: W,
        line: ShellLine<'_>,
        printed: &mut Printed,
    ) -> Result<LineOutcome, AllocError>
        requires sent { Keeps (T.may sent) (T.gives sent) SENT }
        requires sector { Keeps (S.may sector) (S.gives sector) SECTOR }
        requires written { Keeps (W.may written) (W.gives written) WRITTEN }
        requires empty { self.old.notes.tape.items ≡ [] }
        requires blank { string_bytes printed.old.text ≡ [] }
        requires none { self.old.world ≡ None }
        ensures played { AltairsPlay (λ d. d.board.guest) self.old.opening self.old.world self.new.notes.tape.items
            self.new.world }
        ensures traced { IfOk result (λ _. printed.old.is_traced ≡ true
            → Begins (trace_text self.new.notes.tape.items) (string_bytes printed.new.text)) }
        ensures heeded { IfOk result (λ told. told ≡ outcome.Done → IsHeeded line.entry self.new.notes.tape.items
            printed.old.is_traced (string_bytes printed.old.text) (string_bytes printed.new.text)) }
        ensures looked { IfOk result (λ told. told ≡ outcome.Done → IsLooked (λ d. d.board.guest) line.entry
            self.new.notes.tape.items self.new.world printed.old printed.new) }
        ensures why { IfOk result (λ told. told ≡ outcome.Refused
            → MayRefuse self.old.opening (is_some self.old.world) (Some line.entry)) }
        ensures opening { self.new.opening ≡ self.old.opening }
        ensures goes_on { IfOk result (λ told. is_ended told ≡ false) }
        ensures switched { self.new.is_traced ≡ self.old.is_traced }
        ensures refused { IfOk result (λ told. told ≡ outcome.Refused → IsAsBefore self.old.opening self.new.opening
            self.old.world self.new.world self.old.notes self.new.notes self.old.is_traced self.new.is_traced) }
    {
        match booted(alloc, &self.opening, sent, sector, written)? {
            Some(world) => self.begin(alloc, world, line, printed),
            None => refuse(self.opening.detached(), printed),
        }
    }

    // Does what a line says in a pair that has just booted.
    #[tactic(auto, using(crate::proofs::Playing::line_boots, crate::proofs::Looking::looked_in))]
    fn begin(
        &mut self,
        alloc: Global,
        mut world: Altairs<T, S, W>,
        line: ShellLine<'_>,
        printed: &mut Printed,
    ) -> Result<LineOutcome, AllocError>
        requires empty { self.old.notes.tape.items ≡ [] }
        requires blank { string_bytes printed.old.text ≡ [] }
        requires none { self.old.world ≡ None }
        requires boots { BootsBy (λ d. d.board.guest) self.old.opening world }
        ensures played { AltairsPlay (λ d. d.board.guest) self.old.opening self.old.world self.new.notes.tape.items
            self.new.world }
        ensures traced { IfOk result (λ _. printed.old.is_traced ≡ true
            → Begins (trace_text self.new.notes.tape.items) (string_bytes printed.new.text)) }
        ensures heeded { IfOk result (λ _. IsHeeded line.entry self.new.notes.tape.items printed.old.is_traced
            (string_bytes printed.old.text) (string_bytes printed.new.text)) }
        ensures looked { IfOk result (λ _. IsLooked (λ d. d.board.guest) line.entry self.new.notes.tape.items
            self.new.world printed.old printed.new) }
        ensures opening { self.new.opening ≡ self.old.opening }
        ensures switched { self.new.is_traced ≡ self.old.is_traced }
        ensures done { IfOk result (λ told. told ≡ outcome.Done) }
    {
        let taken = take_line(
            alloc,
            &mut self.notes,
            &self.opening,
            &mut world,
            line,
            printed,
        );
        self.world = Some(world);
        taken?;
        Ok(LineOutcome::Done)
    }
}
