//! The program's output.
ghost use Rattle.std.specs.Prelude.{◌≡◌, ◌<◌, ◌⊎◌, [], Err, IfErr, OnOk, string_bytes};
ghost use Rattle.std.specs.Io.KnownBytes.{Appends, Keeps};
ghost use Rattle.command_io.specs.Reports.{AddsLine, handed};
ghost use Rattle.command_io.specs.declared.failure.Failure.TheVariants as failure;

use crate::failure::Failure;
use std::alloc::Global;
use std::fmt;
use std::io::Write;

// How many bytes of output are written line by line; after that, lines are gathered.
const UNGATHERED_BYTES: usize = 65_536;

// At least this many bytes are gathered before they are written.
const BLOCK_BYTES: usize = 16_384;

// Guests may make at most this many turns while lines wait.
const TURNS: u64 = 10_000;

/// Lines for a writer: one by one at first, and many at a time once there are many; never a part of a line.
#[derive(Drop)]
pub struct LineReport {
    lines: String,
    line: String,
    written: usize,
    turns: u64,
}

impl LineReport {
    /// No lines yet.
    pub fn new(alloc: Global) -> LineReport
        ensures { string_bytes result.lines ≡ [] }
    {
        LineReport {
            lines: String::new(alloc),
            line: String::new(alloc),
            written: 0,
            turns: 0,
        }
    }

    /// Hands in a line with this text. After `OutOfMemory` there is no such line, and all others are as they were.
    pub fn line<D: fmt::Display, W: Write>(
        &mut self,
        writer: &mut W,
        text: &D,
    ) -> Result<(), Failure>
        ensures ok { OnOk result (AddsLine (D.output text.now)
            (handed (W.contents writer.old) self.old) (handed (W.contents writer.new) self.new)) }
        ensures no_line { result ≡ Err failure.OutOfMemory
            → Keeps (handed (W.contents writer.old) self.old) (handed (W.contents writer.new) self.new) }
        ensures at_once { OnOk result (self.old.written < 65536 → string_bytes self.new.lines ≡ []) }
        ensures errors { IfErr result (λ e. (e ≡ failure.OutOfMemory) ⊎ (e ≡ failure.InputOrOutput)) }
    {
        self.line.clear();
        writeln!(self.line, "{text}")?;
        self.lines.push_str(&self.line)?;
        if self.written >= UNGATHERED_BYTES && self.lines.len() < BLOCK_BYTES {
            return Ok(());
        }
        self.flush(writer)
    }

    /// Called before guests make this many turns, so that lines wait for at most 10,000 turns.
    pub fn before_turns<W: Write>(&mut self, writer: &mut W, turns: u64) -> Result<(), Failure>
        ensures ok { OnOk result
            (Keeps (handed (W.contents writer.old) self.old) (handed (W.contents writer.new) self.new)) }
        ensures none_left { OnOk result (10000 < turns → string_bytes self.new.lines ≡ []) }
        ensures errors { IfErr result (λ e. e ≡ failure.InputOrOutput) }
    {
        self.turns = self.turns.saturating_add(turns);
        if self.turns <= TURNS {
            return Ok(());
        }
        self.flush(writer)
    }

    /// Writes all lines.
    pub fn flush<W: Write>(&mut self, writer: &mut W) -> Result<(), Failure>
        ensures written { OnOk result
            (Appends (W.contents writer.old) (W.contents writer.new) (string_bytes self.old.lines)) }
        ensures none_left { OnOk result (string_bytes self.new.lines ≡ []) }
        ensures errors { IfErr result (λ e. e ≡ failure.InputOrOutput) }
    {
        writer.write_all(self.lines.as_bytes())?;
        self.written = self.written.saturating_add(self.lines.len());
        self.lines.clear();
        self.turns = 0;
        writer.flush()?;
        Ok(())
    }
}
