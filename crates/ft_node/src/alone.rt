//! A node that is live.
ghost use Rattle.std.specs.Prelude.{◌≡◌, ◌<◌, IfOk, Ok, OnErr};
ghost use Rattle.event_callbacks.specs.declared.devices.TheConstants.{PORTS};
ghost use Rattle.pair_protocol.specs.Effects.{Took};
ghost use Rattle.pair_protocol.specs.Node.{Node};
ghost use Rattle.recorder.specs.Recording.{IsDue};
ghost use Rattle.ft_node.specs.Calls as calls;
ghost use Rattle.ft_node.specs.Roles.{IsAlone};
ghost use Rattle.ft_node.specs.Pages.{SamePages, StepsWrite};

use crate::ran::Ran;
use event_callbacks::{OpId, Operation};
use guest_lockstep::{Input, Lockstep, Stopped};
use i8080_words::{Fault, R};
use log_buffer::NoLog;
use recorder::Recorder;

/// A guest that runs with no backup: its log keeps nothing, and it releases whatever it gives (VMware FT, section 2.3, "go
/// live").
#[derive(Drop)]
pub struct Alone<B> {
    pub(crate) recorder: Recorder<B, NoLog>,
    pub(crate) generation: u32,
    ghost first: { 0 < generation },
}

impl<B: Lockstep> Alone<B> {
    /// Makes at most `turns` steps, and stops after the first that gives an operation.
    pub(crate) fn step(&mut self, turns: u64) -> R<Ran>
        ensures answer { (x : Node B.State)
            → IsAlone self.old.recorder.reads (B.state self.old.recorder.board) self.old.generation x
            → calls.Steps B.machine turns x result (IsAlone self.new.recorder.reads (B.state self.new.recorder.board) self.new.generation) }
        ensures pages { IfOk result (λ ran. StepsWrite B.state B.machine B.writes B.stale ran.steps self.old.recorder.board self.new.recorder.board) }
        ensures unchanged { OnErr result (self.new ≡ self.old) }
    {
        let Stopped { steps, reason } = self.recorder.advance(turns)?;
        Ok(Ran {
            steps,
            count: self.recorder.board().count(),
            why: reason,
        })
    }

    /// Takes an input that its guest awaits.
    pub(crate) fn accept(&mut self, input: Input)
        requires { IsDue B.machine (B.state self.old.recorder.board) input }
        ensures pages { SamePages B.stale self.old.recorder.board self.new.recorder.board }
        ensures node { (x : Node B.State)
            → IsAlone self.old.recorder.reads (B.state self.old.recorder.board) self.old.generation x
            → calls.Makes x (Took B.machine input) (IsAlone self.new.recorder.reads (B.state self.new.recorder.board) self.new.generation) }
    {
        let _index = self.recorder.accept(input);
    }

    /// The outstanding operation with a name.
    pub(crate) fn release(&self, id: OpId) -> R<Operation>
        ensures { (x : Node B.State)
            → IsAlone self.now.recorder.reads (B.state self.now.recorder.board) self.now.generation x
            → calls.Releases B.machine id x result }
    {
        match self.recorder.board().outstanding(id) {
            Some(operation) => Ok(*operation),
            None => Err(Fault::NotDue),
        }
    }

    /// How many keys of a port are covered: all that the guest has taken.
    pub(crate) fn told(&self, port: u8) -> u64
        requires { port < PORTS }
        ensures { (x : Node B.State)
            → IsAlone self.now.recorder.reads (B.state self.now.recorder.board) self.now.generation x
            → calls.Tells B.machine port x (Ok result) }
    {
        self.recorder.board().keys(port)
    }
}
