//! A node that takes over: it asks the arbiter, drains if it was a backup, and is alone.
ghost use Rattle.std.specs.Prelude.{◌≡◌, ◌≢◌, ◌<◌, ℕ, None, true, length, IfErr, IfSome, OnErr, OnOk};
ghost use Rattle.guest_lockstep.specs.Pages.{every_page};
ghost use Rattle.i8080_words.specs.declared.refusal.Fault.TheVariants.{Lost};
ghost use Rattle.pair_protocol.specs.Copying.{Copying};
ghost use Rattle.pair_protocol.specs.Node as protocol;
ghost use Rattle.pair_protocol.specs.Node.{goes_live, wins};
ghost use Rattle.ft_node.specs.Calls as calls;
ghost use Rattle.ft_node.specs.Checked as checked;
ghost use Rattle.ft_node.specs.Roles.{IsFollower};
ghost use Rattle.ft_node.specs.AnyNode.{IsNode, MayReplay, PagesStay, alone_board};

use crate::alone::Alone;
use crate::node::Node;
use crate::ran::Drained;
use crate::winner::Winner;
use arbiter_core::{Arbiter, Won};
use clone_state::Copies;
use go_live::Draining;
use guest_lockstep::{Reads, ReplayEnd};
use i8080_words::{Fault, R};
use log_buffer::NoLog;
use recorder::Recorder;

impl<B: Copies<H> + Drop, H: Drop> Node<B, H> {
    /// Asks the arbiter for the generation: the first node to ask has won, and is alone, or drains first if it was a
    /// backup. `Lost` if the other node has asked before; this one is then halted. `NotWhole` at a joining node, which
    /// may not ask. `OutOfMemory` if the arbiter has no room.
    pub fn suspect(&mut self, id: u64, arbiter: &mut Arbiter) -> R<Won>
        ensures answer { (C : Copying B.State) (drives : ℕ) (x : protocol.Node B.State) → IsNode B.state B.machine C drives self.old x
            → calls.Suspects arbiter.old id x result arbiter.new (IsNode B.state B.machine C drives self.new) }
        ensures pages { OnOk result (PagesStay B.stale self.old self.new) }
        ensures unchanged { IfErr result (λ fault. fault ≢ Lost → self.new ≡ self.old) }
        ensures arbiter { OnErr result (arbiter.new ≡ arbiter.old) }
    {
        let generation = self.generation();
        if let Node::Halted(_) = self {
            return Err(Fault::WrongRole);
        }
        if let Node::Joining(_) = self {
            return Err(Fault::NotWhole);
        }
        if arbiter.winner(generation) == Some(id) {
            return Ok(Won);
        }
        match arbiter.test_and_set(generation, id) {
            Ok(won) => {
                self.win();
                Ok(won)
            }
            Err(Fault::Lost) => {
                self.halt();
                Err(Fault::Lost)
            }
            Err(fault) => Err(fault),
        }
    }

    /// Makes at most `turns` moves from the entries that a node that won still holds; with nothing left the node is
    /// alone. Makes fewer also where what it holds fits its guest no longer; `OutOfMemory` or `Malformed` if it makes none.
    pub fn drain(&mut self, turns: u64) -> R<Drained>
        ensures answer { (C : Copying B.State) (drives : ℕ) (x : protocol.Node B.State) → IsNode B.state B.machine C drives self.old x
            → checked.Drains B.machine turns x result (IsNode B.state B.machine C drives self.new) }
        ensures exactly { MayReplay B.state B.machine self.old → (C : Copying B.State) (drives : ℕ) (x : protocol.Node B.State) → IsNode B.state B.machine C drives self.old x
            → calls.Drains B.machine turns x result (IsNode B.state B.machine C drives self.new) }
        ensures pages { OnOk result (PagesStay B.stale self.old self.new) }
        ensures unchanged { OnErr result (self.new ≡ self.old) }
    {
        let Node::Draining(winner) = self else {
            return Err(Fault::WrongRole);
        };
        let replayed = winner.drain(turns)?;
        if let ReplayEnd::End = replayed.why {
            self.finish();
        }
        Ok(Drained {
            moves: replayed.moves,
            why: replayed.why,
        })
    }

    // The node has won: a primary is alone, a backup drains.
    fn win(&mut self)
        ensures pages { PagesStay B.stale self.old self.new }
        ensures node { (C : Copying B.State) (drives : ℕ) (x : protocol.Node B.State) → x.running ≡ true → IsNode B.state B.machine C drives self.old x
            → IsNode B.state B.machine C drives self.new (wins x) }
    {
        let node = match self.take_out() {
            Node::Primary(primary) => {
                let generation = primary.sender.generation();
                let reads = primary.recorder.reads();
                let board = primary.recorder.into_board();
                Node::Alone(gone_live::<B, H>(board, generation, reads))
            }
            Node::Backup(backup) => Node::Draining(Winner {
                reads: backup.reads,
                draining: Draining::begin(backup.replayer, backup.receiver),
            }),
            other => other,
        };
        self.become_node(node);
    }

    // A node that has drained is alone.
    fn finish(&mut self)
        requires draining { alone_board self.old ≡ None }
        ensures pages { PagesStay B.stale self.old self.new }
        ensures node { (C : Copying B.State) (drives : ℕ) (y : protocol.Node B.State) → y.role ≡ protocol.Draining → y.replayed ≡ length y.held
            → IsNode B.state B.machine C drives self.old y → IsNode B.state B.machine C drives self.new (goes_live y) }
    {
        let node = match self.take_out() {
            Node::Draining(winner) => alone(winner),
            other => other,
        };
        self.become_node(node);
    }
}

// A node that is alone from now on: no page of its guest is copied early yet.
fn gone_live<B: Copies<H> + Drop, H: Drop>(mut board: B, generation: u32, reads: Reads) -> Alone<B>
    requires { 0 < generation }
    ensures state { B.state result.recorder.board ≡ B.state board }
    ensures pages { B.stale result.recorder.board ≡ every_page }
    ensures generation { result.generation ≡ generation }
    ensures reads { result.recorder.reads ≡ reads }
{
    board.forget();
    Alone {
        recorder: Recorder::new(board, NoLog {}, reads),
        generation,
    }
}

// The alone node that a drained node becomes.
fn alone<B: Copies<H> + Drop, H: Drop>(winner: Winner<B>) -> Node<B, H>
    ensures pages { IfSome (alone_board result) (λ board. B.stale board ≡ every_page) }
    ensures node { (C : Copying B.State) (drives : ℕ) (y : protocol.Node B.State) → y.replayed ≡ length y.held
        → IsFollower protocol.Draining winner.reads (B.state winner.draining.replayer.board)
        winner.draining.replayer.fetched winner.draining.receiver y
        → IsNode B.state B.machine C drives result (goes_live y) }
{
    let Winner { draining, reads } = winner;
    let generation = draining.receiver().generation();
    match draining.finish() {
        Ok(board) => Node::Alone(gone_live::<B, H>(board, generation, reads)),
        Err((draining, _)) => Node::Draining(Winner { draining, reads }),
    }
}
