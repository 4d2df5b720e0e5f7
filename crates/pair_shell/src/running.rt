//! The ordinary day of a pair.
ghost use Rattle.std.specs.Prelude.{◌≡◌, ◌++◌, [], true, IfOk, is_some, string_bytes};
ghost use Rattle.ft_world.specs.Applies.{Shows};
ghost use Rattle.ft_world.specs.Standing.{Course};
ghost use Rattle.shared_disk.specs.Failing.{records_in};
ghost use Rattle.pair_shell.specs.Backups.{FindsBackup, HasDay, IsFirstBackup};
ghost use Rattle.pair_shell.specs.Books.{HasBook};
ghost use Rattle.pair_shell.specs.Days.{is_held, lack_row, lack_rows, lacks_backup, ran_rows};
ghost use Rattle.pair_shell.specs.Playing.{Plays};
ghost use Rattle.shell_language.specs.Texts.{AddsSome, Prints};
ghost use Rattle.shell_language.specs.Tapes.{Begins, trace_text};
ghost use Rattle.shell_picture.specs.HeldUp.{held_rows};

use crate::notes::Notes;
use board_image::KeyRoom;
use clone_state::Copies;
use ft_world::{NodeStatus, World};
use i8080_words::{Fault, R};
use pair_events::Role;
use shared_disk::Disk;
use shell_language::{Book, Played, Printed, SessionSetup, Turns, holds_up, meeting_of};
use shell_picture::{Day, EventQueue, print_held_up, print_refusal};
use std::alloc::{AllocError, Global};

/// A day that has paused: what it is to play, the node that runs the guest, and its backup if it has one.
#[derive(Drop)]
pub struct PausedDay {
    plan: EventQueue,
    node: u64,
    backup: Option<u64>,
}

impl Notes {
    /// The ordinary day of a pair, or the first of its events.
    #[tactic(auto, using(crate::proofs::Playing::plays_nothing, crate::proofs::Tracing::begins_nothing))]
    pub(crate) fn run<B: Copies<H> + KeyRoom + Drop, H: Drop>(
        &mut self,
        alloc: Global,
        opening: &SessionSetup,
        world: &mut World<B, Disk, H>,
        turns: Turns,
        printed: &mut Printed,
    ) -> Result<(), AllocError>
        requires { self.old.tape.items ≡ [] }
        ensures played { Plays B.state B.copied B.machine world.old self.new.tape.items world.new }
        ensures traced { IfOk result (λ _. printed.old.is_traced ≡ true → string_bytes printed.old.text ≡ []
            → Begins (trace_text self.new.tape.items) (string_bytes printed.new.text)) }
    {
        match self.backup_for(alloc, opening, world, turns.node)? {
            Ok(backup) => {
                let day = PausedDay {
                    plan: EventQueue::day(alloc, Day::new(alloc, turns, backup)),
                    node: turns.node,
                    backup,
                };
                self.play_day(alloc, world, day, printed)
            }
            Err(fault) => print_refusal(fault, printed),
        }
    }

    /// Whether a day has paused.
    pub(crate) fn goes_on(&self) -> bool
        ensures { result ≡ is_some self.now.left }
    {
        self.left.is_some()
    }

    /// Goes on with a day that has paused, if there is one.
    #[tactic(auto, using(crate::proofs::Playing::plays_nothing, crate::proofs::Tracing::begins_nothing))]
    pub(crate) fn go_on<B: Copies<H> + KeyRoom + Drop, H: Drop>(
        &mut self,
        alloc: Global,
        world: &mut World<B, Disk, H>,
        printed: &mut Printed,
    ) -> Result<(), AllocError>
        requires { self.old.tape.items ≡ [] }
        ensures played { Plays B.state B.copied B.machine world.old self.new.tape.items world.new }
        ensures traced { IfOk result (λ _. printed.old.is_traced ≡ true → string_bytes printed.old.text ≡ []
            → Begins (trace_text self.new.tape.items) (string_bytes printed.new.text)) }
    {
        match self.left.take() {
            Some(day) => self.play_day(alloc, world, day, printed),
            None => Ok(()),
        }
    }

    // The backup of a node's day, if it has one; or why the node has no day. The book of one that is alone begins
    // again from what is settled.
    #[tactic(auto, using(crate::proofs::Backups::day_of_none, crate::proofs::Backups::day_of_primary, crate::proofs::Backups::day_of_alone, crate::proofs::Backups::day_of_other, crate::proofs::Books::book_of_none, crate::proofs::Books::book_of_primary, crate::proofs::Books::book_of_alone, crate::proofs::Books::book_of_other))]
    fn backup_for<B: Copies<H> + Drop, H: Drop>(
        &mut self,
        alloc: Global,
        opening: &SessionSetup,
        world: &World<B, Disk, H>,
        node: u64,
    ) -> Result<R<Option<u64>>, AllocError>
        ensures tape { self.new.tape ≡ self.old.tape }
        ensures found { IfOk result (λ found. (c : Course B.State) → Shows B.state B.copied B.machine records_in world.now c
            → HasDay B.machine c.world.nodes opening.now.setup.hosts node found) }
        ensures book { IfOk result (λ _. (c : Course B.State) → Shows B.state B.copied B.machine records_in world.now c
            → HasBook B.machine c node self.old.book self.new.book) }
    {
        let Some(status) = world.node(node) else {
            return Ok(Err(Fault::Unknown));
        };
        match status.role {
            Role::Primary => Ok(Ok(backup_of(world, opening.setup.hosts, status.generation))),
            Role::Alone => {
                let (inputs, _) = world.settled();
                self.book.begin_again(alloc, inputs)?;
                Ok(Ok(None))
            }
            _ => Ok(Err(Fault::WrongRole)),
        }
    }

    // Plays a day until it pauses or ends, and says how it has gone if it has ended.
    fn play_day<B: Copies<H> + KeyRoom + Drop, H: Drop>(
        &mut self,
        alloc: Global,
        world: &mut World<B, Disk, H>,
        mut day: PausedDay,
        printed: &mut Printed,
    ) -> Result<(), AllocError>
        ensures played { Plays B.state B.copied B.machine world.old self.new.tape.items world.new }
        ensures traced { IfOk result (λ _. printed.old.is_traced ≡ true → string_bytes printed.old.text ≡ []
            → Begins (trace_text self.new.tape.items) (string_bytes printed.new.text)) }
    {
        if !self.play(alloc, world, &mut day.plan, printed)? {
            self.left = Some(day);
            return Ok(());
        }
        let count = count_of(world, day.node);
        print_day(
            &day.plan, count, day.backup, &self.tape, &self.book, printed,
        )
    }
}

// How many steps a node shows that it has made.
fn count_of<B: Copies<H> + Drop, H: Drop>(world: &World<B, Disk, H>, node: u64) -> u64 {
    match world.node(node) {
        Some(status) => status.count,
        None => 0,
    }
}

// How a day has gone, and what is held up after it.
#[tactic(auto, using(shell_language::proofs::Adding::adds_more, shell_language::proofs::Adding::prints_then))]
fn print_day(
    plan: &EventQueue,
    count: u64,
    backup: Option<u64>,
    tape: &[Played],
    book: &Book,
    printed: &mut Printed,
) -> Result<(), AllocError>
    ensures some { IfOk result (λ _. AddsSome printed.old printed.new) }
    ensures told { IfOk result (λ _. Prints (ran_rows plan.now.day count ++ (held_rows tape.now book.now ++ lack_rows backup tape.now book.now))
        printed.old printed.new) }
{
    print_ran(plan, count, printed)?;
    print_stuck(backup, tape, book, printed)
}

// What is held up after a day.
#[tactic(auto, using(shell_language::proofs::Adding::adds_more, shell_language::proofs::Adding::prints_then))]
fn print_stuck(
    backup: Option<u64>,
    tape: &[Played],
    book: &Book,
    printed: &mut Printed,
) -> Result<(), AllocError>
    ensures some { IfOk result (λ _. AddsSome printed.old printed.new) }
    ensures told { IfOk result (λ _. Prints (held_rows tape.now book.now ++ lack_rows backup tape.now book.now) printed.old printed.new) }
{
    print_held_up(tape, book, printed)?;
    print_lack(lacks_backup(backup, tape, book), printed)
}

// Says that there is no backup, if that holds something up.
#[tactic(auto, using(shell_language::proofs::Adding::adds_none, shell_language::proofs::Adding::prints_none, shell_language::proofs::Adding::prints_text))]
fn print_lack(lacks: bool, printed: &mut Printed) -> Result<(), AllocError>
    ensures some { IfOk result (λ _. AddsSome printed.old printed.new) }
    ensures told { IfOk result (λ _. Prints (lack_row lacks) printed.old printed.new) }
{
    if lacks {
        printed.line(&"  no backup acknowledges: it has stopped, or is not whole yet")?;
    }
    Ok(())
}

// Whether a primary has no backup that acknowledges, and output or its log is held up for that.
fn lacks_backup(backup: Option<u64>, tape: &[Played], book: &Book) -> bool
    ensures { result ≡ lacks_backup backup tape.now book.now }
{
    match backup {
        Some(_) => false,
        None => is_held(Fault::NotCovered, tape, book) || is_held(Fault::LogFull, tape, book),
    }
}

// Whether a refusal that the events of a day met holds something up.
fn is_held(fault: Fault, tape: &[Played], book: &Book) -> bool
    ensures { result ≡ is_held fault tape.now book.now }
{
    holds_up(fault, meeting_of(fault, tape), book.waiting())
}

// How many steps a day has made, and why it ended.
#[tactic(auto, using(shell_language::proofs::Adding::adds_none, crate::proofs::Days::tells_ran, crate::proofs::Days::tells_no_day))]
fn print_ran(plan: &EventQueue, count: u64, printed: &mut Printed) -> Result<(), AllocError>
    ensures some { IfOk result (λ _. AddsSome printed.old printed.new) }
    ensures told { IfOk result (λ _. Prints (ran_rows plan.now.day count) printed.old printed.new) }
{
    match plan.as_day() {
        Some(day) => {
            printed.line(&format_args!("ran {} count {count} {}", day.made(), day.ending()))
        }
        None => Ok(()),
    }
}

// The backup of a generation, if it has one: the first of the hosts that is one.
fn backup_of<B: Copies<H> + Drop, H: Drop>(
    world: &World<B, Disk, H>,
    hosts: u8,
    generation: u32,
) -> Option<u64>
    ensures { (c : Course B.State) → Shows B.state B.copied B.machine records_in world.now c
        → IsFirstBackup B.machine c.world.nodes generation hosts result }
{
    for node in 0..u64::from(hosts) {
        if is_backup(world, node, generation) {
            return Some(node);
        }
    }
    None
}

// Whether a node is a backup of this generation.
#[tactic(auto, using(crate::proofs::Backups::finds))]
fn is_backup<B: Copies<H> + Drop, H: Drop>(
    world: &World<B, Disk, H>,
    node: u64,
    generation: u32,
) -> bool
    ensures { (c : Course B.State) → Shows B.state B.copied B.machine records_in world.now c
        → FindsBackup B.machine c.world.nodes generation node result }
{
    match world.node(node) {
        Some(
            NodeStatus {
                role: Role::Backup,
                generation: its,
                ..
            },
        ) => its == generation,
        _ => false,
    }
}
