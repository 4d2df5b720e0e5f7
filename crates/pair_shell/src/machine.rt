//! Lines that look at what a pair has: the machine of a node, a terminal, a sector, or what a query finds.
ghost use Rattle.std.specs.Prelude.{◌≡◌, ◌<◌, ◌^◌, [], true, IfOk, Some, string_bytes};
ghost use Rattle.guest_board.specs.Inputs.{some_altair};
ghost use Rattle.shell_language.specs.Tapes.{Begins, trace_text};
ghost use Rattle.shell_language.specs.Texts.{Prints};
ghost use Rattle.pair_shell.specs.Looking.{IsLooked, Looks, bytes_from, rows_of};
ghost use Rattle.pair_shell.specs.Playing.{Plays};
ghost use Rattle.pair_shell.specs.Sessions.{IsHeeded};

use crate::notes::Notes;
use crate::showing::{show_found, show_sector};
use crate::why::print_why;
use altair_pair::Altairs;
use event_callbacks::Completes;
use guest_board::Board;
use i8080_words::Fault;
use shell_language::{Look, Printed, SessionSetup, ShellLine, Span, View};
use shell_picture::{print_listing, print_memory, print_refusal, print_registers};
use std::alloc::{AllocError, Global};

/// Does what a line says, other than one of the setup, in a pair of Altairs: of these a line may look at what they have.
#[tactic(auto, using(crate::proofs::Playing::plays_nothing, crate::proofs::Tracing::begins_nothing, crate::proofs::Looking::looked_alone, crate::proofs::Looking::asked_alone, crate::proofs::Looking::read_alone))]
pub fn take_line<T: Completes + Drop, S: Completes + Drop, W: Completes + Drop>(
    alloc: Global,
    notes: &mut Notes,
    opening: &SessionSetup,
    world: &mut Altairs<T, S, W>,
    line: ShellLine<'_>,
    printed: &mut Printed,
) -> Result<(), AllocError>
    requires { notes.old.tape.items ≡ [] }
    ensures played { Plays (λ d. d.board.guest) (λ d. d.board.guest) some_altair world.old notes.new.tape.items world.new }
    ensures traced { IfOk result (λ _. printed.old.is_traced ≡ true → string_bytes printed.old.text ≡ []
        → Begins (trace_text notes.new.tape.items) (string_bytes printed.new.text)) }
    ensures heeded { IfOk result (λ _. IsHeeded line.entry notes.new.tape.items printed.old.is_traced
        (string_bytes printed.old.text) (string_bytes printed.new.text)) }
    ensures looked { IfOk result (λ _. IsLooked (λ d. d.board.guest) line.entry notes.new.tape.items (Some world.new)
        printed.old printed.new) }
{
    match line {
        ShellLine::Look(look) => show_machine(alloc, world, look, printed),
        ShellLine::Query(query) => show_found(world, query, printed),
        ShellLine::Screen { port, is_new } => {
            notes.show_screen(port, is_new, world.accepted(port), printed)
        }
        ShellLine::Sector(address) => show_sector(world, address, printed),
        ShellLine::Rest => notes.rest(alloc, opening, world, printed),
        ShellLine::Why => print_why(alloc, opening, world, &notes.book, printed),
        line => notes.take(alloc, opening, world, line, printed),
    }
}

// What is seen of the machine of a node.
#[tactic(auto, using(crate::proofs::Looking::sees, crate::proofs::Looking::sees_nothing, crate::proofs::Looking::sees_no_machine))]
fn show_machine<T: Completes + Drop, S: Completes + Drop, W: Completes + Drop>(
    alloc: Global,
    world: &Altairs<T, S, W>,
    look: Look,
    printed: &mut Printed,
) -> Result<(), AllocError>
    ensures { IfOk result (λ _. Looks (λ d. d.board.guest) look world.now printed.old printed.new) }
{
    if let Some(guest) = world.guest(look.node) {
        return show(alloc, guest.board(), look.view, printed);
    }
    match world.node(look.node) {
        Some(_) => print_refusal(Fault::WrongRole, printed),
        None => print_refusal(Fault::Unknown, printed),
    }
}

// What is seen of a board.
fn show<T: Completes, S: Completes, W: Completes>(
    alloc: Global,
    board: &Board<T, S, W>,
    view: View,
    printed: &mut Printed,
) -> Result<(), AllocError>
    ensures { IfOk result (λ _. Prints (rows_of view board.now.guest) printed.old printed.new) }
{
    match view {
        View::Registers => print_registers(board.processor(), board.count(), printed),
        View::Memory(Span { from, count }) => {
            let bytes = bytes_from(alloc, board, from, u32::from(count))?;
            print_memory(from, &bytes, printed)
        }
        View::Listing(Span { from, count }) => {
            let bytes = bytes_from(alloc, board, from, 3 * u32::from(count))?;
            print_listing(from, count, &bytes, printed)
        }
    }
}

// So many bytes of memory from an address on; after FFFF comes 0000.
#[tactic(auto, using(crate::proofs::Looking::one_byte_more))]
fn bytes_from<T: Completes, S: Completes, W: Completes>(
    alloc: Global,
    board: &Board<T, S, W>,
    from: u16,
    count: u32,
) -> Result<Vec<u8>, AllocError>
    requires { count < 2 ^ 18 }
    ensures { IfOk result (λ bytes. bytes.items ≡ bytes_from board.now.guest.memory from count) }
{
    let mut bytes = Vec::new(alloc);
    for place in 0..count {
        let address = (u32::from(from) + place) % 65536;
        bytes.push(board.byte(address as u16))?;
    }
    Ok(bytes)
}
