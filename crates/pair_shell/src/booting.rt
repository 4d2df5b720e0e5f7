//! The pair of a session boots.
ghost use Rattle.std.specs.Prelude.{◌≡◌, IfOk, IfSome, None};
ghost use Rattle.event_callbacks.specs.declared.devices.TheConstants.{SENT, SECTOR, WRITTEN};
ghost use Rattle.event_callbacks.specs.Keeping.{Keeps};
ghost use Rattle.pair_shell.specs.Sessions.{BootsBy, CannotBoot};

use altair_pair::{Altairs, boot};
use event_callbacks::Completes;
use i8080_words::Fault;
use shell_language::SessionSetup;
use std::alloc::{AllocError, Global};

/// A pair that boots as a session's setup says; none if a sector of the setup is on a drive that is not attached.
#[tactic(auto, using(crate::proofs::Refusing::cannot_boot))]
pub fn booted<T: Completes + Drop + Copy, S: Completes + Drop + Copy, W: Completes + Drop + Copy>(
    alloc: Global,
    opening: &SessionSetup,
    sent: T,
    sector: S,
    written: W,
) -> Result<Option<Altairs<T, S, W>>, AllocError>
    requires sent { Keeps (T.may sent) (T.gives sent) SENT }
    requires sector { Keeps (S.may sector) (S.gives sector) SECTOR }
    requires written { Keeps (W.may written) (W.gives written) WRITTEN }
    ensures boots { IfOk result (λ booted. IfSome booted (λ world. BootsBy (λ d. d.board.guest) opening.now world)) }
    ensures none { IfOk result (λ booted. booted ≡ None → CannotBoot opening.now) }
{
    let setup = &opening.setup;
    let sectors = &opening.sectors;
    match boot(alloc, setup, sectors, sent, sector, written) {
        Ok(world) => Ok(Some(world)),
        Err(Fault::OutOfMemory) => Err(AllocError),
        Err(_) => Ok(None),
    }
}
