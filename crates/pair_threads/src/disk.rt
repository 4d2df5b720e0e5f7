//! The disk's worker: it serves one request after another.
ghost use Rattle.std.specs.Prelude.{◌≡◌, ◌+◌, ◌≤◌, ℕ, List, cond, length, false, is_some, None, Some, true, IfOk, OnErr};
ghost use Rattle.pair_rule.specs.declared.payload.DiskRequest.{DiskRequest};
ghost use Rattle.disk_dcdd.specs.declared.address.SectorAddress.{SectorAddress};
ghost use Rattle.pair_rule.specs.Seats.{HasSwapsLeft};
ghost use Rattle.pair_threads.specs.Ending.{KeepsSectors};
ghost use Rattle.pair_threads.specs.Stores.{IsStore, Serves};
ghost use Rattle.pair_threads.specs.Turns.{disk_turn};

use crate::signals::Told;
use crate::worker::{Turn, Worker};
use i8080_words::{Fault, R};
use pair_rule::{DiskAnswer, DiskRequest, DiskSeat, Fabric};
use shared_disk::{SectorStore, SharedDisk};

/// The disk's seat, and the disk.
#[derive(Drop)]
pub(crate) struct DiskWorker<D: SectorStore> {
    pub(crate) seat: DiskSeat,
    pub(crate) disk: SharedDisk<D>,
    // The request that was taken and not answered yet.
    request: Option<DiskRequest>,
    ghost taken: { (r : DiskRequest) → request ≡ Some r → seat.core.known.disk.taken ≡ Some r },
    ghost requests: { length seat.core.known.disk.given + cond (is_some request) 1 0 ≤ seat.core.known.disk.takes },
}

impl<D: SectorStore> DiskWorker<D> {
    /// A disk that has given no more answers than it has taken requests, and has none to serve.
    pub(crate) fn new(seat: DiskSeat, disk: SharedDisk<D>) -> DiskWorker<D>
        requires { length seat.core.known.disk.given ≤ seat.core.known.disk.takes }
        ensures seat { result.seat ≡ seat }
        ensures disk { result.disk ≡ disk }
    {
        DiskWorker {
            seat,
            disk,
            request: None,
        }
    }

    // Takes the next request, if there is one.
    fn take(&mut self, fabric: &Fabric) -> Turn
        requires table { self.old.seat.table ≡ fabric.now }
        requires swaps { HasSwapsLeft self.old.seat.core }
        requires none { self.old.request ≡ None }
        ensures table { self.new.seat.table ≡ self.old.seat.table }
        ensures store { (boots : SectorAddress → List ℕ)
            → IsStore boots (D.records self.old.disk) self.old.seat.core.known.disk
            → IsStore boots (D.records self.new.disk) self.new.seat.core.known.disk }
        ensures there { KeepsSectors (D.records self.old.disk) (D.records self.new.disk) }
        ensures turn { result ≡ disk_turn false (is_some self.new.request) }
    {
        self.request = self.seat.take_request(fabric);
        match self.request {
            Some(_) => Turn::Moved,
            None => Turn::Waits,
        }
    }

    // Serves its request and answers it. If the disk fails it, it is tried again in the next turn.
    fn serve(&mut self, fabric: &Fabric, request: DiskRequest) -> Turn
        requires table { self.old.seat.table ≡ fabric.now }
        requires swaps { HasSwapsLeft self.old.seat.core }
        requires has { self.old.request ≡ Some request }
        requires store { (boots : SectorAddress → List ℕ)
            × IsStore boots (D.records self.old.disk) self.old.seat.core.known.disk }
        ensures table { self.new.seat.table ≡ self.old.seat.table }
        ensures store { (boots : SectorAddress → List ℕ)
            → IsStore boots (D.records self.old.disk) self.old.seat.core.known.disk
            → IsStore boots (D.records self.new.disk) self.new.seat.core.known.disk }
        ensures there { KeepsSectors (D.records self.old.disk) (D.records self.new.disk) }
        ensures turn { result ≡ disk_turn true (is_some self.new.request) }
    {
        let Ok(answer) = answer(&mut self.disk, &request) else {
            return Turn::Waits;
        };
        self.seat.reply(fabric, answer);
        self.request = None;
        Turn::Moved
    }
}

// What the disk does about a request, and its answer. If it fails, nothing has changed.
#[tactic(auto, using(crate::proofs::Serving::put_keeps, crate::proofs::Serving::same_keep))]
fn answer<D: SectorStore>(disk: &mut SharedDisk<D>, request: &DiskRequest) -> R<DiskAnswer>
    ensures serves { IfOk result (λ a. Serves (D.records disk.old) request.now a (D.records disk.new)) }
    ensures unchanged { OnErr result (D.records disk.new ≡ D.records disk.old) }
    ensures there { KeepsSectors (D.records disk.old) (D.records disk.new) }
{
    match request {
        DiskRequest::Write(write) => {
            disk.put(write)?;
            Ok(DiskAnswer::Written(write.number))
        }
        DiskRequest::Read(address) => Ok(DiskAnswer::Read(disk.get(*address)?)),
    }
}

impl<D: SectorStore> Worker for DiskWorker<D> {
    ghost use Rattle.std.specs.Prelude.{ℕ, List, ◌≡◌, ◌&&◌, is_some, false};
    ghost use Rattle.disk_dcdd.specs.declared.address.SectorAddress.{SectorAddress};
    ghost use Rattle.pair_threads.specs.Ending.{KeepsSectors};
    ghost use Rattle.pair_threads.specs.Stores.{IsStore};
    ghost use Rattle.pair_threads.specs.Turns.{disk_turn};

    ghost table = { λ w. w.seat.table };

    ghost ready = { λ w. (boots : SectorAddress → List ℕ) × IsStore boots (D.records w.disk) w.seat.core.known.disk };

    ghost came = { λ first w. ((boots : SectorAddress → List ℕ)
        → IsStore boots (D.records first.disk) first.seat.core.known.disk
        → IsStore boots (D.records w.disk) w.seat.core.known.disk)
        × KeepsSectors (D.records first.disk) (D.records w.disk) };

    ghost ended = { λ w. Unit {0} };

    ghost asks = { λ old number new. Unit {0} };

    ghost turned = { λ old number new turn. turn ≡ disk_turn (is_some old.request) (is_some new.request) };

    ghost ends_by = { λ w told. told.primary_ended && told.backup_ended };

    ghost needs_others = { λ w. false };

    fn turn(&mut self, fabric: &Fabric, _number: u64) -> R<Turn> {
        if !self.seat.has_swaps_left() {
            return Err(Fault::Stalled);
        }
        match self.request {
            Some(request) => Ok(self.serve(fabric, request)),
            None => Ok(self.take(fabric)),
        }
    }

    fn may_end(&self, told: Told) -> bool {
        told.primary_ended && told.backup_ended
    }

    fn is_held_up(&self) -> bool {
        false
    }
}
