//! A board with the same guest as another, and closures of its own.
ghost use Rattle.std.specs.Prelude.{◌≡◌, IfOk, IfErr};
ghost use Rattle.i8080_words.specs.declared.refusal.Fault.TheVariants.{OutOfMemory};

use super::Board;
use crate::wiring::Wiring;
use event_callbacks::{Callbacks, Completes};
use i8080_words::Fault;
use std::alloc::Global;

impl<T: Completes, S: Completes, W: Completes> Board<T, S, W> {
    /// A copy of the guest, in memory of its own and with these closures; its outstanding operations and the versions
    /// of its pages are the same too. `OutOfMemory` hands the closures back.
    pub fn copy<T2: Completes, S2: Completes, W2: Completes>(
        &self,
        alloc: Global,
        callbacks: Callbacks<T2, S2, W2>,
    ) -> Result<Board<T2, S2, W2>, (Callbacks<T2, S2, W2>, Fault)>
        ensures ok { IfOk result (λ board. board ≡ self.now) }
        ensures full { IfErr result (λ refused. (refused.0 ≡ callbacks) × (refused.1 ≡ OutOfMemory)) }
    {
        let Ok(memory) = self.wiring.memory.copy() else {
            return Err((callbacks, Fault::OutOfMemory));
        };
        let Ok(pending) = self.pending.copy() else {
            return Err((callbacks, Fault::OutOfMemory));
        };
        let Ok(completed) = Vec::from_slice(alloc, self.completed.as_slice()) else {
            return Err((callbacks, Fault::OutOfMemory));
        };
        let devices = self.wiring.devices.copy();
        let issued = self.wiring.issued;
        let keys = self.keys;
        let levels = self.levels;
        Ok(Board {
            callbacks,
            cpu: self.cpu,
            wiring: Wiring {
                memory,
                devices,
                issued,
                sense: self.wiring.sense,
                given: None,
            },
            pending,
            completed,
            count: self.count,
            ready_until: 0,
            keys,
            levels,
        })
    }
}
