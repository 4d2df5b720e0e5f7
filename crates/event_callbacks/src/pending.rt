//! The operations that are outstanding, by name.
ghost use Rattle.std.specs.Prelude.{◌≡◌, ◌<◌, ◌^◌, OnOk, OnErr, IfOk, IfSome, IfNone, IsOkUnless};
ghost use Rattle.std.specs.Option.{option_copied};
ghost use Rattle.event_callbacks.specs.Operations as table;
ghost use Rattle.event_callbacks.specs.Slots.{IsAt, IsNowhere};
ghost use Rattle.i8080_words.specs.declared.refusal.Fault.TheVariants.{OutOfMemory};

use crate::operations::{OpId, Operation};
use i8080_words::{Fault, R};
use slab::Slab;
use std::alloc::Global;
use std::marker::Model;

/// The outstanding operations, each under its name, and the room kept for more of them.
#[derive(Drop)]
pub struct Pending {
    slab: Slab<Operation>,
    // For how many more operations there certainly is room.
    spare: usize,
}

impl Model for Pending {
    ghost use Rattle.event_callbacks.specs.contracts.operations.OpId as id;
    ghost use Rattle.event_callbacks.specs.contracts.operations.Operation as operation;
    ghost use Rattle.event_callbacks.specs.Operations.{Outstanding, outstanding_code};

    ghost Value = { Outstanding };

    ghost coded = { outstanding_code id.the_row.coded operation.the_row.coded };

    ghost use Rattle.event_callbacks.specs.Pending.{outstanding_of, IsPending};

    ghost view = { outstanding_of };

    ghost invariant = { IsPending };
}

impl Pending {
    /// No operations, and room for none.
    pub fn new(alloc: Global) -> Self
        ensures { result ≡ table.nothing_outstanding }
    {
        Pending {
            slab: Slab::new(alloc),
            spare: 0,
        }
    }

    /// Whether the next `issue` needs no memory.
    pub fn has_room(&self) -> bool
        ensures { result ≡ table.has_room self.now }
    {
        self.spare > 0
    }

    /// Makes room for one more operation, so that the next `issue` succeeds. `OutOfMemory` changes nothing, and is
    /// returned only if there was no room.
    pub fn reserve(&mut self) -> R<()>
        ensures ok { OnOk result (self.new ≡ table.after_reserve self.old) }
        ensures full { OnErr result ((result ≡ Err OutOfMemory) × (self.old.spare ≡ 0)) }
        ensures err { OnErr result (self.new ≡ self.old) }
    {
        if self.has_room() {
            return Ok(());
        }
        self.slab.reserve(1)?;
        self.spare = 1;
        Ok(())
    }

    /// Adds an outstanding operation. `OutOfMemory` changes nothing, and is returned only if there was no room.
    pub fn issue(&mut self, operation: Operation) -> R<()>
        requires { table.operation_at self.old.operations (table.id_of operation) ≡ None }
        ensures ok { OnOk result (self.new ≡ table.after_issue self.old operation) }
        ensures full { OnErr result ((result ≡ Err OutOfMemory) × (self.old.spare ≡ 0)) }
        ensures err { OnErr result (self.new ≡ self.old) }
    {
        self.slab.insert(operation)?;
        self.spare = self.spare.saturating_sub(1);
        Ok(())
    }

    /// The operation of this name.
    pub fn find(&self, id: OpId) -> Option<&Operation>
        ensures value { option_copied result ≡ table.operation_at self.now.operations id }
        ensures name { IfSome (option_copied result) (λ op. table.id_of op ≡ id) }
    {
        let key = find_key(&self.slab, id)?;
        self.slab.get(key)
    }

    /// Removes the operation of this name, and leaves room for another. `NotDue` if it was not outstanding.
    pub fn complete(&mut self, id: OpId) -> R<Operation>
        ensures answer { result ≡ table.complete_answer self.old id }
        ensures after { self.new ≡ table.after_complete self.old id }
        ensures name { IfOk result (λ op. table.id_of op ≡ id) }
    {
        let Some(key) = find_key(&self.slab, id) else {
            return Err(Fault::NotDue);
        };
        let operation = self.slab.remove(key);
        self.spare += 1;
        Ok(operation)
    }

    /// A copy of the operations, with room for no more of them.
    pub fn copy(&self) -> R<Pending>
        ensures ok { IfOk result (λ copy. copy ≡ table.without_room self.now) }
        ensures err { IsOkUnless result OutOfMemory }
    {
        Ok(Pending {
            slab: self.slab.clone()?,
            spare: 0,
        })
    }
}

// The key of the operation of this name.
fn find_key(slab: &Slab<Operation>, id: OpId) -> Option<usize>
    ensures found { IfSome result (IsAt slab.now.slots id) }
    ensures absent { IfNone result (IsNowhere slab.now.slots id) }
    // A capacity is a `usize`, which the model of a slab does not say.
    ensures fits { slab.now.capacity < 2 ^ 64 }
{
    for key in 0..slab.capacity() {
        if let Some(operation) = slab.get(key)
            && operation.id() == id
        {
            return Some(key);
        }
    }
    None
}
