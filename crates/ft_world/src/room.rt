//! How a pair begins: the memory that it needs, and its two nodes.
ghost use Rattle.pair_protocol.specs.Copying.{Copying};
ghost use Rattle.std.specs.Prelude.{◌≡◌, ℕ, ◌+◌, ◌≤◌, [], IsOkUnless, vec_capacity, vec_len};
ghost use Rattle.i8080_words.specs.declared.refusal.Fault.TheVariants.{OutOfMemory};
ghost use Rattle.log_buffer.specs.Log as logs;
ghost use Rattle.pair_protocol.specs.World.{opening};
ghost use Rattle.ft_world.specs.Shows.{AreHosts};
ghost use Rattle.ft_world.specs.Standing.{Course, machine_of};

use crate::host::Host;
use crate::station::Station;
use clone_state::Copies;
use ft_node::Node;
use guest_lockstep::Reads;
use i8080_words::R;
use log_buffer::LogBuffer;
use std::alloc::Global;

/// All the memory that a pair needs to begin: places for its two nodes, and the primary's log.
#[derive(Drop)]
pub struct Room<B, H> {
    hosts: Vec<Host<B, H>>,
    log: LogBuffer,
    ghost empty: { hosts.items ≡ [] },
    ghost two: { vec_len hosts + 2 ≤ vec_capacity hosts },
    ghost unused: { log ≡ logs.log 0 [] },
}

impl<B: Copies<H> + Drop, H: Drop> Room<B, H> {
    /// Allocates that memory. `OutOfMemory` if the allocator refuses it.
    pub fn new(alloc: Global) -> R<Room<B, H>>
        ensures { IsOkUnless result OutOfMemory }
    {
        let hosts = Vec::with_capacity(alloc, 2)?;
        let log = LogBuffer::new(alloc, 0)?;
        Ok(Room { hosts, log })
    }

    /// The primary and the backup of generation 1, with these guests; `reads` says whether the log carries sector bytes.
    /// Allocates no further memory.
    pub(crate) fn begin(self, alloc: Global, reads: Reads, primary: B, backup: B) -> Vec<Host<B, H>>
        ensures { (C : Copying B.State) (drives : ℕ) (c : Course B.State) → B.state primary ≡ c.boot → B.state backup ≡ c.boot
            → B.machine.count c.boot ≡ 0
            → AreHosts B.state B.machine C drives result.items (opening (machine_of B.machine c) reads).nodes }
    {
        let Room { mut hosts, log } = self;
        hosts.push_reserved(Host::Node(Station::new(alloc, Node::primary(primary, log, 1, reads))));
        hosts.push_reserved(Host::Node(Station::new(alloc, Node::backup(alloc, backup, 1, reads))));
        hosts
    }
}
