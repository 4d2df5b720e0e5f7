//! What a guest is at boot.

ghost use Rattle.std.specs.Prelude.{◌≡◌, ℕ, ◌<◌, ◌≤◌, vec_len, slice_index};
ghost use Rattle.disk_dcdd.specs.declared.controller.TheConstants.{DRIVES};
ghost use Rattle.guest_memory.specs.declared.memory.TheConstants.{BYTES};

use guest_lockstep::Reads;

/// A guest at boot: its memory, how many drives are attached, the interrupt level of port 0, port 1 and the disk (RST n
/// of the 8080), and the byte of the sense switches, which IN FFh returns; and how a pair logs the sectors that it reads.
#[derive(Drop)]
pub struct Setup {
    pub memory: Vec<u8>,
    pub drives: u8,
    pub levels: [u8; 3],
    pub sense: u8,
    pub reads: Reads,
    ghost whole: { vec_len memory ≡ BYTES },
    ghost some: { 1 ≤ drives },
    ghost few: { drives ≤ DRIVES },
    ghost restarts: { (device : ℕ) → slice_index levels device < 8 },
}
