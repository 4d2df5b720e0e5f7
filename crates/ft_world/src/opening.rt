//! What a host that joins a new generation is given.
ghost use Rattle.std.specs.Prelude.{◌≡◌, ◌<◌};
ghost use Rattle.clone_state.specs.Assembly.{nothing_gathered};
ghost use Rattle.clone_state.specs.Parts.{part_count};

use crate::input_list::Inputs;
use clone_state::Assembly;
use guest_lockstep::Reads;

/// The generation, an assembly for the parts of its image, none of which has arrived, the inputs of the machine that is
/// copied, the count up to which they settle it, and how the generation's log carries sectors.
#[derive(Drop)]
pub(crate) struct Opening {
    pub(crate) generation: u32,
    pub(crate) assembly: Assembly,
    pub(crate) inputs: Inputs,
    pub(crate) count: u64,
    pub(crate) reads: Reads,
    ghost first: { 0 < generation },
    ghost unused: { assembly ≡ nothing_gathered generation assembly.drives (part_count assembly.drives) },
}
