//! A halted node.
ghost use Rattle.std.specs.Prelude.{◌<◌};

/// A halted node, with the count at which it halted.
#[derive(Clone, Copy)]
pub struct Halted {
    pub(crate) generation: u32,
    pub(crate) count: u64,
    ghost first: { 0 < generation },
}
