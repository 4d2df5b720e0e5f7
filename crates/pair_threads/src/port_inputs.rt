//! What a primary's guest has taken of what arrived at one port.
ghost use Rattle.std.specs.Prelude.{◌≡◌, ◌≤◌, ◌↔◌, ◌==◌, vec_len, IsTrue, slice_get};

/// The bytes that are typed at a port, and how many of them and of the acceptances the guest has taken.
#[derive(Drop)]
pub(crate) struct PortInputs {
    pub(crate) typed: Vec<u8>,
    pub(crate) taken: usize,
    pub(crate) accepted: u64,
    ghost within: { taken ≤ vec_len typed },
}

impl PortInputs {
    /// Nothing is taken yet.
    pub(crate) fn new(typed: Vec<u8>) -> PortInputs
        ensures { (result.typed ≡ typed) × (result.taken ≡ 0) × (result.accepted ≡ 0) }
    {
        PortInputs {
            typed,
            taken: 0,
            accepted: 0,
        }
    }

    /// The next byte to take.
    pub(crate) fn next(&self) -> Option<u8>
        ensures { result ≡ slice_get self.now.typed.items self.now.taken }
    {
        self.typed.get(self.taken).copied()
    }

    /// Whether all are taken.
    pub(crate) fn is_taken(&self) -> bool
        ensures all { IsTrue result ↔ (self.now.taken ≡ vec_len self.now.typed) }
        ensures is { result ≡ (self.now.taken == vec_len self.now.typed) }
    {
        self.taken == self.typed.len()
    }
}
