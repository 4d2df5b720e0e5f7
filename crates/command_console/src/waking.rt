//! Keys that wake the loop that takes them.
ghost use Rattle.std.specs.Prelude.{◌≡◌};

use console_terminal::{Heard, KeySource};
use std::sync::Arc;
use std::thread::Parker;

/// A source of keys. Whoever takes them is woken before the next one is waited for, so after the last one was handed on.
#[derive(Drop)]
pub(crate) struct WakingKeys<S> {
    source: S,
    wake: Arc<Parker>,
}

impl<S> WakingKeys<S> {
    pub(crate) fn new(source: S, wake: Arc<Parker>) -> WakingKeys<S>
        ensures { result.source ≡ source }
    {
        WakingKeys { source, wake }
    }
}

impl<S: KeySource> KeySource for WakingKeys<S> {
    ghost left = { λ keys. S.left keys.source };

    fn hear(&mut self) -> Heard {
        self.wake.unpark();
        self.source.hear()
    }
}
