//! Numbers that are drawn, and bytes that are folded, as in the independent program that made the expected folds.

/// Numbers drawn by x = x * 1664525 + 1013904223 modulo 2^32: a byte is the highest eight bits of x.
#[derive(Drop)]
pub(crate) struct Draw {
    drawn: u32,
}

impl Draw {
    /// Draws from x = a number.
    pub(crate) fn new(number: u32) -> Draw {
        Draw { drawn: number }
    }

    pub(crate) fn byte(&mut self) -> u8 {
        self.drawn = self.drawn.wrapping_mul(1664525).wrapping_add(1013904223);
        (self.drawn >> 24) as u8
    }
}

/// Bytes folded from h = 2166136261 on: h is exclusive-ored with the byte and multiplied by 16777619 modulo 2^32.
#[derive(Drop)]
pub(crate) struct Fold {
    pub(crate) folded: u32,
}

impl Fold {
    /// Of no bytes.
    pub(crate) fn new() -> Fold {
        Fold { folded: 2166136261 }
    }

    pub(crate) fn byte(&mut self, byte: u8) {
        self.folded = (self.folded ^ u32::from(byte)).wrapping_mul(16777619);
    }

    pub(crate) fn bytes(&mut self, bytes: &[u8]) {
        for byte in bytes {
            self.byte(*byte);
        }
    }
}
