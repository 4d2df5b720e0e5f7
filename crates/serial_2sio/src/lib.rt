//! One port of the MITS 88-2SIO: a Motorola MC6850 with a transmit window of sixteen bytes.
#![tactic(auto)]

mod acia;

pub use acia::{Acia, Receiver, WINDOW};
