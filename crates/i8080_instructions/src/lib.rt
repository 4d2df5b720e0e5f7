//! The instructions of the Intel 8080, over any memory and any devices: what each one does, and which leave the devices,
//! the interrupts and the halt alone. `#[inline(always)]` is at what costs an arm of 256 codes less than a call (docs/PERFORMANCE.md).
#![tactic(auto)]

mod accumulator;
mod bus;
mod dispatch;
mod fetch;
mod in_place;
mod operands;
mod stack;
mod transfer;

pub use bus::Bus;
pub use dispatch::execute;
pub use in_place::{is_made, run_in_place, run_look};
pub use stack::call;
