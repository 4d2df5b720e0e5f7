//! How the log reaches the backup: its packets, the end that sends them and the end that holds what arrived.
#![tactic(auto)]

mod block;
mod held;
mod laws;
mod packet;
mod receiver;
mod sender;

pub use laws::{packets_spell_one_way, what_is_held_was_sent};
pub use packet::Packet;
pub use receiver::Receiver;
pub use sender::Sender;
