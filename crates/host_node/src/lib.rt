//! The node of a host that is a process, and the frames that come to it and go from it.
#![tactic(auto)]

mod acting;
mod copying;
mod early;
mod heard;
mod hearing;
mod host;
mod inputs;
mod inspecting;
mod joining;
mod lag;
mod lagging;
mod laws;
mod mail;
mod moves;
mod pace;
mod reporting;
mod sending;
mod serving;
mod speed;

pub use heard::FrameOutcome;
pub use host::{HostNode, Hosted};
pub use inspecting::Inspect;
pub use laws::hosts_boot;
pub use mail::{KEYS, KeptKey, Mail};
pub use pace::{End, Settings, TICK};
pub use serving::serve;
