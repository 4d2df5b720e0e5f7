//! The outside of a pair of processes: the terminals, the arbiter, the disk and the number of hosts; between them and the hosts the
//! lines and the switch; and its loop of turns, none of which waits for a stream.
#![tactic(auto)]

mod at_terminals;
mod device_laws;
mod devices;
mod ending;
mod flood;
mod heard;
mod laws;
mod line;
mod link;
mod live;
mod meeting;
mod places;
mod port;
mod serving;
mod session;
mod sight;
mod steward;
mod switch;
mod terminal;
mod turning;

pub use device_laws::{calls_are_steps, runs_go_on};
pub use devices::OutsideDevices;
pub use heard::BodyOutcome;
pub use laws::{cuts_have_causes, numbers_stay_apart, switch_runs};
pub use line::HostLine;
pub use link::LinkState;
pub use port::PortEnd;
pub use serving::run_hosts;
pub use session::{HostsEnd, Quit, Session, SessionParts};
pub use sight::{Inspection, Sight};
pub use steward::{HostEvent, Steward};
pub use switch::Switch;
pub use terminal::{BoundedTerminal, KEYS};
