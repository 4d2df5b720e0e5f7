//! The disk that both nodes share: for each sector the write of the greatest number, in whatever order writes arrive.
#![tactic(auto)]

mod disk;
mod fail_once;
mod laws;
mod memory_store;
mod store;

pub use disk::{SectorRead, SharedDisk};
pub use fail_once::{Disk, FailOnce};
pub use laws::{new_stores_are_unwritten, one_write_is_chosen};
pub use memory_store::MemoryStore;
pub use store::{Record, SectorStore};
