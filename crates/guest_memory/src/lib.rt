//! The guest's memory: 65,536 bytes in 256 pages, with a version for each page that rises at every write to it.
#![tactic(auto)]

mod laws;
mod memory;

pub use laws::{
    limits, new_memory_is_unwritten, pages_join_to_memory, versions_count_writes, writes_read_back,
};
pub use memory::{BYTES, Memory, PAGE_BYTES, PAGES};
