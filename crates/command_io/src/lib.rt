//! What a command reads, images of disks and then a script; the lines that it prints, and how it ends; and the disks that it saves,
//! as images.
#![tactic(auto)]

mod failure;
mod images;
mod input;
mod report;
mod saving;

pub use failure::Failure;
pub use images::{IMAGE_BYTES, read_images};
pub use input::{Language, ScriptInput, read_input};
pub use report::LineReport;
pub use saving::{are_attached, images_of, save_disks};
