//! The image of a machine: its parts, and what they say of the machine's board.
#![tactic(auto)]

mod assembly;
mod copies;
mod image;
mod laws;
mod reading;
mod spelling;

pub use assembly::Assembly;
pub use copies::Copies;
pub use image::Image;
pub use laws::{
    assemblies_gather_images, boards_can_be_rebuilt, controllers_are_decided,
    messages_are_written_one_way, parts_are_read_again, parts_are_written_one_way,
    parts_make_their_machines,
};
