//! The parts of an image as bytes are read for them.

mod controller;
mod first_part;
mod message;
mod ports;
mod processor;
mod table;
mod values;

pub(crate) use controller::Outstanding;
pub(crate) use first_part::{FirstPart, first_part_of};
pub(crate) use message::{PartMessage, message_of};
pub(crate) use table::table_of;
