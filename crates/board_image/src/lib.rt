//! A board and its image: the image is copied from the board, at once or page by page before it is asked for, and its
//! parts make a board again; and what else a driver asks of a guest: whether a port has room for a key, which writes of
//! the disk are outstanding, and an image of it as it is now.
#![tactic(auto)]

mod boards;
mod copying;
mod draft;
mod drafted_board;
mod images;
mod key_laws;
mod key_room;
mod laws;
mod polling;
mod snapshots;
mod writes;

pub use boards::board_of;
pub use draft::Draft;
pub use drafted_board::DraftedBoard;
pub use images::{image_of, image_of_draft};
pub use key_laws::keys_are_kept;
pub use key_room::KeyRoom;
pub use laws::{boards_are_copied_as_guests, drafts_keep_up};
pub use snapshots::Snapshots;
pub use writes::OutstandingWrites;
