//! The controller as a guest and a disk use it, and as an image holds it.
mod calls;
mod images;
mod rows;
mod walks;

use disk_dcdd::SECTOR_BYTES;

const OLD_BYTES: [u8; SECTOR_BYTES] = [0xe5; SECTOR_BYTES];
