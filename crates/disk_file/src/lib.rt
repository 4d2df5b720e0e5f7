//! Disks in files of the operating system, each file an image of one drive, and each write on the disk before it is answered.
#![tactic(auto)]

mod attaching;
mod bytes;
mod closing;
mod crashing;
mod device;
mod drive_files;
mod file_device;
mod file_store;
mod journal;
mod kept;
mod medium;
mod memory;
mod opening;
mod past;
mod recovery;
mod refusal;
mod room;
mod session_opening;
mod spoiled;
mod through;

pub use attaching::{Attached, Unattached, are_named, is_named, open_drives};
pub use closing::{close_image, end_image, recover_image};
pub use crashing::CrashingMemory;
pub use device::{CrashableFile, DeviceError};
pub use drive_files::DriveFiles;
pub use file_device::FileDevice;
pub use file_store::FileStore;
pub use journal::append;
pub use kept::{FileRecords, PendingWrite};
pub use memory::MemoryFile;
pub use opening::{IMAGE_BYTES, ImageOptions, OpenImage, PADDING_BYTES, open_image};
pub use past::Past;
pub use recovery::{finish, take_up};
pub use refusal::{OpenError, refusal_text, spoiled_text};
pub use room::add;
pub use session_opening::{close_kept, open_kept};
pub use spoiled::is_spoiled;
pub use through::{cut_through, write_through};
