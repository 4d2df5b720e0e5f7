//! Where the bytes of a device are beside memory: in a file of the operating system, or nowhere.
ghost use Rattle.std.specs.Prelude.{◌≡◌, is_some};

use std::fs::File;
use std::io;
use std::os::unix::fs::FileExt;

/// An open file, and whether each sync waits until the disk has it; or no file.
#[derive(Drop)]
pub(crate) struct Medium {
    file: Option<File>,
    is_synced: bool,
}

impl Medium {
    /// A file. Unless it is synced, the file system may be late.
    pub(crate) fn of_file(file: File, is_synced: bool) -> Medium {
        Medium {
            file: Some(file),
            is_synced,
        }
    }

    /// No file: what is written is in memory alone.
    pub(crate) fn none() -> Medium {
        Medium {
            file: None,
            is_synced: false,
        }
    }

    /// Whether there is a file.
    pub(crate) fn is_file(&self) -> bool
        ensures { result ≡ is_some self.now.file }
    {
        self.file.is_some()
    }

    /// Writes these bytes from an offset on.
    pub(crate) fn write_at(&self, bytes: &[u8], at: usize) -> io::Result<()> {
        match &self.file {
            Some(file) => file.write_all_at(bytes, at as u64),
            None => Ok(()),
        }
    }

    /// Cuts the file to a length.
    pub(crate) fn cut(&self, len: usize) -> io::Result<()> {
        match &self.file {
            Some(file) => file.set_len(len as u64),
            None => Ok(()),
        }
    }

    /// Waits until the disk has it, if that is asked for.
    pub(crate) fn sync(&self) -> io::Result<()> {
        match &self.file {
            Some(file) if self.is_synced => file.sync_data(),
            _ => Ok(()),
        }
    }
}
