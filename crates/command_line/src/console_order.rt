//! What is asked of a pair that one sits at.

/// How a console is run.
#[derive(Drop)]
pub struct ConsoleOrder {
    /// The folder of the named pipes.
    pub folder: String,
    /// How many places for hosts there are.
    pub places: u64,
    /// The key that opens a command line.
    pub escape: u8,
    /// How many bytes of the input come before the first key: images, and then a script. Each host is given them too.
    pub before: u64,
    /// The drives whose images come before the script.
    pub images: Vec<u8>,
    /// The drives whose images are written after the guest's output.
    pub saved: Vec<u8>,
    /// What is written between the guest's output and these images.
    pub mark: String,
    /// Whether lines about the hosts are handed over between marks.
    pub apart: bool,
    /// The names of the files that are the disks of drives, that of drive 0 first; an empty one if the drive has no file.
    pub attached: Vec<String>,
    /// Whether a write of such a disk is done once the file system has it, and not only once the disk has.
    pub unsynced: bool,
    /// For how many seconds a machine that runs may print nothing, write to no disk and read no other track once no more keys can come.
    pub silence: u64,
}
