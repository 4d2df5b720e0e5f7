//! What is asked of one host of a pair.

/// What a host is when its pair boots.
#[derive(Clone, Copy)]
pub enum HostRole {
    Primary,
    Backup,
    Spare,
}

/// How one host is run.
#[derive(Drop)]
pub struct HostOrder {
    pub role: HostRole,
    /// For how many milliseconds its peer may be silent until it is suspected.
    pub patience: u64,
    /// How many bytes of the input come before the first frame: images, and then a script.
    pub before: u64,
    /// The drives whose images come before the script.
    pub images: Vec<u8>,
}
