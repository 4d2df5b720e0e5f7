//! Which seat of the table each type of a seat is.
ghost use Rattle.pair_rule.specs.Boxes.{Who, Primary, Link, Backup, Terminal, Disk};

use crate::backup::BackupSeat;
use crate::disk::DiskSeat;
use crate::link::LinkSeat;
use crate::primary::PrimarySeat;
use crate::terminal::TerminalSeat;

// A type of a seat.
pub trait Seated {
    ghost who: { Who };
}

impl Seated for PrimarySeat {
    ghost who = { Primary };
}

impl Seated for LinkSeat {
    ghost who = { Link };
}

impl Seated for BackupSeat {
    ghost who = { Backup };
}

impl Seated for TerminalSeat {
    ghost who = { Terminal };
}

impl Seated for DiskSeat {
    ghost who = { Disk };
}
