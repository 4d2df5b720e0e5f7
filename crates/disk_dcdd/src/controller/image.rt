//! A controller in an image of the machine: a reader for each field, and the controller that an image describes.
ghost use Rattle.std.specs.Prelude.{◌≡◌, ◌<◌, ◌≤◌, ◌↔◌, None, IsTrue, IsOk, IfSome, IfOk, IsOkUnless, length};
ghost use Rattle.std.specs.Option.{option_copied};
ghost use Rattle.disk_dcdd.specs.Drive.{drive_of};
ghost use Rattle.disk_dcdd.specs.Controller.{IsDrives, IsUnderHead, AreDrives, AreOutstanding, Follows, MayFollow};
ghost use Rattle.disk_dcdd.specs.Image.{imaged};
ghost use Rattle.disk_dcdd.specs.declared.controller.TheConstants.{DRIVES, OUTSTANDING};
ghost use Rattle.i8080_words.specs.declared.refusal.Fault.TheVariants.{Malformed};

use super::completions::has_write_at;
use super::{Controller, DRIVES, OUTSTANDING};
use crate::drive::{Drive, TRACKS};
use crate::sector::{CurrentSector, Place, SECTORS};
use arrayvec::ArrayVec;
use i8080_words::{Fault, GREATEST_NUMBER, R};

/// What an image says of a controller, as a controller's readers return it. `rebuild` decides whether a controller can
/// be in that state.
#[derive(Clone, Copy, PartialEq, Eq)]
pub struct ControllerImage<'a> {
    pub attached: u8,
    pub selected: Option<u8>,
    pub drives: [Drive; DRIVES],
    pub interrupts: bool,
    pub current: Option<CurrentSector>,
    pub outstanding: &'a [Place],
    pub issued: u64,
}

impl Controller {
    /// How many drives are attached, from 1 to `DRIVES`.
    pub fn attached(&self) -> u8
        ensures { result ≡ self.now.attached }
    {
        self.attached
    }

    /// A drive. One that is not attached is as it is when switched on.
    pub fn drive(&self, index: u8) -> Drive
        requires { index < DRIVES }
        ensures { result ≡ drive_of self.now index }
    {
        self.drives[index as usize]
    }

    /// Whether interrupts are enabled.
    pub fn interrupts_enabled(&self) -> bool
        ensures { result ≡ self.now.interrupts }
    {
        self.interrupts
    }

    /// The sector under the head.
    pub fn current(&self) -> Option<&CurrentSector>
        ensures { option_copied result ≡ self.now.current }
    {
        self.current.as_ref()
    }

    /// Where the outstanding writes go, in order of number; at most `OUTSTANDING`.
    pub fn outstanding(&self) -> &[Place]
        ensures { result.now ≡ self.now.outstanding }
    {
        self.outstanding.as_slice()
    }

    /// An image can describe the state of every controller, and `rebuild` accepts that image.
    pub fn stands(&self)
        ensures { IsDrives self.now }
    {
        let _ = &self.attached;
    }

    /// The controller that an image describes. Allocates no memory.
    ///
    /// `Malformed` if no controller can be in that state.
    pub fn rebuild(image: &ControllerImage<'_>) -> R<Controller>
        ensures stands { IsOk result ↔ IsDrives (imaged image.now) }
        ensures as_imaged { IfOk result (λ controller. controller ≡ imaged image.now) }
        ensures malformed { IsOkUnless result Malformed }
    {
        if !stands_without_sector(image) || !stands_with_sector(image) {
            return Err(Fault::Malformed);
        }
        Ok(Controller {
            attached: image.attached,
            selected: image.selected,
            drives: image.drives,
            interrupts: image.interrupts,
            current: image.current,
            outstanding: copied(image.outstanding),
            issued: image.issued,
        })
    }

    /// A copy of the controller. Allocates no memory.
    pub fn copy(&self) -> Controller
        ensures { result ≡ self.now }
    {
        Controller {
            attached: self.attached,
            selected: self.selected,
            drives: self.drives,
            interrupts: self.interrupts,
            current: self.current,
            outstanding: copied(self.outstanding.as_slice()),
            issued: self.issued,
        }
    }
}

// Whether a controller can be in the state that the image describes, but for the sector under the head.
fn stands_without_sector(image: &ControllerImage<'_>) -> bool
    ensures { IsTrue result ↔ IsDrives (record (imaged image.now) { current = None }) }
{
    1 <= image.attached
        && image.attached as usize <= DRIVES
        && selects_attached(image.attached, image.selected)
        && image.issued <= GREATEST_NUMBER
        && are_drives(image.attached, &image.drives)
        && are_outstanding(image.attached, image.issued, image.outstanding)
}

// Whether the sector under the head, if there is one, can be there.
fn stands_with_sector(image: &ControllerImage<'_>) -> bool
    requires { IfSome image.now.selected (λ drive. drive < DRIVES) }
    ensures { IsTrue result ↔ IfSome image.now.current (IsUnderHead (imaged image.now)) }
{
    let Some(current) = &image.current else {
        return true;
    };
    let Some(selected) = image.selected else {
        return false;
    };
    let drive = image.drives[selected as usize];
    drive.loaded
        && current.sector < SECTORS
        && current.is_unfinished()
        && !has_write_at(image.outstanding, selected, drive.track, current.sector)
}

// A copy of the places.
fn copied(places: &[Place]) -> ArrayVec<Place, OUTSTANDING>
    requires { length places.now ≤ OUTSTANDING }
    ensures { result.items ≡ places.now }
{
    let mut copy = ArrayVec::new();
    let _ = copy.try_extend_from_slice(places);
    copy
}

// Whether no drive is selected, or one of this many.
fn selects_attached(attached: u8, selected: Option<u8>) -> bool
    ensures { IsTrue result ↔ IfSome selected (λ drive. drive < attached) }
{
    selected.is_none_or(|drive| drive < attached)
}

// Whether a controller can have these drives, with this many of them attached.
fn are_drives(attached: u8, drives: &[Drive; DRIVES]) -> bool
    requires { attached ≤ DRIVES }
    ensures { IsTrue result ↔ AreDrives attached drives.now }
{
    drives.iter().all(|drive| drive.track < TRACKS)
        && drives[attached as usize..]
            .iter()
            .all(|drive| drive.is_at_boot())
}

// Whether these writes may be outstanding together.
fn are_outstanding(attached: u8, issued: u64, places: &[Place]) -> bool
    ensures { IsTrue result ↔ AreOutstanding attached issued places.now }
{
    if places.len() > OUTSTANDING {
        return false;
    }
    for (index, place) in places.iter().enumerate() {
        if !may_follow(attached, issued, &places[..index], place) {
            return false;
        }
    }
    true
}

// Whether a write may be outstanding along with these earlier ones.
fn may_follow(attached: u8, issued: u64, earlier: &[Place], place: &Place) -> bool
    ensures { IsTrue result ↔ MayFollow attached issued earlier.now place.now }
{
    1 <= place.number
        && place.number <= issued
        && place.drive < attached
        && place.track < TRACKS
        && place.sector < SECTORS
        && earlier.iter().all(|one| follows(one, place))
}

// Whether the later of two outstanding writes has the greater number and goes to another sector.
fn follows(earlier: &Place, later: &Place) -> bool
    ensures { IsTrue result ↔ Follows earlier.now later.now }
{
    earlier.number < later.number && !earlier.is_at(later.drive, later.track, later.sector)
}
