//! A controller in an image: it is rebuilt from its own image, and no controller from a state that none could be in.

use super::OLD_BYTES;
use disk_dcdd::*;
use i8080_words::{Fault, GREATEST_NUMBER};

// What the readers of a controller return.
fn image_of(disk: &Controller) -> ControllerImage<'_> {
    ControllerImage {
        attached: disk.attached(),
        selected: disk.selected(),
        drives: [disk.drive(0), disk.drive(1), disk.drive(2), disk.drive(3)],
        interrupts: disk.interrupts_enabled(),
        current: disk.current().copied(),
        outstanding: disk.outstanding(),
        issued: disk.issued(),
    }
}

// The write of number 4 to sector 6 of track 3 of drive 1.
const PLACE: Place = Place {
    number: 4,
    drive: 1,
    track: 3,
    sector: 6,
};

// The sector under the head of an image's drive 1.
const UNDER_HEAD: CurrentSector = CurrentSector {
    sector: 5,
    bytes: OLD_BYTES,
    read: 136,
    shown: true,
    filled: Some(136),
};

const BOOT: Drive = Drive {
    track: 0,
    loaded: false,
};

const OVER: Drive = Drive {
    track: 3,
    loaded: true,
};

const FAR: Drive = Drive {
    track: 77,
    loaded: true,
};

// An image whose drive 1 is over a sector that is being written.
const IMAGE: ControllerImage<'static> = ControllerImage {
    attached: 2,
    selected: Some(1),
    drives: [BOOT, OVER, BOOT, BOOT],
    interrupts: true,
    current: Some(UNDER_HEAD),
    outstanding: &[],
    issued: 9,
};

static RIGHT: ControllerImage<'static> = ControllerImage {
    outstanding: &[
        Place {
            sector: 31,
            ..PLACE
        },
        Place {
            number: 6,
            sector: 0,
            ..PLACE
        },
    ],
    ..IMAGE
};

#[test]
fn a_controller_comes_back_from_its_image(rt: HostRuntime) {
    let disk = Controller::rebuild(&RIGHT).expect(&rt, "an image of a controller");
    assert!(rt; image_of(&disk) == RIGHT);
    assert!(rt; image_of(&disk.copy()) == RIGHT);
    disk.stands();
}

#[rattlefmt::skip]
static WRONG: [ControllerImage<'static>; 20] = [
    // No drive, and five, with none selected.
    ControllerImage { attached: 0, selected: None, current: None, ..IMAGE },
    ControllerImage { attached: 5, selected: None, current: None, ..IMAGE },
    // Drive 2 is selected, and there are two.
    ControllerImage { selected: Some(2), current: None, ..IMAGE },
    // A head at track 77.
    ControllerImage { drives: [FAR, OVER, BOOT, BOOT], ..IMAGE },
    // A drive that is not attached and moved.
    ControllerImage { drives: [BOOT, OVER, OVER, BOOT], ..IMAGE },
    // A sector, with no drive selected.
    ControllerImage { selected: None, ..IMAGE },
    // A sector under a head that is not loaded.
    ControllerImage { selected: Some(0), ..IMAGE },
    // A number above the greatest.
    ControllerImage { issued: GREATEST_NUMBER + 1, ..IMAGE },
    // Sector 32, 137 bytes read, and 137 filled in.
    ControllerImage { current: Some(CurrentSector { sector: 32, ..UNDER_HEAD }), ..IMAGE },
    ControllerImage { current: Some(CurrentSector { read: 137, ..UNDER_HEAD }), ..IMAGE },
    ControllerImage { current: Some(CurrentSector { filled: Some(137), ..UNDER_HEAD }), ..IMAGE },
    // A write to drive 2, which is not attached, to track 77, of number 0, of a number that was not issued, to sector 32,
    // and to the sector under the head.
    ControllerImage { outstanding: &[Place { drive: 2, ..PLACE }], ..IMAGE },
    ControllerImage { outstanding: &[Place { track: 77, ..PLACE }], ..IMAGE },
    ControllerImage { outstanding: &[Place { number: 0, ..PLACE }], ..IMAGE },
    ControllerImage { outstanding: &[Place { number: 10, ..PLACE }], ..IMAGE },
    ControllerImage { outstanding: &[Place { sector: 32, ..PLACE }], ..IMAGE },
    ControllerImage { outstanding: &[Place { sector: 5, ..PLACE }], ..IMAGE },
    // A number twice, and a sector twice.
    ControllerImage { outstanding: &[PLACE, Place { sector: 7, ..PLACE }], ..IMAGE },
    ControllerImage { outstanding: &[PLACE, Place { number: 5, ..PLACE }], ..IMAGE },
    // Nine writes.
    ControllerImage { outstanding: &[Place { number: 1, sector: 11, ..PLACE }, Place { number: 2, sector: 12, ..PLACE },
        Place { number: 3, sector: 13, ..PLACE }, Place { number: 4, sector: 14, ..PLACE },
        Place { number: 5, sector: 15, ..PLACE }, Place { number: 6, sector: 16, ..PLACE },
        Place { number: 7, sector: 17, ..PLACE }, Place { number: 8, sector: 18, ..PLACE },
        Place { number: 9, sector: 19, ..PLACE }], ..IMAGE },
];

#[test]
fn no_controller_has_such_an_image(rt: HostRuntime) {
    for (number, image) in WRONG.iter().enumerate() {
        let refusal = Controller::rebuild(image).err();
        assert!(rt; refusal == Some(Fault::Malformed), "image {number}");
    }
}
