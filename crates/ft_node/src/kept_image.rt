//! The image that a primary keeps.
ghost use Rattle.std.specs.Prelude.{◌≡◌, None, Some};
ghost use Rattle.clone_state.specs.Image.{Spells};
ghost use Rattle.ft_node.specs.Kept.{image_of, part_of};

use clone_state::{Image, parts_make_their_machines};
use i8080_words::{Fault, R};
use std::alloc::Global;
use std::marker::Model;

/// The image with which a primary's generation began, until the backup has acknowledged anything; none in the first
/// generation.
#[derive(Drop)]
pub(crate) struct KeptImage {
    image: Option<Image>,
}

impl Model for KeptImage {
    ghost use Rattle.std.specs.Prelude.{Option, option_map};
    ghost use Rattle.ft_node.specs.Kept.{ImageParts, image_of};

    ghost Value = { Option ImageParts };

    ghost view = { λ kept. option_map image_of kept.image };
}

impl KeptImage {
    /// No image.
    pub(crate) fn none() -> KeptImage
        ensures { result ≡ None }
    {
        KeptImage { image: None }
    }

    /// This image.
    pub(crate) fn of(image: Image) -> KeptImage
        ensures { result ≡ Some (image_of image) }
    {
        KeptImage { image: Some(image) }
    }

    /// Drops it.
    pub(crate) fn forget(&mut self)
        ensures { self.new ≡ None }
    {
        self.image = None;
    }

    /// The bytes of a part in a message. `Unknown` if there is no image, or none of its parts has this index.
    pub(crate) fn part(&self, alloc: Global, index: u64) -> R<Vec<u8>>
        ensures { Spells (part_of self.now index) result }
    {
        match &self.image {
            Some(image) => part_of_image(image, alloc, index),
            None => Err(Fault::Unknown),
        }
    }
}

// A part of an image, in the bytes of its message. An image has fewer parts than an index has numbers.
#[tactic(auto, using(crate::proofs::KeptParts::no_part))]
fn part_of_image(image: &Image, alloc: Global, index: u64) -> R<Vec<u8>>
    ensures { Spells (part_of (Some (image_of image.now)) index) result }
{
    parts_make_their_machines();
    if index >= u64::from(image.parts()) {
        return Err(Fault::Unknown);
    }
    image.part(alloc, index as u16)
}
