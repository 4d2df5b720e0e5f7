//! A copy of a guest that goes early, while the host is still alone: parts of an image of it, for the host that may be its backup.
ghost use Rattle.std.specs.Prelude.{◌≡◌, ◌∷◌, IfOk, IfSome, IsOkUnless, None, OnErr, OnOk, true};
ghost use Rattle.host_node.specs.Early.{CopiesEarly, EndsEarly, IsEarlyPart, IsPicture, SaysEarly, is_for, is_going, is_ready, parts_early};
ghost use Rattle.host_node.specs.Goes.{Goes};
ghost use Rattle.i8080_words.specs.declared.refusal.Fault.TheVariants.{OutOfMemory};

use crate::heard::FrameOutcome;
use crate::host::{HostNode, Hosted};
use board_image::Snapshots;
use clone_state::{Copies, Image};
use host_frames::Frame;
use i8080_words::{Fault, R};
use std::alloc::Global;

/// The first byte of a packet with a part that goes early. The bytes of the part's message follow.
pub(crate) const EARLY: u8 = 0x45;

/// A copy for the generation that a host was told to begin with the host at a place. Its image is kept until its parts were sent.
#[derive(Drop)]
pub struct Early {
    pub(crate) generation: u32,
    pub(crate) place: u8,
    pub(crate) image: Option<Image>,
}

impl<B: Copies<H> + Snapshots + Drop, H: Drop> HostNode<B, H> {
    /// Makes an image of its guest as it is now, whose parts are to go early to the host at a place, for this generation. Without a guest
    /// none is made. `OutOfMemory` if the allocator refuses it; then the copy is over before it has begun.
    #[tactic(auto, using(crate::proofs::EarlyParts::copies, crate::proofs::EarlyParts::is_over, crate::proofs::Going::stays))]
    pub fn copy_early(&mut self, generation: u32, place: u8) -> R<()>
        ensures goes { Goes B.state B.machine B.copied self.old self.new }
        ensures copies { OnOk result (CopiesEarly B.state B.machine B.pictured generation place self.new) }
        ensures refused { OnErr result (is_ready generation place self.new.early ≡ true) }
        ensures full { IsOkUnless result OutOfMemory }
    {
        self.peer = place;
        self.early = Some(Early {
            generation,
            place,
            image: None,
        });
        let image = self.picture(generation)?;
        self.early = Some(Early {
            generation,
            place,
            image,
        });
        Ok(())
    }

    // An image of its guest as it is now; none without a guest.
    #[tactic(auto, using(crate::proofs::EarlyParts::pictures, crate::proofs::EarlyParts::pictures_nothing, crate::proofs::EarlyParts::pictures_none))]
    fn picture(&self, generation: u32) -> R<Option<Image>>
        ensures ok { IfOk result (IsPicture B.state B.machine B.pictured generation self.now.node) }
        ensures full { IsOkUnless result OutOfMemory }
    {
        if generation == 0 {
            return Ok(None);
        }
        let Some(guest) = self.guest() else {
            return Ok(None);
        };
        let image = guest.snapshot(self.alloc, generation)?;
        Ok(Some(image))
    }
}

impl<B: Copies<H> + Drop, H: Drop> HostNode<B, H> {
    /// How many parts the image has that goes early; 0 if none does.
    pub fn early_parts(&self) -> u64
        ensures { result ≡ parts_early self.now.early }
    {
        let Some(early) = &self.early else {
            return 0;
        };
        match &early.image {
            Some(image) => u64::from(image.parts()),
            None => 0,
        }
    }

    /// Whether a copy for this generation goes early to the host at this place.
    pub fn is_copying(&self, generation: u32, place: u8) -> bool
        ensures { result ≡ is_going generation place self.now.early }
    {
        match &self.early {
            Some(early) => early.is_for(generation, place) && early.image.is_some(),
            None => false,
        }
    }

    /// Sends a part of the image early. Returns false if there is no room, or no such part.
    #[tactic(auto, using(crate::proofs::EarlyParts::sends, crate::proofs::EarlyParts::says_part, crate::proofs::Going::stays, crate::proofs::Going::looked))]
    pub fn send_early(&mut self, index: u64) -> R<bool>
        ensures goes { Goes B.state B.machine B.copied self.old self.new }
        ensures says { IfOk result (λ is_sent. SaysEarly is_sent index self.old self.new) }
    {
        if !self.mail.has_room() {
            return Ok(false);
        }
        let Some(early) = &self.early else {
            return Ok(false);
        };
        let Some(bytes) = early.packet(self.alloc, index)? else {
            return Ok(false);
        };
        self.mail.say(&Frame::Packet {
            host: early.place,
            bytes: &bytes,
        })?;
        Ok(true)
    }

    /// No more parts go early: the host begins the generation when it is told so again.
    #[tactic(auto, using(crate::proofs::Going::stays))]
    pub fn end_early(&mut self)
        ensures goes { Goes B.state B.machine B.copied self.old self.new }
        ensures ends { EndsEarly self.old.early self.new.early }
    {
        if let Some(early) = &mut self.early {
            early.image = None;
        }
    }

    // Takes a part that has come early. It says nothing to a host that has a node.
    #[tactic(auto, using(crate::proofs::Going::stays))]
    pub(crate) fn take_early(&mut self, host: u8, bytes: &[u8]) -> FrameOutcome
        ensures { Goes B.state B.machine B.copied self.old self.new }
    {
        let Hosted::Spare(_) = &self.node else {
            return FrameOutcome::Nothing;
        };
        let [_, _, _, _, _, _, high, low, ..] = *bytes else {
            return FrameOutcome::Malformed;
        };
        self.peer = host;
        FrameOutcome::Early(u16::from_be_bytes([high, low]))
    }
}

impl Early {
    // Whether it is for this generation, and for the host at this place.
    pub(crate) fn is_for(&self, generation: u32, place: u8) -> bool
        ensures { result ≡ is_for generation place self.now }
    {
        self.generation == generation && self.place == place
    }

    // The bytes of a packet with a part of the image; none if it has no such part.
    #[tactic(auto, using(crate::proofs::EarlyParts::is_part))]
    fn packet(&self, alloc: Global, index: u64) -> R<Option<Vec<u8>>>
        ensures { IfOk result (λ found. IfSome found (λ bytes. IsEarlyPart index self.now bytes.items)) }
    {
        let Some(image) = &self.image else {
            return Ok(None);
        };
        if index > u64::from(u16::MAX) {
            return Ok(None);
        }
        let part = match image.part(alloc, index as u16) {
            Ok(part) => part,
            Err(Fault::OutOfMemory) => return Err(Fault::OutOfMemory),
            Err(_) => return Ok(None),
        };
        let bytes = marked(alloc, &part)?;
        Ok(Some(bytes))
    }
}

/// Whether a copy for this generation has gone early to the host at this place, all of it or as much as was waited for.
pub(crate) fn is_ready(early: &Option<Early>, generation: u32, place: u8) -> bool
    ensures { result ≡ is_ready generation place early.now }
{
    match early {
        Some(early) => early.is_for(generation, place) && early.image.is_none(),
        None => false,
    }
}

// The bytes of a part with the mark of one that goes early.
fn marked(alloc: Global, part: &[u8]) -> R<Vec<u8>>
    ensures ok { IfOk result (λ bytes. bytes.items ≡ 0x45 ∷ part.now) }
    ensures full { IsOkUnless result OutOfMemory }
{
    let mut bytes = Vec::with_capacity(alloc, 1 + part.len())?;
    bytes.extend_from_slice(&[EARLY])?;
    bytes.extend_from_slice(part)?;
    Ok(bytes)
}
