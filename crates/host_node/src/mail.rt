//! What comes to a host and what goes from it: frames on two rings, and the keys that wait until its guest looks for them.
ghost use Rattle.std.specs.Prelude.{◌≡◌, ◌<◌, ◌++◌, ◌∷◌, [], IfErr, IfOk, IfSome, IsOkUnless, IsTrue, None, OnErr, OnOk, length, true};
ghost use Rattle.host_frames.specs.StreamReading.{contents_of};
ghost use Rattle.host_frames.specs.Frames.{IsSpelling, Tells, Transfers, said_by};
ghost use Rattle.host_frames.specs.declared.frame.Transfer.TheVariants.{Key};
ghost use Rattle.host_node.specs.Mail as table;
ghost use Rattle.host_node.specs.Mail.{CameAsKey};
ghost use Rattle.host_node.specs.MailRings.{rings_of};
ghost use Rattle.i8080_words.specs.declared.refusal.Fault.TheVariants.{OutOfMemory};
ghost use Rattle.rtrb.specs.Ring.{known_free, received, sent};

use circular_buffer::HeapCircularBuffer;
use host_frames::{Frame, spelled};
use i8080_words::R;
use rtrb::{Consumer, Producer};
use std::alloc::Global;
use std::marker::Model;
use std::sync::Arc;
use std::thread::Parker;

/// How many keys of a port wait at a host at most. The outside sends the others later.
pub const KEYS: usize = 256;

/// A key that waits for its guest.
#[derive(Clone, Copy)]
pub struct KeptKey {
    pub port: u8,
    pub index: u64,
    pub byte: u8,
}

/// The bodies of the frames that come to a host, the frames that go from it, and the keys that came and are not taken.
#[derive(Drop)]
pub struct Mail {
    alloc: Global,
    bodies: Consumer<Vec<u8>>,
    frames: Producer<Vec<u8>>,
    wake: Arc<Parker>,
    first: HeapCircularBuffer<KeptKey>,
    second: HeapCircularBuffer<KeptKey>,
}

impl Model for Mail {
    ghost use Rattle.host_node.specs.Mail.{Post};

    ghost Value = { Post };

    ghost use Rattle.host_node.specs.MailRings.{ArePosts, post_in};

    ghost view = { post_in };

    ghost invariant = { ArePosts };
}

impl Mail {
    /// The mail of a host at these ends of two rings. Allocates all the memory that the keys will ever need.
    pub fn new(
        alloc: Global,
        bodies: Consumer<Vec<u8>>,
        frames: Producer<Vec<u8>>,
        wake: Arc<Parker>,
    ) -> R<Mail>
        ensures came { IfOk result (λ mail. mail.came ≡ contents_of (received bodies)) }
        ensures gone { IfOk result (λ mail. mail.gone ≡ contents_of (sent frames)) }
        ensures rings { IfOk result (λ mail. mail.rings ≡ rings_of bodies frames) }
        ensures full { IsOkUnless result OutOfMemory }
    {
        let first = HeapCircularBuffer::with_capacity(alloc, KEYS)?;
        let second = HeapCircularBuffer::with_capacity(alloc, KEYS)?;
        Ok(Mail {
            alloc,
            bodies,
            frames,
            wake,
            first,
            second,
        })
    }

    /// The body of the next frame that has come.
    #[tactic(auto, using(crate::proofs::Keeping::kept_one, crate::proofs::Keeping::kept_none, crate::proofs::Keeping::one_more, crate::proofs::Staying::inbox_stays))]
    pub fn next(&mut self) -> Option<Vec<u8>>
        ensures came { IfSome result (λ body. self.new.came ≡ self.old.came ++ body.items ∷ []) }
        ensures none { result ≡ None → self.new.came ≡ self.old.came }
        ensures gone { self.new.gone ≡ self.old.gone }
        ensures rings { self.new.rings ≡ self.old.rings }
    {
        let Ok(body) = self.bodies.pop() else {
            return None;
        };
        Some(body)
    }

    /// Whether no frame can come any more, once none is left.
    #[tactic(auto, using(crate::proofs::Staying::inbox_stays, crate::proofs::Staying::inbox_stays_still))]
    pub fn is_over(&mut self) -> bool
        ensures none { result ≡ true → self.new.waits ≡ [] }
        ensures came { self.new.came ≡ self.old.came }
        ensures gone { self.new.gone ≡ self.old.gone }
        ensures rings { self.new.rings ≡ self.old.rings }
    {
        self.bodies.is_abandoned() && self.bodies.is_empty()
    }

    /// Whether a frame can be sent now.
    #[tactic(auto, using(crate::proofs::Staying::outbox_stays))]
    pub fn has_room(&mut self) -> bool
        ensures room { IsTrue result → 0 < self.new.room }
        ensures came { self.new.came ≡ self.old.came }
        ensures gone { self.new.gone ≡ self.old.gone }
        ensures rings { self.new.rings ≡ self.old.rings }
    {
        !self.frames.is_full()
    }

    /// Sends a frame, for which there is room, and wakes whoever writes it. `Malformed` if it has no spelling.
    pub fn say(&mut self, frame: &Frame<'_>) -> R<()>
        requires { 0 < self.old.room }
        ensures gone { OnOk result (table.HasSaid (said_by frame.now) self.old.gone self.new.gone) }
        ensures came { self.new.came ≡ self.old.came }
        ensures unsaid { OnErr result (self.new.gone ≡ self.old.gone) }
        ensures rings { self.new.rings ≡ self.old.rings }
    {
        let bytes = spelled(self.alloc, frame)?;
        self.say_bytes(bytes);
        Ok(())
    }

    /// Sends a frame that is spelled.
    #[tactic(auto, using(crate::proofs::Staying::outbox_stays))]
    pub fn say_bytes(&mut self, bytes: Vec<u8>)
        requires { 0 < self.old.room }
        ensures gone { self.new.gone ≡ self.old.gone ++ bytes.items ∷ [] }
        ensures came { self.new.came ≡ self.old.came }
        ensures rings { self.new.rings ≡ self.old.rings }
    {
        self.frames.push_reserved(bytes);
        self.wake.unpark();
    }

    /// Keeps a key that came, if there is room.
    pub fn keep_key(&mut self, key: KeptKey)
        requires { CameAsKey self.old.came key }
        ensures came { self.new.came ≡ self.old.came }
        ensures gone { self.new.gone ≡ self.old.gone }
        ensures rings { self.new.rings ≡ self.old.rings }
    {
        if key.port == 0 {
            let _ = self.first.try_push_back(key).is_ok();
        } else {
            let _ = self.second.try_push_back(key).is_ok();
        }
    }

    /// The first key of a port that waits.
    pub fn first_key(&self, port: u8) -> Option<KeptKey>
        ensures { IfSome result (CameAsKey self.now.came) }
    {
        if port == 0 {
            self.first.front().copied()
        } else {
            self.second.front().copied()
        }
    }

    /// The first key of a port that waits is taken out.
    pub fn drop_key(&mut self, port: u8)
        ensures came { self.new.came ≡ self.old.came }
        ensures gone { self.new.gone ≡ self.old.gone }
        ensures rings { self.new.rings ≡ self.old.rings }
    {
        if port == 0 {
            let _ = self.first.pop_front().is_some();
        } else {
            let _ = self.second.pop_front().is_some();
        }
    }

    /// How many keys of a port wait.
    pub fn waiting(&self, port: u8) -> usize
        ensures { result ≡ length (table.keys_at self.now port) }
    {
        if port == 0 {
            self.first.len()
        } else {
            self.second.len()
        }
    }

    /// Forgets the keys that wait.
    pub fn forget_keys(&mut self)
        ensures came { self.new.came ≡ self.old.came }
        ensures gone { self.new.gone ≡ self.old.gone }
        ensures rings { self.new.rings ≡ self.old.rings }
    {
        self.first.clear();
        self.second.clear();
    }

    /// The ends of the two rings that were its own.
    pub fn into_rings(self) -> (Consumer<Vec<u8>>, Producer<Vec<u8>>)
        ensures came { contents_of (received result.0) ≡ self.came }
        ensures gone { contents_of (sent result.1) ≡ self.gone }
        ensures rings { rings_of result.0 result.1 ≡ self.rings }
    {
        let Mail { bodies, frames, .. } = self;
        (bodies, frames)
    }
}
