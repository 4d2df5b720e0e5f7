//! What the layers of a pair require of a guest that can be copied, so that they are proved for any such guest.
ghost use Rattle.std.specs.Prelude.{◌≡◌, ◌<◌, ◌≤◌, ◌-◌, ℕ, Some, IfOk, IfErr, IsOkUnless, OnErr, OnOk, is_some};
ghost use Rattle.disk_dcdd.specs.declared.controller.TheConstants.{DRIVES};
ghost use Rattle.event_callbacks.specs.declared.devices.TheConstants.{PORTS};
ghost use Rattle.guest_parts.specs.Guest.{Guest};
ghost use Rattle.guest_parts.specs.Parts.{guest_of_parts};
ghost use Rattle.guest_lockstep.specs.Pages.{every_page};
ghost use Rattle.i8080_words.specs.declared.limits.TheConstants.{GREATEST_NUMBER};
ghost use Rattle.i8080_words.specs.declared.refusal.Fault.TheVariants.{OutOfMemory};
ghost use Rattle.clone_state.specs.Assembly.{gathered, machine_in};
ghost use Rattle.clone_state.specs.Copies.{refused_as};
ghost use Rattle.clone_state.specs.Parts.{guest_in};
ghost use Rattle.clone_state.specs.Stale.{AreCopied, stale_count};

use crate::assembly::Assembly;
use crate::image::Image;
use guest_lockstep::Lockstep;
use i8080_words::{Fault, R};
use std::alloc::Global;

/// A guest whose copy can be given to another host, part by part. `H` is what a guest has on its host besides what is
/// copied: its stored closures.
pub trait Copies<H>: Lockstep {
    // What is copied of a guest.
    ghost copied: { Self → Guest };

    /// How many drives are attached to the guest, from 1 to 4.
    fn drives(&self) -> u8
        ensures attached { result ≡ (copied self.now).devices.disk.attached }
        ensures some { 1 ≤ result }
        ensures few { result ≤ DRIVES };

    /// Copies the lowest stale pages, `pages` at most, into a draft of the guest's image, which begins here if there is
    /// none. Returns how many are still stale. `OutOfMemory` if the allocator refuses; only a draft that begins needs memory.
    fn freshen(&mut self, alloc: Global, pages: u64) -> R<u64>
        ensures state { Self.state self.new ≡ Self.state self.old }
        ensures copied { copied self.new ≡ copied self.old }
        ensures fewer { IfOk result (λ left. left ≡ stale_count (Self.stale self.old) - pages) }
        ensures left { IfOk result (λ left. left ≡ stale_count (Self.stale self.new)) }
        ensures lowest { OnOk result (AreCopied pages (Self.stale self.old) (Self.stale self.new)) }
        ensures begins { OnErr result (Self.stale self.old ≡ every_page) }
        ensures full { IsOkUnless result OutOfMemory }
        ensures unchanged { OnErr result (self.new ≡ self.old) };

    /// Drops the draft of the guest's image, if there is one: then every page is stale.
    fn forget(&mut self)
        ensures state { Self.state self.new ≡ Self.state self.old }
        ensures copied { copied self.new ≡ copied self.old }
        ensures forgotten { Self.stale self.new ≡ every_page };

    /// The image of the guest, as it is now, for the generation that it begins. Uses up the draft, so that only stale
    /// pages are copied. `OutOfMemory` if the allocator refuses; then the draft stays.
    fn image(&mut self, alloc: Global, generation: u32) -> R<Image>
        requires { 0 < generation }
        ensures copied { IfOk result (λ image. guest_of_parts image.copied ≡ copied self.old) }
        ensures generation { IfOk result (λ image. image.generation ≡ generation) }
        ensures keys { (port : ℕ) → port < PORTS
            → Self.machine.keys (Self.state self.new) port ≤ GREATEST_NUMBER }
        ensures state { Self.state self.new ≡ Self.state self.old }
        ensures same { copied self.new ≡ copied self.old }
        ensures used { OnOk result (Self.stale self.new ≡ every_page) }
        ensures full { IsOkUnless result OutOfMemory }
        ensures unchanged { OnErr result (self.new ≡ self.old) };

    /// The guest that the parts of an image make. `NotWhole` if one is missing, otherwise `Malformed` if they fit no
    /// guest together, otherwise `OutOfMemory` if there is no memory for it. Each hands everything back.
    fn assembled(
        alloc: Global,
        assembly: Assembly,
        resources: H,
    ) -> Result<Self, (Assembly, H, Fault)>
        ensures ok { IfOk result (λ guest. machine_in assembly ≡ Some (copied guest)) }
        ensures back { IfErr result (λ refused. (refused.0 ≡ assembly) × (refused.1 ≡ resources)) }
        ensures refused { IfErr result (λ refused. refused.2
            ≡ refused_as (λ parts. is_some (guest_in assembly.drives parts)) (gathered assembly.slots)) };
}
