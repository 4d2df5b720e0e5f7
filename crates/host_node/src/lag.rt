//! How far the hosts of a pair are, and how far a backup may be behind.
ghost use Rattle.std.specs.Prelude.{◌≡◌, None, Some};
ghost use Rattle.host_node.specs.Lagging.{behind, is_due, is_far_behind, is_late, is_too_far, lag_of, waits_for};

use ft_node::Lead;
use pair_events::Role;

// How many steps a backup may be behind: about those of a hundredth of a second. If it is further behind, its primary's guest
// makes no step (VMware FT, section 3.2.2).
const MOST_BEHIND: u64 = 8_000_000;

// After how many steps a host says again how far it is.
const STEPS: u64 = 2_000_000;

/// How far the peer said last that it is, and how far this host said last that it is itself.
#[derive(Clone, Copy)]
pub struct Lag {
    heard: Option<Lead>,
    said: Option<u64>,
}

impl Lag {
    /// Nothing was said.
    pub fn new() -> Lag
        ensures heard { result.heard ≡ None }
        ensures said { result.said ≡ None }
    {
        Lag {
            heard: None,
            said: None,
        }
    }

    /// The peer says how far it is.
    pub fn hear(&mut self, lead: Lead)
        ensures heard { self.new.heard ≡ Some lead }
        ensures said { self.new.said ≡ self.old.said }
    {
        self.heard = Some(lead);
    }

    /// How far the peer is.
    pub fn heard(&self) -> Option<Lead>
        ensures { result ≡ self.now.heard }
    {
        self.heard
    }

    /// Whether the peer is so far behind a guest of this count that the guest may not go on. A peer that has said nothing yet
    /// has only begun.
    pub fn is_far_behind(&self, count: u64) -> bool
        ensures { result ≡ is_far_behind self.now.heard count }
    {
        match self.heard {
            Some(lead) => is_too_far(lead.count, count),
            None => false,
        }
    }

    /// How many steps a guest of this count has yet to make up to where the peer is.
    pub fn behind(&self, count: u64) -> u64
        ensures { result ≡ behind self.now.heard count }
    {
        match self.heard {
            Some(lead) => lead.count.saturating_sub(count),
            None => 0,
        }
    }

    /// Whether the peer has said that it is so far past a guest of this count that the guest is to make many steps at once.
    pub fn is_late(&self, count: u64) -> bool
        ensures { result ≡ is_late self.now.heard count }
    {
        self.behind(count) > STEPS
    }

    /// Whether it is time to say that this host has come to a count.
    pub fn is_due(&self, count: u64) -> bool
        ensures { result ≡ is_due self.now.said count }
    {
        match self.said {
            Some(said) => count.saturating_sub(said) >= STEPS,
            None => true,
        }
    }

    /// It was said.
    pub fn say(&mut self, count: u64)
        ensures said { self.new.said ≡ Some count }
        ensures heard { self.new.heard ≡ self.old.heard }
    {
        self.said = Some(count);
    }

    /// It is to be said again, since what was said may be lost.
    pub fn say_again(&mut self)
        ensures said { self.new.said ≡ None }
        ensures heard { self.new.heard ≡ self.old.heard }
    {
        self.said = None;
    }
}

// Whether a guest that has made so many steps has more to make up to a count than it may be behind.
fn is_too_far(steps: u64, count: u64) -> bool
    ensures { result ≡ is_too_far steps count }
{
    count.saturating_sub(steps) > MOST_BEHIND
}

/// Whether a node in this role waits for a backup that is behind: a primary does, unless the backup is not whole yet.
pub fn waits_for(role: Option<Role>, is_copying: bool, is_behind: bool) -> bool
    ensures { result ≡ waits_for role is_copying is_behind }
{
    match role {
        Some(Role::Primary) => is_behind && !is_copying,
        _ => false,
    }
}

/// By how many steps a node in this role lags: a backup does by those up to where its primary is.
pub fn lag_of(role: Option<Role>, behind: u64) -> u64
    ensures { result ≡ lag_of role behind }
{
    match role {
        Some(Role::Backup) => behind,
        _ => 0,
    }
}
