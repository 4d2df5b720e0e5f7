//! Why the outside ends.
ghost use Rattle.std.specs.Prelude.{IfSome, ◌≡◌, true};
ghost use Rattle.std.specs.List.{list_all};
ghost use Rattle.outside_switch.specs.LoopRuns.{HasIdleGuest, IsWhy, Went, have_no_machine, is_after, is_out, is_silent};
ghost use Rattle.outside_switch.specs.declared.session.HostsEnd.TheVariants as ending;

use crate::HostLine;
use crate::live::live_of;
use crate::session::{HostsEnd, Session};
use crate::steward::Steward;
use shared_disk::SectorStore;

/// For how many microseconds writes of the guest may be on their way after the user has asked for the end.
const DRAINS: u64 = 2_000_000;

impl<D: SectorStore, S: Steward + Drop> Session<D, S> {
    /// Why all ends now, if it does.
    #[tactic(auto, using(crate::proofs::TurnsGoing::same))]
    pub(crate) fn end(&mut self, now: u64) -> Option<HostsEnd>
        ensures went { Went self.old self.new }
        ensures why { IfSome result (λ end. IsWhy end self.new) }
    {
        if self.has_quit(now) {
            return Some(HostsEnd::UserQuit);
        }
        if self.steward.is_over() {
            return Some(HostsEnd::Stopped);
        }
        if is_deserted(self.switch.lines(), self.moments.left) {
            return Some(HostsEnd::NoHosts);
        }
        self.end_of_keys()
    }

    // Whether the user has asked for the end, and no write of the guest is on its way to the disk.
    #[tactic(auto, using(crate::proofs::TurnsGoing::same))]
    fn has_quit(&mut self, now: u64) -> bool
        ensures went { Went self.old self.new }
        ensures why { result ≡ true → IsWhy ending.UserQuit self.new }
    {
        if self.quits.is_empty() || !self.is_drained(now) {
            return false;
        }
        self.quits.pop().is_ok()
    }

    // Whether a live host has said, since the user has asked for the end, that no write is on its way; or it has not for long.
    #[tactic(auto, using(crate::proofs::TurnsGoing::same))]
    fn is_drained(&mut self, now: u64) -> bool
        ensures went { Went self.old self.new }
        ensures quits { self.new.quits ≡ self.old.quits }
    {
        let Some((asked, tick)) = self.moments.asked else {
            self.moments.asked = Some((now, self.moments.tick));
            return false;
        };
        match live_of(self.switch.lines()) {
            Some(live) if live.report.tick > tick && live.report.writes == 0 => true,
            _ => now.saturating_sub(asked) >= DRAINS,
        }
    }

    // Why all ends now, if no keys are left.
    fn end_of_keys(&self) -> Option<HostsEnd>
        ensures { IfSome result (λ end. IsWhy end self.now) }
    {
        if !self.first.is_over() || !self.second.is_over() {
            return None;
        }
        if self.is_idle() {
            return Some(HostsEnd::Settled);
        }
        if self.is_silent() {
            return Some(HostsEnd::Silent);
        }
        None
    }

    // Whether nothing has moved for as long as it may be so.
    fn is_silent(&self) -> bool
        ensures { result ≡ is_silent self.now }
    {
        self.moments.turned.saturating_sub(self.moments.moved) >= self.silence
    }

    // Whether the guest of the live host waits for a key, with nothing on its way to a device.
    fn is_idle(&self) -> bool
        ensures { result ≡ true → HasIdleGuest self.now.switch.lines.items }
    {
        match live_of(self.switch.lines()) {
            Some(live) => live.report.is_idle,
            None => false,
        }
    }
}

// Whether no host that is left has the machine, or is given it.
fn is_deserted(lines: &[HostLine], left: Option<u64>) -> bool
    ensures all { result ≡ list_all (λ line. is_out left line) lines.now }
    ensures none { result ≡ true → have_no_machine lines.now ≡ true }
{
    are_out(lines, left)
}

// Whether all hosts are out.
fn are_out(lines: &[HostLine], left: Option<u64>) -> bool
    ensures { result ≡ list_all (λ line. is_out left line) lines.now }
{
    lines.iter().all(|line| is_out(line, left))
}

// Whether a host is cut off or has no number; or it was given to a generation, and still says that it is a spare after whoever was
// to send it the machine is gone.
fn is_out(line: &HostLine, left: Option<u64>) -> bool
    ensures { result ≡ is_out left line.now }
{
    if line.is_cut() || line.number().is_none() {
        return true;
    }
    match line.report() {
        Some(report) => report.role.is_none() && is_after(report.tick, left),
        None => false,
    }
}

// Whether a tick came after that one, if there is one.
fn is_after(tick: u64, left: Option<u64>) -> bool
    ensures { result ≡ is_after tick left }
{
    match left {
        Some(left) => tick > left,
        None => false,
    }
}
