//! The steps, each with what it tells.
ghost use Rattle.pair_rule.specs.Kinds.{fills, empties, appends, sees, holds_entries, contests_primary, contests_backup, counts_at, sees_count_at, takes_first_slot, gives_last_slot, without, only, with_part, spent_view};

use crate::payload::Payload;
use crate::seated::Seated;
use crate::view::SeatView;
use atomic_table::{Join, Play, Split};
use std::marker::PhantomData;

// A box is filled, and emptied.
pub struct Fill;

impl Play<Option<Payload>, SeatView> for Fill {
    ghost then = { λ step. fills step.word };
}

pub struct Empty;

impl Play<Option<Payload>, SeatView> for Empty {
    ghost then = { λ step. empties step.word };
}

// An entry is appended; what is acknowledged is seen, and grows.
pub struct Append;

impl Play<Option<Payload>, SeatView> for Append {
    ghost then = { λ _. appends };
}

pub struct See;

impl Play<Option<Payload>, SeatView> for See {
    ghost then = { λ _. sees };
}

pub struct Hold;

impl Play<Option<Payload>, SeatView> for Hold {
    ghost then = { λ _. holds_entries };
}

// The test-and-set of primary and backup.
pub struct ContestPrimary;

impl Play<Option<Payload>, SeatView> for ContestPrimary {
    ghost then = { λ _. contests_primary };
}

pub struct ContestBackup;

impl Play<Option<Payload>, SeatView> for ContestBackup {
    ghost then = { λ _. contests_backup };
}

// A byte is counted, and what is counted is seen.
pub struct Count;

impl Play<Option<Payload>, SeatView> for Count {
    ghost then = { λ step. counts_at step.word };
}

pub struct SeeCount;

impl Play<Option<Payload>, SeatView> for SeeCount {
    ghost then = { λ step. sees_count_at step.word };
}

// A seat takes its first slot, and gives its last one back.
pub struct FirstSlot<S> {
    seat: PhantomData<S>,
}

impl<S: Seated> Play<Option<Payload>, SeatView> for FirstSlot<S> {
    ghost then = { λ _. takes_first_slot S.who };
}

pub struct LastSlot<S> {
    seat: PhantomData<S>,
}

impl<S: Seated> Play<Option<Payload>, SeatView> for LastSlot<S> {
    ghost then = { λ _. gives_last_slot S.who };
}

// A seat's part is split off the primary's, and joined into it again.
pub struct Part<S> {
    seat: PhantomData<S>,
}

impl<S: Seated> Split<SeatView> for Part<S> {
    ghost left = { without S.who };

    ghost right = { only S.who };
}

impl<S: Seated> Join<SeatView> for Part<S> {
    ghost both = { with_part S.who };

    ghost spent = { spent_view };
}
