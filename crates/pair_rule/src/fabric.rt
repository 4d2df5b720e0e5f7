//! The table of one generation.
ghost use Rattle.std.specs.Prelude.{◌≡◌};

use crate::payload::Payload;
use crate::view::SeatView;
use atomic_table::{Seat, Shared, Table, TableRule};
use std::alloc::Global;
use std::marker::Model;

pub struct PairRule;

impl TableRule<Option<Payload>, SeatView, u64> for PairRule {
    ghost use Rattle.pair_rule.specs.Rules.{Rule, first_view};

    ghost holds = { λ generation. Rule generation };

    ghost first = { λ generation. first_view generation };
}

pub(crate) type PairTable = Table<Option<Payload>, SeatView, u64, PairRule, Global>;

pub(crate) type SharedTable = Shared<Option<Payload>, SeatView, u64, PairRule>;

pub(crate) type TableSeat = Seat<Option<Payload>, SeatView>;

/// The words and boxes of one generation. Contracts see which table it is.
#[derive(Drop)]
pub struct Fabric {
    pub(crate) table: PairTable,
}

impl Model for Fabric {
    ghost use Rattle.atomic_table.specs.Seated.{TableId, table_id_coded};

    ghost Value = { TableId };

    ghost coded = { table_id_coded };

    ghost use Rattle.std.specs.Prelude.{◌≡◌};

    ghost view = { λ f. f.table.shared.table_id };

    ghost invariant = { λ f. (f.table.shared.table_id.words ≡ 11) × (f.table.shared.table_id.slots ≡ 11) };
}
