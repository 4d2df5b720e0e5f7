//! The last completed writes of a track, as bytes are read for them.
ghost use Rattle.std.specs.Prelude.{◌≡◌};
ghost use Rattle.clone_state.specs.Codec.{read_all};
ghost use Rattle.clone_state.specs.Parts.{table};

use disk_dcdd::SECTORS;
use log_entry::number_at;

/// The numbers that the payload of a table spells, one for each sector of a track.
pub(crate) fn table_of(payload: &[u8]) -> Option<[u64; SECTORS as usize]>
    ensures { result ≡ read_all table payload.now }
{
    let mut numbers = [0; SECTORS as usize];
    let mut rest = payload;
    for sector in 0..SECTORS {
        let Some((number, after)) = number_at(rest) else {
            return None;
        };
        numbers[sector as usize] = number;
        rest = after;
    }
    if !rest.is_empty() {
        return None;
    }
    Some(numbers)
}
