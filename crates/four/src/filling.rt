// Filling the rows of a tally from row 1 and the differences from it.
ghost use Rattle.std.specs.Prelude.{◌≤◌, length};
ghost use Rattle.scheme.specs.Four.{row_from_first};
ghost use Rattle.tally.specs.Rows.{signature_in, tally_size, Filled};

use crate::gaps::RowGaps;
use field::Field;
use tally::{Farm, put_row};

// Makes each row but row 1 what row 1 is minus the difference of row 1 and it.
pub(crate) fn fill_rows<F: Field, G: RowGaps<F>>(farm: &Farm, gaps: &G, tally: &mut [u32])
    requires { tally_size farm.now.stations farm.now.pages ≤ length tally.old }
    ensures { Filled farm.now.stations farm.now.pages tally.old tally.new
        (row_from_first F.Field.ops (signature_in tally.old farm.now.pages 1) (G.RowGaps.gaps gaps.now)) }
{
    for station in 2..=farm.stations {
        put_row::<F, _>(tally, farm.pages, 1, station, |page| {
            gaps.gap(1, station, page)
        });
    }
}
