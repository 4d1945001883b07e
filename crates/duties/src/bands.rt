// The two bands of an offering row below its limit (01, Calls and prices; Articles 19 and 25).
ghost use Rattle.std.specs.Prelude.{◌≡◌};
ghost use Rattle.duties.specs.Duty.{width1, width2};

use crate::FOOT;
use files::Row;
use units::{Kwh, load};

// Tier 1: from the limit down to the larger of the minimum and 40 percent.
pub fn width1(limit: Kwh, row: Row) -> Kwh
    ensures { result.0 ≡ width1 limit.0 row }
{
    let width = limit.above(row.minimum.larger(load(row.capacity, FOOT)));
    width.when(row.offered == 1)
}

// Tier 2: from 40 percent down to the minimum.
pub fn width2(row: Row) -> Kwh
    ensures { result.0 ≡ width2 row }
{
    load(row.capacity, FOOT)
        .above(row.minimum)
        .when(row.offered == 1)
}
