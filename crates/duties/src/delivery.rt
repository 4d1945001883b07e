// The energy that a row is paid for in each tier (01, Compensation; Article 27).
ghost use Rattle.std.specs.Prelude.{◌≡◌};
ghost use Rattle.duties.specs.Duty.{energy_in1, energy_in2, receives, energy1, energy2};

use crate::FOOT;
use files::{Kind, Row, Status};
use units::{Kwh, load};

// From the base down to the meter, and no further than 40 percent.
pub fn energy_in1(base: Kwh, capacity: u16, metered: Kwh) -> Kwh
    ensures { result.0 ≡ energy_in1 base.0 capacity metered.0 }
{
    base.above(metered.larger(load(capacity, FOOT)))
}

// From 40 percent, or a base below it, down to the meter.
pub fn energy_in2(base: Kwh, capacity: u16, metered: Kwh) -> Kwh
    ensures { result.0 ≡ energy_in2 base.0 capacity metered.0 }
{
    base.smaller(load(capacity, FOOT)).above(metered)
}

// Only a thermal row that ran as usual is paid for what it delivered.
fn receives(row: Row) -> bool
    ensures { result ≡ receives row }
{
    (row.kind == Kind::Thermal as u8) & (row.status == Status::Normal as u8)
}

pub fn energy1(base: Kwh, row: Row) -> Kwh
    ensures { result.0 ≡ energy1 base.0 row }
{
    energy_in1(base, row.capacity, row.metered).when(receives(row))
}

pub fn energy2(base: Kwh, row: Row) -> Kwh
    ensures { result.0 ≡ energy2 base.0 row }
{
    energy_in2(base, row.capacity, row.metered).when(receives(row))
}
