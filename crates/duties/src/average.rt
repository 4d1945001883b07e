// The thermal average, where it takes the base's place (02, request 9; Article 22).
ghost use Rattle.std.specs.Prelude.{◌≡◌, ◌+◌, ◌^◌, ◌<◌};
ghost use Rattle.duties.specs.Average.{stirs, joined, average_at, Low};

use crate::baseline;
use columns::counted;
use files::{Kind, Row, Terms};
use units::Kwh;

// Whether the average rules, and the sums that it is made of: output and capacity of the thermal rows. While these are made, it rules
// as soon as one of the rows is thermal. The flag stands beside the sums, and no `Option` of sums, as `average_of` and the theorems on
// averaged statements have it.
#[derive(Clone, Copy)]
pub struct Average {
    pub rules: bool,
    pub energy: Kwh,
    pub capacity: u32,
}

// The average of no row, and of a quarter that it does not rule.
pub const USUAL: Average = Average {
    rules: false,
    energy: Kwh(0),
    capacity: 0,
};

// Whether a row keeps the average from ruling: a thermal meter above its baseline, another above 0.
pub fn stirs(terms: Terms, row: Row) -> bool
    ensures { result ≡ stirs terms row }
{
    let thermal = row.kind == Kind::Thermal as u8;
    baseline(terms, row.capacity).when(thermal) < row.metered
}

// The sums with a row more: one that is thermal counts, of whatever status.
pub fn joined(sums: Average, row: Row) -> Average
    requires { (sums.energy.0 + row.metered.0 < 2 ^ 32) × (sums.capacity + row.capacity < 2 ^ 32) }
    ensures { result ≡ joined sums row }
{
    let thermal = row.kind == Kind::Thermal as u8;
    let energy = sums.energy + row.metered.when(thermal);
    let capacity = sums.capacity + counted(thermal, row.capacity as u32);
    Average {
        rules: sums.rules | thermal,
        energy,
        capacity,
    }
}

// The average of a capacity: the product is made first, then cut to whole kWh.
pub fn average_at(ruling: Average, capacity: u16) -> Kwh
    requires { Low ruling }
    ensures { result.0 ≡ average_at ruling capacity }
{
    Kwh::from_wide(u64::from(capacity) * u64::from(ruling.energy) / u64::from(ruling.capacity))
}
