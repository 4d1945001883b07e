// What counts as delivered of a row's calls, so that the rest is owed (02, request 4; Article 52).
ghost use Rattle.std.specs.Prelude.{◌≡◌};
ghost use Rattle.duties.specs.Duty.{liable, credit1, credit2};

use crate::bands::{width1, width2};
use crate::delivery::{energy_in1, energy_in2};
use files::{Kind, Row, Status};
use units::Kwh;

// Only a thermal row reduced for reasons of its own owes for what it did not deliver.
fn liable(row: Row) -> bool
    ensures { result ≡ liable row }
{
    (row.kind == Kind::Thermal as u8) & (row.status == Status::Reduced as u8)
}

// By the meter in tier 1; for a row that owes nothing, all that it offers there, since no call is above it.
pub fn credit1(limit: Kwh, base: Kwh, row: Row) -> Kwh
    ensures { result.0 ≡ credit1 limit.0 base.0 row }
{
    let delivered = energy_in1(base, row.capacity, row.metered);
    delivered.or(liable(row), width1(limit, row))
}

// The same in tier 2.
pub fn credit2(base: Kwh, row: Row) -> Kwh
    ensures { result.0 ≡ credit2 base.0 row }
{
    let delivered = energy_in2(base, row.capacity, row.metered);
    delivered.or(liable(row), width2(row))
}
