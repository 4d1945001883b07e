// Who pays, by which weight, up to which cap (01, Weights and caps; Articles 21, 29, 30).
ghost use Rattle.std.specs.Prelude.{◌≡◌, cond, ◌^◌, ◌≤◌};
ghost use Rattle.units.specs.Load.{load};
ghost use Rattle.duties.specs.Duty.{payer, thermal_weight, weight, cap};
ghost use Rattle.duties.specs.Ranged.{Ranged};

use columns::counted as when;
use files::{Kind, Row, Status};
use units::{Fen, Hao, Kwh, load};

// Corrected energy, by which payers share: no measure that anything is priced in, and converted to none.
#[derive(Clone, Copy)]
pub struct Corrected(pub u32);

impl Corrected {
    // This weight if a test passed, else another.
    fn or(self, t: bool, other: Corrected) -> Corrected
        ensures { result.0 ≡ cond t self.0 other.0 }
    {
        Corrected(when(t, self.0) + when(!t, other.0))
    }
}

// Into a line of the sheet.
impl From<Corrected> for u64 {
    ghost from_gives = { λ weight x. x ≡ weight.0 };

    fn from(weight: Corrected) -> u64 {
        u64::from(weight.0)
    }
}

const SIXTY: u8 = 60;

const SEVENTY: u8 = 70;

// Whether the row pays.
pub fn pays(base: Kwh, row: Row) -> bool
    ensures { result ≡ payer base.0 row }
{
    let thermal = row.kind == Kind::Thermal as u8;
    let ran = (base <= row.metered) & (row.status != Status::Accident as u8);
    (thermal & ran) | (!thermal & (row.status == Status::Normal as u8))
}

// The energy that counts: what a payer's meter says, nothing of a row that does not pay.
fn counted(base: Kwh, row: Row) -> Kwh
    ensures { result.0 ≡ cond (payer base.0 row) row.metered.0 0 }
{
    row.metered.when(pays(base, row))
}

// A thermal unit's energy above its base: once to 60 percent, twice to 70, three times above. What lies above 70
// percent lies above 60 and above the base too.
pub fn thermal_weight(base: Kwh, capacity: u16, energy: Kwh) -> Corrected
    requires { (energy.0 ≤ 2 ^ 30) × (base.0 ≤ load capacity 60) }
    ensures { result.0 ≡ thermal_weight base.0 capacity energy.0 }
{
    let low = load(capacity, SIXTY);
    let high = load(capacity, SEVENTY);
    Corrected(energy.above(base).0 + energy.above(low).0 + energy.above(high).0)
}

// The weight of a row, 0 for one that does not pay.
pub fn weight(base: Kwh, row: Row) -> Corrected
    requires { Ranged row × (base.0 ≤ load row.capacity 60) }
    ensures { result.0 ≡ weight base.0 row }
{
    let energy = counted(base, row);
    thermal_weight(base, row.capacity, energy).or(
        row.kind == Kind::Thermal as u8,
        Corrected(energy.0),
    )
}

// The cap of a row, 0 for one that does not pay. A farm's is that of a unit with twice the energy, so that one division serves both kinds.
pub fn cap(base: Kwh, tariff: Hao, row: Row) -> Fen
    requires { Ranged row }
    ensures { result.0 ≡ cap base.0 tariff.0 row }
{
    let energy = counted(base, row);
    let farm = energy.when(row.kind != Kind::Thermal as u8);
    Kwh(energy.0 + farm.0).thermal_cap(tariff)
}
