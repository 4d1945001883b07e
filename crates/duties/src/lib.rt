// The duties of a row under its terms (01, Calls and prices, Compensation, Weights and caps; 02, requests 4 and 9): the one room that
// knows capacities, percentages, kinds, statuses and limits. What follows works on the columns of these figures.
#![tactic(auto)]

ghost use Rattle.std.specs.Prelude.{◌≡◌, ◌≤◌};
ghost use Rattle.units.specs.Load.{load};
ghost use Rattle.files.specs.Terms.{baseline};
ghost use Rattle.duties.specs.Average.{average_at, Low};
ghost use Rattle.duties.specs.Duty.{duty_of};
ghost use Rattle.duties.specs.Ranged.{Ranged};

use files::{Row, Terms};
use units::{Fen, Hao, Kwh, Li};

mod average;
mod bands;
mod credit;
mod delivery;
mod weighing;

pub use average::{Average, USUAL, average_at, joined, stirs};
pub use bands::{width1, width2};
pub use credit::{credit1, credit2};
pub use delivery::{energy_in1, energy_in2, energy1, energy2};
pub use weighing::{Corrected, cap, pays, thermal_weight, weight};

// Where tier 1 ends and tier 2 begins, in percent of full load.
const FOOT: u8 = 40;

// What a row offers, delivered, is credited with, weighs and may be asked to pay.
#[derive(Clone, Copy)]
pub struct Duty {
    pub width1: Kwh,
    pub width2: Kwh,
    pub energy1: Kwh,
    pub energy2: Kwh,
    pub credit1: Kwh,
    pub credit2: Kwh,
    pub weight: Corrected,
    pub cap: Fen,
    pub bid1: Li,
    pub bid2: Li,
}

// The baseline of a capacity under the terms.
pub fn baseline(terms: Terms, capacity: u16) -> Kwh
    ensures { result.0 ≡ baseline terms capacity }
{
    units::load(capacity, terms.percent)
}

// All of a row's figures, by its limit and its base.
fn duty_of(limit: Kwh, base: Kwh, tariff: Hao, row: Row) -> Duty
    requires { Ranged row × (base.0 ≤ load row.capacity 60) }
    ensures { result ≡ duty_of limit.0 base.0 tariff.0 row }
{
    Duty {
        width1: width1(limit, row),
        width2: width2(row),
        energy1: energy1(base, row),
        energy2: energy2(base, row),
        credit1: credit1(limit, base, row),
        credit2: credit2(base, row),
        weight: weight(base, row),
        cap: cap(base, tariff, row),
        bid1: row.bid1,
        bid2: row.bid2,
    }
}

// Those of a usual quarter: limit and base are the baseline of the terms.
pub fn usual_duty(terms: Terms, tariff: Hao, row: Row) -> Duty
    requires { Ranged row × (terms.percent ≤ 60) }
    ensures { result ≡ duty_of (baseline terms row.capacity) (baseline terms row.capacity) tariff.0 row }
{
    let limit = baseline(terms, row.capacity);
    duty_of(limit, limit, tariff, row)
}

// Those of a quarter that the thermal average rules: it is the base, and the bands stay where they are.
pub fn average_duty(terms: Terms, ruling: Average, tariff: Hao, row: Row) -> Duty
    requires { Ranged row × Low ruling }
    ensures { result ≡ duty_of (baseline terms row.capacity) (average_at ruling row.capacity) tariff.0 row }
{
    let limit = baseline(terms, row.capacity);
    let base = average_at(ruling, row.capacity);
    duty_of(limit, base, tariff, row)
}
