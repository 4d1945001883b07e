// Worked figures of duties and compensation (01, Checked figures: P6, P10, P11, paid energies, the rows of interval X), run from code;
// those that look at the baseline also under stated terms (02, request 6), and those of a quarter that the thermal average rules
// (02, request 9).
#![tactic(auto)]

ghost use Rattle.std.specs.Prelude.{◌^◌, ◌≤◌};
ghost use Rattle.units.specs.Load.{load};
ghost use Rattle.duties.specs.Ranged.{Ranged};

use duties::{Average, Duty};
use files::{Row, TERMS_01, Terms};
use units::{Hao, Kwh, Li};

// A baseline of 45 percent, and limits of bids other than document 01's.
const STATED: Terms = Terms {
    percent: 45,
    lowest1: Li(150),
    highest1: Li(330),
    lowest2: Li(330),
    highest2: Li(760),
};

// The sums of units of 100 MW at 9,000 and at 12,500 kWh: both have an average of 10,750.
const TWO: Average = Average {
    rules: true,
    energy: Kwh(21500),
    capacity: 200,
};

// The sums of units of 100, 200 and 7 MW at 9,000, 20,000 and 500 kWh.
const THREE: Average = Average {
    rules: true,
    energy: Kwh(29500),
    capacity: 307,
};

fn show(x: u64) {
    io::print_decimal(1, x);
    io::write_all(1, b" ");
}

fn show_energy(x: Kwh) {
    show(x.into());
}

fn show_test(b: bool) {
    show(columns::one_if(b) as u64);
}

fn end_line() {
    io::write_all(1, b"\n");
}

// What a thermal unit of 100 MW weighs.
fn show_weight(base: Kwh, energy: Kwh)
    requires { (energy.0 ≤ 2 ^ 30) × (base.0 ≤ load 100 60) }
{
    show(duties::thermal_weight(base, 100, energy).into());
}

fn show_weights(base: Kwh)
    requires { base.0 ≤ load 100 60 }
{
    show_weight(base, Kwh(12500));
    show_weight(base, Kwh(15000));
    show_weight(base, Kwh(15001));
    show_weight(base, Kwh(17500));
    show_weight(base, Kwh(17501));
    show_weight(base, Kwh(27500));
    end_line();
}

// What a unit of 100 MW delivered in both tiers.
fn show_delivery(terms: Terms, metered: Kwh) {
    let base = duties::baseline(terms, 100);
    show_energy(duties::energy_in1(base, 100, metered));
    show_energy(duties::energy_in2(base, 100, metered));
    end_line();
}

// The caps for 1 kWh of a thermal unit, fen out of li.
fn show_money() {
    show(Kwh(1).thermal_cap(Hao(399)).0);
    show(Kwh(1).thermal_cap(Hao(400)).0);
    end_line();
    show(Li(315).to_fen().0);
    show(Li(314).to_fen().0);
    end_line();
}

// Duties in their order, but for the credits.
fn show_duty(d: Duty) {
    show_energy(d.width1);
    show_energy(d.width2);
    show_energy(d.energy1);
    show_energy(d.energy2);
    show(d.weight.into());
    show(d.cap.0);
    show(d.bid1.0);
    show(d.bid2.0);
    end_line();
}

// A row of 100 MW that offers nothing.
fn row_of(kind: u8, metered: Kwh, status: u8) -> Row
    requires { metered.0 ≤ 2 ^ 30 }
    ensures { Ranged result }
{
    Row {
        id: 1,
        kind: kind,
        capacity: 100,
        metered: metered,
        status: status,
        offered: 0,
        minimum: Kwh(0),
        bid1: Li(0),
        bid2: Li(0),
    }
}

// A unit of 100 MW at 9,000 kWh that offers down to 8,000: the first row of interval X.
fn offering(status: u8) -> Row
    ensures { Ranged result }
{
    let minimum = Kwh(8000);
    let bid1 = Li(200);
    let bid2 = Li(400);
    let mut row = row_of(1, Kwh(9000), status);
    row.offered = 1;
    row.minimum = minimum;
    row.bid1 = bid1;
    row.bid2 = bid2;
    row
}

// The duties of a row at tariff 1300.
fn show_row(terms: Terms, row: Row)
    requires { Ranged row × (terms.percent ≤ 60) }
{
    show_duty(duties::usual_duty(terms, Hao(1300), row));
}

// The rows of interval X.
fn show_rows(terms: Terms)
    requires { terms.percent ≤ 60 }
{
    show_row(terms, offering(0));
    show_row(terms, row_of(1, Kwh(20000), 0));
    show_row(terms, row_of(2, Kwh(5000), 0));
}

// The same by stated terms; then a unit one kWh below its baseline of 11,250, and one at it.
fn show_stated() {
    show_weights(duties::baseline(STATED, 100));
    show_delivery(STATED, Kwh(11249));
    show_delivery(STATED, Kwh(10000));
    show_delivery(STATED, Kwh(9999));
    show_rows(STATED);
    show_row(STATED, row_of(1, Kwh(11249), 0));
    show_row(STATED, row_of(1, Kwh(11250), 0));
}

// Rows that leave the average in place and rows that keep it from ruling: units at their baseline and a kWh above, a farm at 0 and at 1.
fn show_stirs() {
    show_test(duties::stirs(TERMS_01, row_of(1, Kwh(12500), 0)));
    show_test(duties::stirs(TERMS_01, row_of(1, Kwh(12501), 3)));
    show_test(duties::stirs(STATED, row_of(1, Kwh(11250), 0)));
    show_test(duties::stirs(STATED, row_of(1, Kwh(11251), 3)));
    show_test(duties::stirs(TERMS_01, row_of(2, Kwh(0), 0)));
    show_test(duties::stirs(TERMS_01, row_of(3, Kwh(1), 3)));
    end_line();
}

// The sums of two units with a row more.
fn show_joined(row: Row)
    requires { Ranged row }
{
    let sums = duties::joined(TWO, row);
    show_energy(sums.energy);
    show(u64::from(sums.capacity));
    end_line();
}

// The averages of three units, of which none is whole.
fn show_averages() {
    show_energy(duties::average_at(THREE, 100));
    show_energy(duties::average_at(THREE, 200));
    show_energy(duties::average_at(THREE, 7));
    end_line();
}

// The duties of a row by the average of two units.
fn show_averaged(row: Row)
    requires { Ranged row }
{
    show_duty(duties::average_duty(TERMS_01, TWO, Hao(1300), row));
}

// What a unit that was reduced is credited with, by that average.
fn show_credits() {
    let d = duties::average_duty(TERMS_01, TWO, Hao(1300), offering(2));
    show_energy(d.credit1);
    show_energy(d.credit2);
    end_line();
}

// A quarter that the average rules.
fn show_calm() {
    show_stirs();
    show_joined(row_of(1, Kwh(9001), 3));
    show_joined(row_of(2, Kwh(0), 0));
    show_averages();
    show_averaged(offering(0));
    show_averaged(row_of(1, Kwh(12500), 0));
    show_averaged(row_of(1, Kwh(10750), 0));
    show_averaged(row_of(1, Kwh(12500), 3));
    show_averaged(row_of(2, Kwh(0), 0));
    show_credits();
}

fn main() {
    show_weights(duties::baseline(TERMS_01, 100));
    show_delivery(TERMS_01, Kwh(12499));
    show_delivery(TERMS_01, Kwh(10000));
    show_delivery(TERMS_01, Kwh(9999));
    show_money();
    show_rows(TERMS_01);
    show(pay::compensation(Kwh(2500), Kwh(500), Kwh(2500), Kwh(1000), Li(200), Li(400)).0);
    end_line();
    show_stated();
    show_calm();
}
