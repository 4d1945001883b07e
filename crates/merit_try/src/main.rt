// Worked figures of the merit order, run from code and printed.
#![tactic(auto)]

ghost use Rattle.std.specs.Prelude.{◌≡◌, ◌≤◌};

use columns::wide;
use units::{Kwh, Li};

// Two numbers on one line.
fn show(a: u64, b: u64) {
    io::print_decimal(1, a);
    io::write_all(1, b" ");
    io::print_decimal(1, b);
    io::write_all(1, b"\n");
}

// A row in one tier: what it offers, what it bid, the energy that it is paid for.
#[derive(Clone, Copy)]
struct Band {
    width: u32,
    bid: u32,
    energy: u32,
    ghost narrow: { width ≤ 250000 },
    ghost low: { bid ≤ 65535 },
}

// What two rows are called for in one tier; then the need beyond it, which it answers, and its price.
fn show_tier(need: Kwh, a: Band, b: Band) -> Kwh {
    let widths = [a.width, b.width];
    let bids = [a.bid, b.bid];
    let energies = [a.energy, b.energy];
    let mut called = [0u32, 0];
    let beyond = merit::call_tier(need, 0, &widths, &bids, &mut called);
    show(wide(called[0]), wide(called[1]));
    show(wide(beyond.0), merit::price(&bids, &called, &energies).0);
    beyond
}

// A row that offers nothing.
const NOTHING: Band = Band {
    width: 0,
    bid: 0,
    energy: 0,
};

fn offer(width: u32, bid: u32, energy: u32) -> Band
    requires { (width ≤ 250000) × (bid ≤ 65535) }
    ensures { (result.width ≡ width) × (result.bid ≡ bid) }
{
    Band { width, bid, energy }
}

// Two bands at one bid, which a need of 100 does not fill: P9.
fn show_shared() {
    show_tier(Kwh(100), offer(2500, 200, 2500), offer(5000, 200, 5000));
}

// The need of interval X, in tier 1 and then in tier 2: row 1 is called for 2,500 and 500, its neighbour offers nothing.
fn show_both() {
    let left = show_tier(Kwh(3000), offer(2500, 200, 2500), NOTHING);
    show_tier(left, offer(2000, 400, 1000), NOTHING);
}

// The last unit that delivered sets the price (02, request 1): the dearer of two delivers nothing; the only one called delivers nothing;
// the one that has energy is called for nothing.
fn show_delivered() {
    show_tier(Kwh(5000), offer(2500, 200, 2500), offer(2500, 300, 0));
    show_tier(Kwh(3000), offer(2500, 200, 0), NOTHING);
    show_tier(Kwh(1), offer(2500, 200, 2500), offer(5000, 200, 0));
}

// Half a fen goes upward: P11.
fn show_fen() {
    show(Li(315).to_fen().0, Li(314).to_fen().0);
}

fn main() {
    show_shared();
    show_both();
    show_delivered();
    show_fen();
}
