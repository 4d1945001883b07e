// The rounds of P1 to P5 (01, Checked figures: interval X at five tariffs) and a case of four rounds, run on columns. Weights and caps are
// written as numbers; rounds, visits, shortfall and payments are proved and printed. P6 to P11 are no matter of rounds and stand elsewhere.
#![tactic(auto)]

ghost use Rattle.std.specs.Prelude.{◌≡◌, [], ◌∷◌, ◌++◌, take, drop, replicate};
ghost use Rattle.levy_try.specs.Shown.{Case, Worked, outcome, paid_in};

use units::Fen;

fn show(x: u64) {
    io::print_decimal(1, x);
    io::write_all(1, b" ");
}

fn end_line() {
    io::write_all(1, b"\n");
}

// The figures of a column on a line of their own.
fn show_line(column: &[u32]) {
    for figure in column {
        show(u64::from(*figure));
    }
    end_line();
}

// What a case comes to: how many rounds, how often payers were looked at, and what nobody is left to pay.
#[derive(Clone, Copy)]
struct Outcome {
    rounds: u16,
    visits: u32,
    shortfall: Fen,
}

// An outcome on a line of its own.
fn show_outcome(told: Outcome) {
    show(u64::from(told.rounds));
    show(u64::from(told.visits));
    show(told.shortfall.0);
    end_line();
}

// Marks before the first round.
fn blank() -> [u32; 256]
    ensures { result ≡ replicate 256 0 }
{
    [0; 256]
}

// All the rounds of a case, then what everybody pays, in the place of the caps.
fn shown(total: Fen, n: usize, weights: &[u32; 256], caps: &mut [u32; 256]) -> Outcome
    requires { Case total.0 n weights.now caps.old }
    ensures { (result.rounds ∷ result.visits ∷ result.shortfall.0 ∷ [] ≡ outcome total.0 (take n weights.now) (take n caps.old))
        × (caps.new ≡ paid_in total.0 (take n weights.now) (take n caps.old) ++ drop n caps.old) }
{
    let mut marks = blank();
    let rest = levy::rounds(total, n, weights, caps, &mut marks);
    let shortfall = levy::shortfall(rest);
    levy::payments(n, rest, weights, &marks, 0, caps);
    let told = Outcome {
        rounds: rest.rounds,
        visits: rest.visits,
        shortfall,
    };
    show_outcome(told);
    show_line(&caps[..n]);
    told
}

// Interval X under the caps that a tariff gives rows 2 and 3, and what 01 says of it.
fn interval(cap2: u32, cap3: u32, rounds: u16, visits: u32, shortfall: u64, paid2: u32, paid3: u32)
    requires { Worked cap2 cap3 rounds visits shortfall paid2 paid3 }
{
    let mut weights = [0u32; 256];
    weights[1] = 15000;
    weights[2] = 5000;
    let mut caps = [0u32; 256];
    caps[1] = cap2;
    caps[2] = cap3;
    let told = shown(Fen(90000), 3, &weights, &mut caps);
    check::expect(told.rounds == rounds);
    check::expect(told.visits == visits);
    check::expect(told.shortfall.0 == shortfall);
    check::expect(caps[1] == paid2);
    check::expect(caps[2] == paid3);
}

// Five payers of one weight: one closes in each of four rounds, and the fifth pays what is left. They are looked at 5 + 4 + 3 + 2 + 1 times.
fn many() {
    let mut weights = [0u32; 256];
    weights[0] = 7;
    weights[1] = 7;
    weights[2] = 7;
    weights[3] = 7;
    weights[4] = 7;
    let mut caps = [0u32; 256];
    caps[0] = 2302;
    caps[1] = 1000;
    caps[2] = 3000;
    caps[3] = 2290;
    caps[4] = 2100;
    let told = shown(Fen(10000), 5, &weights, &mut caps);
    check::expect(told.rounds == 4);
    check::expect(told.visits == 15);
    check::expect(caps[2] == 2308);
}

// P1 to P5, at tariffs 3545, 1350, 1300, 1200 and 1000, then the four rounds.
fn main() {
    interval(177250, 88625, 0, 2, 0, 67500, 22500);
    interval(67500, 33750, 1, 3, 0, 67500, 22500);
    interval(65000, 32500, 1, 3, 0, 65000, 25000);
    interval(60000, 30000, 2, 3, 0, 60000, 30000);
    interval(50000, 25000, 2, 3, 15000, 50000, 25000);
    many();
}
