// Rounds until nobody closes (01, Rounds), each over the list of open payers. A payer's mark is the round in which it closed, 0
// before that: a number and no `Option`, since it goes into the statement so (`Finished`).
ghost use Rattle.std.specs.Prelude.{◌≡◌, ◌*◌, ◌^◌, ◌<◌, leb};
ghost use Rattle.levy.specs.Asked.{standing_now, Levyable, Round, Shut, Ready, Ended, Finished, Short};

use crate::listing::{counted, list_payers};
use crate::visiting::count_visits;
use crate::{Closed, Rest};
use columns::{one_if, position};
use units::Fen;

// Whom the rounds go over: the weight and the cap of each position.
#[derive(Clone, Copy)]
struct Payers<'a> {
    weights: &'a [u32],
    caps: &'a [u32],
}

// How things stand between two rounds, beside the marks: the money and the weight that are left, and how many rounds somebody
// closed in.
#[derive(Clone, Copy)]
struct Balance {
    money: Fen,
    weight: u64,
    rounds: u16,
}

impl Balance {
    // Whether an open payer owes its cap or more. Both sides are whole numbers: there is no division.
    fn closes(self, weight: u32, cap: u32) -> bool
        requires { (cap * self.weight < 2 ^ 63) × (self.money.0 * weight < 2 ^ 63) }
        ensures { result ≡ leb (cap * self.weight) (self.money.0 * weight) }
    {
        u64::from(cap) * self.weight <= self.money.0 * u64::from(weight)
    }
}

// One round over the m open payers: whoever closes in it is marked with its number, and the others are the list that is left. An
// open payer's mark is 0, so it is written in either case.
fn close_round(
    payers: &Payers,
    balance: Balance,
    m: usize,
    marks: &mut [u32],
    list: &mut [u8; 256],
) -> Closed
    requires { Round payers.now.weights.now payers.now.caps.now marks.old balance.money.0 balance.weight list.old m }
    ensures { Shut payers.now.weights.now payers.now.caps.now
        (standing_now marks.old balance.money.0 balance.weight balance.rounds) marks.new list.new result }
{
    let round = u32::from(balance.rounds) + 1;
    let mut closed_caps = 0;
    let mut closed_weights = 0;
    let mut kept = 0;
    for j in 0..m {
        let i = list[j];
        let at = position(i);
        let weight = payers.weights[at];
        let cap = payers.caps[at];
        let t = balance.closes(weight, cap);
        closed_caps += counted(t, cap);
        closed_weights += counted(t, weight);
        marks[at] = columns::counted(t, round);
        list[kept] = i;
        kept += one_if(!t);
    }
    Closed {
        caps: Fen(closed_caps),
        weights: closed_weights,
        left: kept,
    }
}

// A round, and the next one with the money, the weight and the open payers that are left. Whoever closes has weight, so a closed
// weight of 0 says that nobody closed. All that is lent stands behind references, and the balance is left where it was lent, so
// that the call of itself compiles to a loop. The list is an array with a number beside it, as `Lists` of `columns` has it.
fn redistribute(
    payers: &Payers,
    m: usize,
    marks: &mut [u32],
    list: &mut [u8; 256],
    balance: &mut Balance,
)
    requires { Ready payers.now.weights.now payers.now.caps.now marks.old
        balance.old.money.0 balance.old.weight balance.old.rounds list.old m }
    ensures { Ended payers.now.weights.now payers.now.caps.now
        (standing_now marks.old balance.old.money.0 balance.old.weight balance.old.rounds)
        marks.new balance.new.money.0 balance.new.weight balance.new.rounds }
{
    let shut = close_round(payers, *balance, m, marks, list);
    if shut.weights == 0 {
        return;
    }
    balance.money = balance.money - shut.caps;
    balance.weight -= shut.weights;
    balance.rounds += 1;
    redistribute(payers, shut.left, marks, list, balance);
}

// The total under weights and caps, round after round. Nobody has a mark before the first round. The columns are arrays with n
// beside them, as `Levyable` asks of every caller.
pub fn rounds(
    total: Fen,
    n: usize,
    weights: &[u32; 256],
    caps: &[u32; 256],
    marks: &mut [u32; 256],
) -> Rest
    requires { Levyable n weights.now caps.now marks.old total.0 }
    ensures { Finished total.0 n weights.now caps.now marks.new result }
{
    let payers = Payers {
        weights: &weights[..n],
        caps: &caps[..n],
    };
    let marks = &mut marks[..n];
    let mut balance = Balance {
        money: total,
        weight: columns::total_of(payers.weights),
        rounds: 0,
    };
    let mut list = [0u8; 256];
    let m = list_payers(payers.weights, &mut list);
    redistribute(&payers, m, marks, &mut list, &mut balance);
    let visits = count_visits(payers.weights, marks, u32::from(balance.rounds));
    Rest {
        money: balance.money,
        weight: balance.weight,
        rounds: balance.rounds,
        visits,
    }
}

// What nobody is left to pay.
#[tactic(auto, unfolding(crate::specs::Rounds::shortfall))]
pub fn shortfall(rest: Rest) -> Fen
    ensures { Short rest result.0 }
{
    if rest.weight == 0 { rest.money } else { Fen(0) }
}
