// The one sharing rule (01, Sharing a whole amount): it serves calls, payments and cuts. No word of energy or money.
#![tactic(auto)]

ghost use Rattle.std.specs.Prelude.{◌+◌, ◌*◌, ◌≤◌, ◌<◌, ◌^◌, ◌≡◌, length};
ghost use Rattle.columns.specs.Table.{table};
ghost use Rattle.share.specs.Share.{turn, shares};
ghost use Rattle.share.specs.Split.{Splittable};
ghost use Rattle.share.specs.Steps.{Divided, Carries, Digits, Divisible, Listed, Quotable, Quoted, Serving, Served, Turning, Handable, Liftable, reach, goes_before, start_in, marked, raised, lifted};

use columns::position;
use std::cmp::Ordering;

// A product divided by the sum of the weights: the quota, and the remainder.
#[derive(Clone, Copy)]
struct Division {
    quota: u64,
    rest: u64,
}

impl Division {
    // One step of a long division: `more` comes to the remainder, and a remainder that reaches the sum becomes one of the
    // quota. The test is on what is lacking, since rest + more may pass 64 bits.
    fn carry(self, more: u64, sum: u64) -> Division
        requires { Carries self.quota self.rest more sum }
        ensures { Divided (sum * self.quota + self.rest + more) sum result }
    {
        let lacking = sum - more;
        if self.rest < lacking {
            Division {
                quota: self.quota,
                rest: self.rest + more,
            }
        } else {
            Division {
                quota: self.quota + 1,
                rest: self.rest - lacking,
            }
        }
    }

    // One binary digit more of the amount: twice what was divided so far, and the weight if the digit is 1.
    fn next_digit(self, digit: u64, weight: u64, sum: u64) -> Division
        requires { Digits self.quota self.rest digit weight sum }
        ensures { Divided (2 * (sum * self.quota + self.rest) + digit * weight) sum result }
    {
        let doubled = Division {
            quota: self.quota * 2,
            rest: self.rest,
        };
        let twice = doubled.carry(self.rest, sum);
        if digit == 0 {
            twice
        } else {
            twice.carry(weight, sum)
        }
    }
}

// amount * weight divided by the sum, digit by digit of the amount, with no product made.
fn divide_long(amount: u64, weight: u64, sum: u64) -> Division
    requires { Divisible weight sum }
    ensures { Divided (amount * weight) sum result }
{
    let mut d = Division { quota: 0, rest: 0 };
    for k in (0..u64::BITS).rev() {
        d = d.next_digit((amount >> k) % 2, weight, sum);
    }
    d
}

// amount * weight divided by the sum: the long way only where the product does not fit 64 bits.
fn divide(amount: u64, weight: u64, sum: u64) -> Division
    requires { Divisible weight sum }
    ensures { Divided (amount * weight) sum result }
{
    match amount.checked_mul(weight) {
        Some(product) => Division {
            quota: product / sum,
            rest: product % sum,
        },
        None => divide_long(amount, weight, sum),
    }
}

// The positions of weight, in order: most have none, and a division takes longer than all the rest.
fn list_weights<'a>(weights: &[u64], room: &'a mut [u8; 256]) -> &'a [u8]
    requires { (length weights.now ≤ 256) × (length room.old ≡ 256) }
    ensures { Listed weights.now result.now (length result.now) }
{
    let m = columns::list_where(weights, |weight| 0 < *weight, room);
    &room[..m]
}

// Quotas of the positions in the list, their remainders closely packed, and as the result what the quotas leave of the amount.
fn quotas_of(
    amount: u64,
    weights: &[u64],
    sum: u64,
    quotas: &mut [u64],
    rests: &mut [u64],
    list: &[u8],
) -> u64
    requires { Quotable weights.now quotas.old rests.old list.now sum }
    ensures { Quoted amount weights.now list.now (length rests.old)
        quotas.new rests.new result }
{
    let mut left = amount;
    for (j, place) in list.iter().enumerate() {
        let i = position(*place);
        let d = divide(amount, weights[i], sum);
        quotas[i] = d.quota;
        rests[j] = d.rest;
        left -= d.quota;
    }
    left
}

// How many remainders reach k. Tests are added up, so that no branch hangs on a remainder.
fn reach(rests: &[u64], k: u64) -> u64
    requires { length rests.now ≤ 256 }
    ensures { result ≡ reach rests.now k }
{
    rests.iter().map(|rest| u64::from(k <= *rest)).sum()
}

// Every remainder above `low` is served, and of those equal to it the first `ties` by their turns.
#[derive(Clone, Copy)]
struct Line {
    low: u64,
    ties: u64,
}

// Where the service of the `left` ends, found by halving between remainders that too many reach and too few.
fn line_of(rests: &[u64], sum: u64, left: u64) -> Line
    requires { Serving rests.now sum left }
    ensures { Served rests.now left result.low result.ties }
{
    let mut lo: u64 = 0;
    let mut hi = sum;
    let mut few: u64 = 0;
    while 1 < hi - lo {
        let mid = lo.midpoint(hi);
        let count = reach(rests, mid);
        match count.cmp(&left) {
            Ordering::Less => {
                hi = mid;
                few = count;
            }
            Ordering::Equal => {
                return Line {
                    low: mid - 1,
                    ties: 0,
                };
            }
            Ordering::Greater => lo = mid,
        }
    }
    Line {
        low: lo,
        ties: left - few,
    }
}

// The place in the list where turns begin: past the positions before `first`.
fn start_of(list: &[u8], first: usize) -> usize
    ensures { (result ≡ start_in list.now (length list.now) first) × (result ≤ length list.now) }
{
    list.iter()
        .filter(|place| position(**place) < first)
        .count()
}

// Of n places, the one whose turn is t.
fn at_turn(n: usize, first: usize, t: usize) -> usize
    requires { (n ≤ 256) × (first ≤ n) × (t < n) }
    ensures { (result < n) × (turn n first result ≡ t) }
{
    let i = first + t;
    if n <= i { i - n } else { i }
}

// Whether remainder r at turn t is served before remainder s at turn u.
fn goes_before(r: u64, t: u64, s: u64, u: u64) -> bool
    ensures { result ≡ goes_before r t s u }
{
    (s, t) < (r, u)
}

// 1 in the place of every remainder above the line, and of the first so many at it, 0 in the place of the others: turn by turn, `met`
// counting those at it.
fn mark_in_turn(rests: &mut [u64], line: Line, start: usize, left: u64)
    requires { Turning rests.old start left line.low line.ties }
    ensures { rests.new ≡ table (length rests.old) (marked rests.old start left) }
{
    let n = rests.len();
    let mut met: u64 = 0;
    for t in 0..n {
        let j = at_turn(n, start, t);
        let rest = rests[j];
        rests[j] = u64::from(goes_before(rest, met, line.low, line.ties));
        met += u64::from(rest == line.low);
    }
}

// One more to every listed position whose remainder is above `low`. The contract is about all positions; no line here reads their weights.
fn serve_above(weights: &[u64], rests: &[u64], low: u64, out: &mut [u64], list: &[u8])
    requires { Liftable weights.now out.old rests.now list.now low }
    ensures { out.new ≡ table (length weights.now)
        (lifted weights.now out.old rests.now low) }
{
    for (rest, place) in rests.iter().zip(list) {
        let i = position(*place);
        out[i] += u64::from(low < *rest);
    }
}

// The `left` ones go out, one each, to the first `left` in the order of service. Turns matter only if the line passes through equal ones.
fn hand_out(
    weights: &[u64],
    sum: u64,
    first: usize,
    left: u64,
    rests: &mut [u64],
    out: &mut [u64],
    list: &[u8],
)
    requires { Handable weights.now out.old rests.old list.now sum first left }
    ensures { out.new ≡ table (length weights.now)
        (raised weights.now out.old rests.old list.now first left) }
{
    let line = line_of(rests, sum, left);
    if line.ties == 0 {
        serve_above(weights, rests, line.low, out, list);
        return;
    }
    let start = start_of(list, first);
    mark_in_turn(rests, line, start, left);
    serve_above(weights, rests, 0, out, list);
}

// The shares where a weight is above 0, into a column of zeros; `rests` is room for the remainders of the listed positions.
fn share_out(
    amount: u64,
    weights: &[u64],
    sum: u64,
    first: usize,
    out: &mut [u64],
    rests: &mut [u64],
    list: &[u8],
)
    requires { (0 < length weights.now → first < length weights.now)
        × Quotable weights.now out.old rests.old list.now sum }
    ensures { out.new ≡ shares amount weights.now first }
{
    let left = quotas_of(amount, weights, sum, out, rests, list);
    if left == 0 {
        return;
    }
    hand_out(weights, sum, first, left, rests, out, list);
}

// The amount divided over the column of weights, into `out`.
pub fn split(amount: u64, weights: &[u64], first: usize, out: &mut [u64])
    requires { Splittable weights.now out.old first }
    ensures { out.new ≡ shares amount weights.now first }
{
    // Who has no weight gets 0, and so does everybody if there is nothing to share.
    out.fill(0);
    if amount == 0 {
        return;
    }
    let sum: u64 = weights.iter().sum();
    if sum == 0 {
        return;
    }
    let mut room = [0u8; 256];
    let list = list_weights(weights, &mut room);
    let mut rests = [0u64; 256];
    share_out(
        amount,
        weights,
        sum,
        first,
        out,
        &mut rests[..list.len()],
        list,
    );
}
