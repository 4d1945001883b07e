// Payments once the rounds have ended (01, Rounds). The one sharing rule makes their fen.
ghost use Rattle.std.specs.Prelude.{◌≡◌, cond, ◌^◌, ◌<◌, eqb, ◌++◌, length, take, drop};
ghost use Rattle.columns.specs.Table.{table};
ghost use Rattle.share.specs.Share.{shares};
ghost use Rattle.levy.specs.Rounds.{open_weights, payments};
ghost use Rattle.levy.specs.Asked.{standing_of, Small, Payable, Spread, paid_from, Made};

use crate::Rest;
use crate::listing::counted;
use units::Fen;

// The column of open weights.
fn open_weights(weights: &[u32], marks: &[u32], still: &mut [u64])
    requires { (length marks.now ≡ length weights.now) × (length still.old ≡ length weights.now) }
    ensures { (still.new ≡ open_weights weights.now marks.now) × Small still.new }
{
    for (i, place) in still.iter_mut().enumerate() {
        *place = counted(marks[i] == 0, weights[i]);
    }
}

// Who closed pays its cap, the others what they were given.
fn paid_by(mark: u32, part: u64, cap: u32) -> u32
    requires { cond (eqb mark 0) part cap < 2 ^ 32 }
    ensures { result ≡ cond (eqb mark 0) part cap }
{
    if mark == 0 { part as u32 } else { cap }
}

// The caps of a column become payments: in the place of an open payer's cap comes its share of the money that was left.
fn pay_out(parts: &[u64], marks: &[u32], caps: &mut [u32])
    requires { Made caps.old marks.now parts.now }
    ensures { caps.new ≡ table (length parts.now) (paid_from caps.old marks.now parts.now) }
{
    for (i, cap) in caps.iter_mut().enumerate() {
        *cap = paid_by(marks[i], parts[i], *cap);
    }
}

// The money left, shared over the open weights, then payments; `parts` is room for the shares.
fn pay_open(
    money: Fen,
    still: &[u64],
    marks: &[u32],
    first: usize,
    parts: &mut [u64],
    caps: &mut [u32],
)
    requires { Spread money.0 still.now caps.old marks.now first parts.old }
    ensures { caps.new ≡ table (length still.now)
        (paid_from caps.old marks.now (shares money.0 still.now first)) }
{
    share::split(money.0, still, first, parts);
    pay_out(parts, marks, caps);
}

// What each of n positions pays once the rounds have ended, in the place of its cap. Fen are made here, once. The columns are
// arrays with n beside them, as `Payable` asks of every caller.
pub fn payments(
    n: usize,
    rest: Rest,
    weights: &[u32; 256],
    marks: &[u32; 256],
    first: usize,
    caps: &mut [u32; 256],
)
    requires { Payable n weights.now caps.old marks.now rest first }
    ensures { caps.new ≡ payments (take n weights.now) (take n caps.old)
        (standing_of n marks.now rest) first ++ drop n caps.old }
{
    let mut still = [0u64; 256];
    let mut parts = [0u64; 256];
    let still = &mut still[..n];
    open_weights(&weights[..n], &marks[..n], still);
    pay_open(
        rest.money,
        still,
        &marks[..n],
        first,
        &mut parts[..n],
        &mut caps[..n],
    );
}
