// The payers' stages: the rounds and what each payer pays, then what is cut from the receivers, and what is returned to those who owe.
ghost use Rattle.std.specs.Prelude.{◌≡◌, length, take};
ghost use Rattle.levy.specs.Asked.{Levyable};
ghost use Rattle.settle.specs.Within.{Turn};
ghost use Rattle.settle.specs.Work.{Leviable, LeviedOn, Levied, part_of, Shareable, shared_out, divided_to, Divisible};

use crate::pairs::{get_pair, put_pair};
use levy::{Left, Rest};
use records::{Field, get_column, put_column};
use statement::{CAP, CLOSING, COMPENSATION, CUT, PAID, PENALTY, RETURNED, WEIGHT};
use units::Fen;

// The rounds over columns, and what each position pays after the last, in the place of its cap.
fn levy_on(
    total: Fen,
    first: usize,
    n: usize,
    weights: &[u32; 256],
    caps: &mut [u32; 256],
    marks: &mut [u32; 256],
) -> Rest
    requires { Levyable n weights.now caps.old marks.old total.0 × Turn n first }
    ensures { LeviedOn n first total.0 (take n weights.now) (take n caps.old) marks.new caps.new result }
{
    let rest = levy::rounds(total, n, weights, caps, marks);
    levy::payments(n, rest, weights, marks, first, caps);
    rest
}

// The rounds, and what each payer pays after the last.
pub fn collect(total: Fen, first: usize, n: usize, sheet: &mut [u8]) -> Rest
    requires { Leviable n first total.0 sheet.old }
    ensures { Levied n first total.0 sheet.old sheet.new result }
{
    let mut weights = [0u32; 256];
    let mut caps = [0u32; 256];
    let mut marks = [0u32; 256];
    get_pair(sheet, WEIGHT, CAP, &mut weights[..n], &mut caps[..n]);
    let rest = levy_on(total, first, n, &weights, &mut caps, &mut marks);
    put_pair(sheet, PAID, CLOSING, &caps[..n], &marks[..n]);
    rest
}

// An amount, the field of the sums that it is shared over, and the field of the shares.
#[derive(Clone, Copy)]
pub struct Sharing {
    pub amount: Fen,
    pub from: Field,
    pub to: Field,
}

// One of both parts of what is left by the penalties.
#[derive(Clone, Copy)]
pub enum Part {
    Cut,
    Returned,
}

impl Part {
    // What is cut is shared over the compensations, and what is returned over the penalties.
    fn sharing(self, left: Left) -> Sharing
        ensures { result ≡ part_of left self }
    {
        match self {
            Part::Cut => Sharing {
                amount: left.cut,
                from: COMPENSATION,
                to: CUT,
            },
            Part::Returned => Sharing {
                amount: left.returned,
                from: PENALTY,
                to: RETURNED,
            },
        }
    }
}

// A sharing from one field into another, in columns that the caller lends.
fn share_in(first: usize, what: Sharing, sums: &mut [u32], parts: &mut [u32], sheet: &mut [u8])
    requires { Shareable (length sums.old) first what sheet.old × (length parts.old ≡ length sums.old) }
    ensures { sheet.new ≡ shared_out (length sums.old) first what sheet.old }
{
    get_column(sheet, what.from, sums);
    levy::apportion(what.amount, sums, first, parts);
    put_column(sheet, what.to, parts);
}

// The same, with columns of its own. Of nothing every share is 0, and that stands there already.
fn share_out(first: usize, n: usize, what: Sharing, sheet: &mut [u8])
    requires { Shareable n first what sheet.old }
    ensures { sheet.new ≡ shared_out n first what sheet.old }
{
    if what.amount == Fen(0) {
        return;
    }
    let mut sums = [0u32; 256];
    let mut parts = [0u32; 256];
    share_in(first, what, &mut sums[..n], &mut parts[..n], sheet);
}

// Cuts, and what is returned. There is one call, so that its columns share the engine's frame.
pub fn divide(left: Left, first: usize, n: usize, sheet: &mut [u8])
    requires { Divisible n first left sheet.old }
    ensures { sheet.new ≡ divided_to 2 n first left sheet.old }
{
    for part in [Part::Cut, Part::Returned] {
        share_out(first, n, part.sharing(left), sheet);
    }
}
