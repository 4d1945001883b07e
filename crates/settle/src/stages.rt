// A settlement as a flat run of stages over the lent buffer, which is the work sheet: a line for each row, each stage one field of it.
// The head is handed back: what stands in front of the lines is for the caller to put there.
ghost use Rattle.std.specs.Prelude.{◌≡◌, ◌≤◌, length};
ghost use Rattle.files.specs.Form.{form_of};
ghost use Rattle.files.specs.Order.{verdict_of};
ghost use Rattle.files.specs.Verdict.{Accepted};
ghost use Rattle.statement.specs.Statement.{line_start};
ghost use Rattle.settle.specs.Settlement.{first_turn};
ghost use Rattle.settle.specs.Answer.{top_of, line_in};
ghost use Rattle.settle.specs.Work.{lined};

use crate::market::{account, trade};
use crate::payers::{collect, divide};
use crate::rows::read;
use files::Form;
use statement::StatementHead;

// The position whose turn comes first among equal remainders (02, request 2): the quarter modulo the n rows. Without rows nothing is divided.
fn first_turn(quarter: u8, n: usize) -> usize
    ensures { result ≡ first_turn quarter n }
{
    if n == 0 {
        return 0;
    }
    usize::from(quarter) % n
}

// The lines of an accepted pair of n rows, into a buffer with room for them behind a head PS, and what the head has to say.
pub fn write_lines<'a>(
    interval: &'a [u8],
    correction: &'a [u8],
    form: Form,
    n: usize,
    sheet: &mut [u8],
) -> StatementHead
    requires correction_value { (verdict_of interval.now correction.now ≡ Accepted n) × (form ≡ form_of interval.now) }
    requires n_in_bounds { line_start n ≤ length sheet.old }
    ensures value { result ≡ top_of interval.now correction.now }
    ensures sheet_after { sheet.new ≡ lined sheet.old n (line_in interval.now correction.now) }
{
    let averaged = read(interval, correction, form, n, sheet);
    let head = files::head_at(interval);
    let need = head.need;
    let first = first_turn(head.quarter, n);
    let market = trade(need, first, n, sheet);
    let price1 = market.price1;
    let price2 = market.price2;
    let uncovered = market.uncovered;
    let accounts = account(n, price1, price2, sheet);
    let total = accounts.total;
    let penalties = accounts.penalties;
    let rest = collect(total, first, n, sheet);
    let shortfall = levy::shortfall(rest);
    let left = levy::cover(penalties, shortfall);
    divide(left, first, n, sheet);
    let rows = n as u16;
    StatementHead {
        day: head.day,
        quarter: head.quarter,
        price1,
        price2,
        total,
        shortfall,
        rounds: rest.rounds,
        uncovered,
        rows,
        visits: rest.visits,
        averaged,
    }
}
