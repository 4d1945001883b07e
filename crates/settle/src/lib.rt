// The engine: one quarter hour settled from an interval file and its correction (01, What the engine settles).
#![tactic(auto)]

mod market;
mod pairs;
mod payers;
mod rows;
mod stages;

ghost use Rattle.std.specs.Prelude.{◌≡◌, ◌+◌, ◌≤◌, length};
ghost use Rattle.records.specs.Buffer.{put};
ghost use Rattle.files.specs.Form.{form_of};
ghost use Rattle.files.specs.Order.{verdict_of};
ghost use Rattle.files.specs.Verdict.{Accepted, told};
ghost use Rattle.statement.specs.Statement.{line_start, extra_of};
ghost use Rattle.settle.specs.Answer.{top_of, line_in, statement_of, answer_of, buffer_after};
ghost use Rattle.settle.specs.Work.{lined_behind};

use files::{Fault, Form, Refusal, form_of};
use stages::write_lines;
use statement::{HEAD, LINE, StatementHead, extra_of, put_head};

// Settles any interval file with any correction (an empty one is none) into the lent buffer, and answers how many bytes it wrote; or
// refuses, with the first fault and its place, and changes nothing.
pub fn settle<'a>(
    interval: &'a [u8],
    correction: &'a [u8],
    statement: &mut [u8],
) -> Result<usize, Refusal>
    ensures value { told result ≡ answer_of interval.now correction.now (length statement.old) }
    ensures statement_after { statement.new ≡ buffer_after interval.now correction.now statement.old }
{
    let n = files::check(interval, correction)?;
    settle_rows(interval, correction, n, statement)
}

// The rest of it for an accepted pair of n rows: is there room, and if so the statement.
fn settle_rows<'a>(
    interval: &'a [u8],
    correction: &'a [u8],
    n: usize,
    statement: &mut [u8],
) -> Result<usize, Refusal>
    requires { verdict_of interval.now correction.now ≡ Accepted n }
    ensures value { told result ≡ answer_of interval.now correction.now (length statement.old) }
    ensures statement_after { statement.new ≡ buffer_after interval.now correction.now statement.old }
{
    let form = form_of(interval);
    let size = size_of(form.stated, n);
    if statement.len() < size {
        return Err(Refusal::from(Fault::ShortBuffer));
    }
    write_statement(interval, correction, form, n, statement);
    Ok(size)
}

// How long a statement of n rows is, by whether it has terms.
fn size_of(stated: bool, n: usize) -> usize
    requires { n ≤ 256 }
    ensures { result ≡ extra_of stated + line_start n }
{
    extra_of(stated) + HEAD + n * LINE
}

// The statement of an accepted pair of n rows, into a buffer with room for it: lines first, then the head that its form asks for.
fn write_statement<'a>(
    interval: &'a [u8],
    correction: &'a [u8],
    form: Form,
    n: usize,
    statement: &mut [u8],
)
    requires correction_value { (verdict_of interval.now correction.now ≡ Accepted n) × (form ≡ form_of interval.now) }
    requires n_in_bounds { extra_of form.stated + line_start n ≤ length statement.old }
    ensures { statement.new ≡ put statement.old 0 (statement_of interval.now correction.now) }
{
    let top = write_behind(interval, correction, form, n, statement);
    put_head(statement, form, top);
}

// The lines of a statement, behind the place of its terms if it has them.
fn write_behind<'a>(
    interval: &'a [u8],
    correction: &'a [u8],
    form: Form,
    n: usize,
    statement: &mut [u8],
) -> StatementHead
    requires correction_value { (verdict_of interval.now correction.now ≡ Accepted n) × (form ≡ form_of interval.now) }
    requires n_in_bounds { extra_of form.stated + line_start n ≤ length statement.old }
    ensures value { result ≡ top_of interval.now correction.now }
    ensures statement_after { statement.new ≡ lined_behind (extra_of form.stated) statement.old n (line_in interval.now correction.now) }
{
    let extra = extra_of(form.stated);
    write_lines(interval, correction, form, n, &mut statement[extra..])
}
