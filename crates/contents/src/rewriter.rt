// An interval file read and written again, row by row: no more than one row is held at a time (02, request 5).
ghost use Rattle.std.specs.Prelude.{◌≡◌, ◌≤◌, length};
ghost use Rattle.records.specs.Buffer.{put};
ghost use Rattle.files.specs.Layout.{row_count};
ghost use Rattle.files.specs.Form.{rows_from, row_start};
ghost use Rattle.files.specs.Order.{verdict, interval_fault};
ghost use Rattle.files.specs.Verdict.{Accepted, told};
ghost use Rattle.contents.specs.Content.{contents_of, contents_bytes, rows_again, rewritten_of, rewritten_buffer};

use crate::writer::{put_head, put_row};
use files::{Fault, ROW, Refusal, form_of, head_at, interval_verdict, row_at, start_of};

// The n rows of a file, each at its place in another buffer.
fn rows_again(s: &[u8], start: usize, n: usize, out: &mut [u8])
    requires start_value { start ≡ rows_from s.now }
    requires n_bound { (n ≤ 256) × (row_start s.now n ≤ length s.now) × (row_start s.now n ≤ length out.old) }
    ensures { out.new ≡ rows_again s.now n out.old }
{
    for i in 0..n {
        put_row(out, start, i, row_at(s, start + i * ROW));
    }
}

// An accepted file of n rows, from the front of a buffer with room for it.
fn file_again(s: &[u8], n: usize, out: &mut [u8])
    requires { (verdict (row_count s.now) (interval_fault s.now) ≡ Accepted n) × (row_start s.now n ≤ length out.old) }
    ensures { out.new ≡ put out.old 0 (contents_bytes (contents_of s.now)) }
{
    let form = form_of(s);
    rows_again(s, start_of(form.stated), n, out);
    put_head(out, form, head_at(s));
}

// Reads an interval file and writes what it says to the front of a lent buffer, which a refusal leaves as it is. What an accepted file says
// is in its ranges, so of the writer's refusals only that of the room is left.
pub fn rewrite(s: &[u8], out: &mut [u8]) -> Result<usize, Refusal>
    ensures value { told result ≡ rewritten_of s.now (length out.old) }
    ensures out_after { out.new ≡ rewritten_buffer s.now out.old }
{
    // A match in the place of `?`, so that a refusal's place stands in the text: an edit is planted there (must-fail/refused-without-place).
    let n = match interval_verdict(s) {
        Ok(n) => n,
        Err(refusal) => return Err(refusal),
    };
    let form = form_of(s);
    let needed = start_of(form.stated) + n * ROW;
    if out.len() < needed {
        return Err(Refusal::from(Fault::ShortBuffer));
    }
    file_again(s, n, out);
    Ok(needed)
}
