// What the program `tell` does (01, Checked figures): an interval file from standard input, its statement or its refusal as
// text on standard output. The engine does the work; this reads, makes the whole text in one buffer and writes it: no heap, and no `write!`
// to a handle, whose text no contract could tell.
#![tactic(auto)]

ghost use Rattle.std.specs.Prelude.{◌≡◌, true, [], ◌∷◌, ◌++◌, ◌+◌, ◌*◌, ◌≤◌, ◌<◌, length};
ghost use Rattle.records.specs.Record.{record_size, record_at, narrow};
ghost use Rattle.statement.specs.Statement.{line_start};
ghost use Rattle.files.specs.Verdict.{fault_number};
ghost use Rattle.settle.specs.Answer.{buffer_after};
ghost use Rattle.telling.specs.Text.{decimal, end_of, line_text, lines_to, head_text, statement_text, Whole, refused_text, tell_text, Placed};
ghost use Rattle.telling.specs.Text.{room, number_most, line_most, text_most, refusal_most};

use files::Refusal;
use records::{marked, record_of};
use statement::{HEAD, HEAD_WIDTHS, LINE, LINE_WIDTHS, STATED_WIDTHS, extra_of};

// One byte more than the longest interval file has, a head of 24 and 256 rows of 21: a longer one is refused and never cut.
const INTERVAL: usize = 5401;

// The longest statement of 256 rows: a head of 49 and 256 lines of 42.
const STATEMENT: usize = 10801;

// Its text: 257 records of at most sixteen fields, each of at most twenty digits and one byte more.
const TEXT: usize = 86352;

// The most digits that a number of 64 bits has.
const DIGITS: usize = 20;

// Reads the interval file, makes its whole text and writes it.
pub fn tell() {
    let mut interval = [0u8; INTERVAL];
    let mut statement = [0u8; STATEMENT];
    let mut text = [0u8; TEXT];
    let n = io::read_full(0, &mut interval);
    let size = told(&interval[..n], &mut statement, &mut text);
    print(&interval[..n], &text[..size]);
}

// Writes a text that is the interval file's: what it asks of its caller is all that can be said of the bytes written.
fn print(interval: &[u8], text: &[u8])
    requires { text.now ≡ tell_text interval.now }
{
    io::write_all(1, text);
}

// All that is to be printed, from the start of a buffer on; hands back how many bytes it is.
fn told(interval: &[u8], statement: &mut [u8], text: &mut [u8]) -> usize
    requires { (length statement.old ≡ room) × (text_most ≤ length text.old) }
    ensures placed { Placed text.old text.new 0 (tell_text interval.now) result text_most }
    ensures statement_after { statement.new ≡ buffer_after interval.now [] statement.old }
{
    let correction: [u8; 0] = [];
    match settle::settle(interval, &correction, statement) {
        Ok(size) => tell_statement(text, &statement[..size]),
        Err(refusal) => tell_refusal(text, refusal),
    }
}

// A refusal's one line: each number has at most twenty digits and one byte more.
fn tell_refusal(text: &mut [u8], refusal: Refusal) -> usize
    requires { refusal_most ≤ length text.old }
    ensures { Placed text.old text.new 0 (refused_text (fault_number refusal.fault) refusal.place) result refusal_most }
{
    records::put_bytes(text, 0, b"refused ");
    let at = tell_number(text, 8, refusal.fault.number() as u64, b' ');
    tell_number(text, at, refusal.place as u64, b'\n')
}

// A statement's text. The lines are counted by the bytes that are there: no field of them has to be right for this to be safe.
fn tell_statement(text: &mut [u8], statement: &[u8]) -> usize
    requires { Whole statement.now × (text_most ≤ length text.old) }
    ensures { Placed text.old text.new 0 (statement_text statement.now) result text_most }
{
    let extra = extra_of(marked(statement, 0, b'T'));
    let at = tell_head(text, statement);
    let body = &statement[extra..];
    tell_lines(text, at, body, (body.len() - HEAD) / LINE)
}

// Its head's line, by its mark.
fn tell_head(text: &mut [u8], statement: &[u8]) -> usize
    requires { Whole statement.now × (line_most ≤ length text.old) }
    ensures { Placed text.old text.new 0 (head_text statement.now) result line_most }
{
    if marked(statement, 0, b'T') {
        return tell_record(text, 0, statement, 0, &STATED_WIDTHS);
    }
    tell_record(text, 0, statement, 0, &HEAD_WIDTHS)
}

// The first n lines of a statement, from a position on.
fn tell_lines(text: &mut [u8], from: usize, statement: &[u8], n: usize) -> usize
    requires { (line_start n ≤ length statement.now) × (from + n * line_most ≤ length text.old) }
    ensures { Placed text.old text.new from (lines_to n statement.now) result (n * line_most) }
{
    let mut at = from;
    for i in 0..n {
        at = tell_record(text, at, statement, HEAD + i * LINE, &LINE_WIDTHS);
    }
    at
}

// The record at a position of a statement, its fields read by their table of widths, as text from a position on.
fn tell_record<const N: usize>(
    text: &mut [u8],
    from: usize,
    statement: &[u8],
    at: usize,
    widths: &[u8; N],
) -> usize
    requires widths_in_bounds { (at + record_size widths.now ≤ length statement.now) × (length widths.now ≤ 16) × (narrow widths.now ≡ true) }
    requires line_most_in_bounds { from + line_most ≤ length text.old }
    ensures { Placed text.old text.new from (line_text (record_at widths.now statement.now at)) result line_most }
{
    tell_fields(text, from, &record_of(statement, at, widths))
}

// The text of a record's fields, from a position on; hands back the position after it.
fn tell_fields(text: &mut [u8], from: usize, fields: &[u64]) -> usize
    requires { (length fields.now ≤ 16) × (from + line_most ≤ length text.old) }
    ensures { Placed text.old text.new from (line_text fields.now) result line_most }
{
    let n = fields.len();
    let mut at = from;
    for (i, field) in fields.iter().enumerate() {
        at = tell_number(text, at, *field, end_of(n, i));
    }
    at
}

// What stands after field i of n: a space, or the line's end.
fn end_of(n: usize, i: usize) -> u8
    requires { i < n }
    ensures { result ≡ end_of n i }
{
    if i == n - 1 { b'\n' } else { b' ' }
}

// A number in decimal and what stands after it, from a position on; hands back the position after both.
fn tell_number(text: &mut [u8], at: usize, x: u64, end: u8) -> usize
    requires { at + number_most ≤ length text.old }
    ensures { Placed text.old text.new at (decimal x ++ (end ∷ [])) result number_most }
{
    let mut digits = [0u8; DIGITS];
    let k = io::decimal(x, &mut digits);
    records::put_bytes(text, at, &digits[..k]);
    text[at + k] = end;
    at + k + 1
}
