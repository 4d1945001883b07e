// Which bytes count for a row, and the rows that count (01, The files): the correction's where it names the row.
ghost use Rattle.std.specs.Prelude.{◌≡◌, ◌&&◌, cond, ◌+◌, ◌*◌, ◌≤◌, ◌<◌, ltb, eqb, length};
ghost use Rattle.columns.specs.Table.{table};
ghost use Rattle.records.specs.Buffer.{put};
ghost use Rattle.files.specs.Layout.{row_size, correction_head_size, correction_count};
ghost use Rattle.files.specs.Order.{verdict_of};
ghost use Rattle.files.specs.Form.{rows_from};
ghost use Rattle.files.specs.Walk.{id_of, Rows};
ghost use Rattle.files.specs.Verdict.{Accepted};
ghost use Rattle.files.specs.Counting.{part, named, counting_bytes, source_of, counting_row, Shows};

use crate::checks::{check, correction_count};
use crate::forms::rows_from;
use crate::read::row_at;
use crate::runs::Run;
use crate::{CORRECTION_HEAD, ROW, Row};

// How many rows a correction has that is sound or absent.
fn named_rows(k: &[u8]) -> usize
    requires { Rows k.now correction_head_size row_size (correction_count k.now) }
    ensures { result ≡ correction_count k.now }
{
    if k.len() < CORRECTION_HEAD {
        return 0;
    }
    correction_count(k)
}

// The bytes of a row.
pub fn part_at(s: &[u8], at: usize, size: usize) -> &[u8]
    requires { at + size ≤ length s.now }
    ensures { result.now ≡ part size s.now at }
{
    &s[at..at + size]
}

// The bytes of an id's row in a pair of files that is accepted; none where nobody names it.
fn named_part<'a>(interval: &'a [u8], correction: &'a [u8], n: usize, id: u16) -> &'a [u8]
    requires { verdict_of interval.now correction.now ≡ Accepted n }
    ensures { result.now ≡ named interval.now correction.now id }
{
    let m = named_rows(correction);
    let theirs = Run {
        bytes: correction,
        start: CORRECTION_HEAD,
        size: ROW,
        count: m,
    };
    let j = theirs.seek(0, id);
    if theirs.has(j, id) {
        return theirs.part(j);
    }
    let start = rows_from(interval);
    let own = Run {
        bytes: interval,
        start,
        size: ROW,
        count: n,
    };
    let i = own.seek(0, id);
    if own.has(i, id) {
        return own.part(i);
    }
    &interval[0..0]
}

// The public reader: the bytes that count for an id; none where the files are refused or nobody names it.
pub fn counting<'a>(interval: &'a [u8], correction: &'a [u8], id: u16) -> &'a [u8]
    ensures { result.now ≡ counting_bytes interval.now correction.now id }
{
    match check(interval, correction) {
        Err(_) => &interval[0..0],
        Ok(n) => named_part(interval, correction, n, id),
    }
}

// 1 more than a row's number where it has this id, else 0.
fn source_at(theirs: &Run<'_>, j: usize, id: u16) -> u16
    requires { theirs.now.count ≤ 256 }
    ensures { result ≡ cond (ltb j theirs.now.count && eqb (id_of theirs.now.bytes.now theirs.now.start theirs.now.size j) id) (j + 1) 0 }
{
    if !theirs.has(j, id) {
        return 0;
    }
    (j + 1) as u16
}

// For each of the n rows of an accepted pair, where the row that counts stands: both files side by side. A number for each, and no `Option`,
// as `source_of` has it.
pub fn sources(interval: &[u8], correction: &[u8], n: usize, out: &mut [u16; 256])
    requires correction_value { verdict_of interval.now correction.now ≡ Accepted n }
    requires out_len { length out.old ≡ 256 }
    ensures { out.new ≡ put out.old 0 (table n (source_of interval.now correction.now)) }
{
    let m = named_rows(correction);
    let theirs = Run {
        bytes: correction,
        start: CORRECTION_HEAD,
        size: ROW,
        count: m,
    };
    let start = rows_from(interval);
    let own = Run {
        bytes: interval,
        start,
        size: ROW,
        count: n,
    };
    let mut j = 0;
    for i in 0..n {
        let id = own.id(i);
        j = theirs.seek(j, id);
        out[i] = source_at(&theirs, j, id);
    }
}

// The bytes that count for row i of an accepted pair of n rows that begin at byte `start`, by its source.
fn counting_part<'a>(
    interval: &'a [u8],
    correction: &'a [u8],
    start: usize,
    n: usize,
    i: usize,
    source: u16,
) -> &'a [u8]
    requires correction_value { (verdict_of interval.now correction.now ≡ Accepted n) × (start ≡ rows_from interval.now) }
    requires i_lt_n { (i < n) × (source ≡ source_of interval.now correction.now i) }
    ensures { Shows result.now (counting_row interval.now correction.now i) }
{
    if source == 0 {
        return part_at(interval, start + i * ROW, ROW);
    }
    let j = usize::from(source) - 1;
    part_at(correction, CORRECTION_HEAD + j * ROW, ROW)
}

// The row that counts, read from one slice: of two rows already read the compiler chooses each byte by itself.
pub fn counting_row<'a>(
    interval: &'a [u8],
    correction: &'a [u8],
    start: usize,
    n: usize,
    i: usize,
    source: u16,
) -> Row
    requires correction_value { (verdict_of interval.now correction.now ≡ Accepted n) × (start ≡ rows_from interval.now) }
    requires i_lt_n { (i < n) × (source ≡ source_of interval.now correction.now i) }
    ensures { result ≡ counting_row interval.now correction.now i }
{
    row_at(counting_part(interval, correction, start, n, i, source), 0)
}
