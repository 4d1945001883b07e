// The refusals 1 to 10 and 14 in their order (01, Numbers of refusal; 02, request 6).
ghost use Rattle.std.specs.Prelude.{◌≡◌, ◌&&◌, ◌+◌, ◌*◌, ◌≤◌, ◌<◌, ltb, length};
ghost use Rattle.columns.specs.Test.{first_of};
ghost use Rattle.columns.specs.Checks.{first_refusal, row_by_row};
ghost use Rattle.files.specs.Layout.{head_size, row_size, correction_head_size, row_at, row_count, correction_count};
ghost use Rattle.files.specs.Form.{rows_from};
ghost use Rattle.files.specs.Verdict.{fault_in, told};
ghost use Rattle.files.specs.Walk.{Own, Theirs};
ghost use Rattle.files.specs.Order.{front_checks, head_checks, row_checks_at, rows_order, interval_fault, correction_starts, same_time, alike, name_checks, beside_order, present_order, verdict, verdict_of};

use crate::forms::{form_of, known, rows_from, start_of};
use crate::range::{correction_head_ok, head_ok, row_checks, terms_ok};
use crate::read::{correction_head_at, head_at, id_at, row_at};
use crate::runs::Run;
use crate::{CORRECTION_HEAD, Fault, HEAD, ROW, Refusal, Row, Terms};
use records::marked;

// How many rows an interval file announces.
pub fn row_count(s: &[u8]) -> usize
    requires { head_size ≤ length s.now }
    ensures { (result ≡ row_count s.now) × (result < 65536) }
{
    usize::from(head_at(s).rows)
}

// How many rows a correction announces.
pub fn correction_count(k: &[u8]) -> usize
    requires { correction_head_size ≤ length k.now }
    ensures { (result ≡ correction_count k.now) × (result < 65536) }
{
    usize::from(correction_head_at(k).rows)
}

// What a head is refused for by itself, before 4: 1, 2, 1 by the head of its own mark, 3, 14.
pub fn front_fault(s: &[u8]) -> Result<(), Fault>
    ensures { fault_in result ≡ first_of (front_checks s.now) }
{
    if s.len() < HEAD {
        return Err(Fault::ShortHead);
    }
    if !known(s) {
        return Err(Fault::UnknownMark);
    }
    if s.len() < rows_from(s) {
        return Err(Fault::ShortHead);
    }
    if !head_ok(head_at(s)) {
        return Err(Fault::HeadRange);
    }
    if !terms_ok(form_of(s).terms) {
        return Err(Fault::TermsRange);
    }
    Ok(())
}

// The same, then 4.
fn head_fault(s: &[u8]) -> Result<(), Fault>
    ensures { fault_in result ≡ first_of (head_checks s.now) }
{
    front_fault(s)?;
    if s.len() != rows_from(s) + row_count(s) * ROW {
        return Err(Fault::WrongLength);
    }
    Ok(())
}

// 5, 6, 7 of one row, after a row of id `last`.
fn row_fault(terms: Terms, s: &[u8], at: usize, last: u16) -> Result<(), Fault>
    requires { at + row_size ≤ length s.now }
    ensures { fault_in result ≡ first_of (row_checks_at terms s.now at last) }
{
    if !marked(s, at, b'R') {
        return Err(Fault::RowMark);
    }
    row_checks(terms, row_at(s, at), last)
}

// 5, 6, 7 row by row, of an interval's rows or of a correction's: so many of `size` bytes each.
fn rows_verdict(
    terms: Terms,
    s: &[u8],
    start: usize,
    size: usize,
    count: usize,
) -> Result<usize, Refusal>
    requires { (start + count * size ≤ length s.now) × (row_size ≤ size) }
    ensures { told result ≡ verdict count (first_refusal (rows_order terms s.now start size count)) }
{
    let mut last: u16 = 0;
    for i in 0..count {
        let at = start + i * size;
        if let Err(fault) = row_fault(terms, s, at, last) {
            return Err(Refusal {
                fault,
                place: i + 1,
            });
        }
        last = id_at(s, at);
    }
    Ok(count)
}

// 1 to 7 and 14: an interval file by itself.
pub fn interval_verdict(s: &[u8]) -> Result<usize, Refusal>
    ensures { told result ≡ verdict (row_count s.now) (interval_fault s.now) }
{
    head_fault(s)?;
    let form = form_of(s);
    rows_verdict(form.terms, s, start_of(form.stated), ROW, row_count(s))
}

// A correction's length, mark and ranges.
fn correction_starts(k: &[u8]) -> bool
    ensures { result ≡ correction_starts k.now }
{
    if k.len() < CORRECTION_HEAD {
        return false;
    }
    marked(k, 0, b'K')
        & correction_head_ok(correction_head_at(k))
        & (k.len() == CORRECTION_HEAD + correction_count(k) * ROW)
}

fn same_time(interval: &[u8], correction: &[u8]) -> bool
    requires head_size_in_bounds { head_size ≤ length interval.now }
    requires correction_head_size_in_bounds { correction_head_size ≤ length correction.now }
    ensures { result ≡ same_time interval.now correction.now }
{
    let h = head_at(interval);
    let k = correction_head_at(correction);
    (k.day == h.day) & (k.quarter == h.quarter)
}

// Two rows that differ at most in metered and status.
fn alike(a: Row, b: Row) -> bool
    ensures { result ≡ alike a b }
{
    (a.id == b.id)
        & (a.kind == b.kind)
        & (a.capacity == b.capacity)
        & (a.offered == b.offered)
        & (a.minimum == b.minimum)
        & (a.bid1 == b.bid1)
        & (a.bid2 == b.bid2)
}

// Row i is there and like this row.
fn matches_row(own: &Run<'_>, i: usize, r: Row) -> bool
    ensures { result ≡ (ltb i own.now.count && alike (row_at own.now.bytes.now (own.now.start + i * own.now.size)) r) }
{
    i < own.count && alike(own.row(i), r)
}

// 10: both files side by side, since ids rise in both.
fn names_verdict(
    interval: &[u8],
    correction: &[u8],
    start: usize,
    n: usize,
    m: usize,
) -> Result<usize, Refusal>
    requires own { Own interval.now n × (start ≡ rows_from interval.now) }
    requires theirs { Theirs correction.now m }
    ensures { told result ≡ verdict n (first_refusal (row_by_row m (name_checks interval.now correction.now))) }
{
    let own = Run {
        bytes: interval,
        start,
        size: ROW,
        count: n,
    };
    let theirs = Run {
        bytes: correction,
        start: CORRECTION_HEAD,
        size: ROW,
        count: m,
    };
    let mut i = 0;
    for j in 0..m {
        let r = theirs.row(j);
        i = own.seek(i, r.id);
        if !matches_row(&own, i, r) {
            return Err(Refusal {
                fault: Fault::NoSuchRow,
                place: j + 1,
            });
        }
    }
    Ok(n)
}

// 9, then 10.
fn beside_verdict(
    interval: &[u8],
    correction: &[u8],
    start: usize,
    n: usize,
    m: usize,
) -> Result<usize, Refusal>
    requires own { Own interval.now n × (start ≡ rows_from interval.now) }
    requires theirs { Theirs correction.now m }
    ensures { told result ≡ verdict n (first_refusal (beside_order interval.now correction.now)) }
{
    if !same_time(interval, correction) {
        return Err(Refusal::from(Fault::OtherQuarter));
    }
    names_verdict(interval, correction, start, n, m)
}

// 8, then 9 and 10: a correction that is present. Whatever is wrong with a row by itself is 8.
fn present_verdict(interval: &[u8], correction: &[u8], n: usize) -> Result<usize, Refusal>
    requires { Own interval.now n }
    ensures { told result ≡ verdict n (first_refusal (present_order interval.now correction.now)) }
{
    if !correction_starts(correction) {
        return Err(Refusal::from(Fault::BadCorrection));
    }
    let m = correction_count(correction);
    let form = form_of(interval);
    match rows_verdict(form.terms, correction, CORRECTION_HEAD, ROW, m) {
        Err(Refusal { place, .. }) => Err(Refusal {
            fault: Fault::BadCorrection,
            place,
        }),
        Ok(_) => {
            let start = start_of(form.stated);
            beside_verdict(interval, correction, start, n, m)
        }
    }
}

// 1 to 10 and 14: the pair of files. A correction of length 0 means that there is none.
pub fn check(interval: &[u8], correction: &[u8]) -> Result<usize, Refusal>
    ensures { told result ≡ verdict_of interval.now correction.now }
{
    let n = interval_verdict(interval)?;
    if correction.is_empty() {
        return Ok(n);
    }
    present_verdict(interval, correction, n)
}
