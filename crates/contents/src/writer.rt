// Contents written as an interval file, once the refusals 3, 14, 6, 7 and 11 are ruled out.
ghost use Rattle.std.specs.Prelude.{◌≡◌, ◌+◌, ◌*◌, ◌<◌, ◌≤◌, length};
ghost use Rattle.columns.specs.Checks.{first_refusal};
ghost use Rattle.records.specs.Buffer.{put};
ghost use Rattle.records.specs.Record.{record_bytes};
ghost use Rattle.files.specs.Layout.{row_size, head_fields, letter_r, row_widths, row_fields};
ghost use Rattle.files.specs.Form.{start_of, head_bytes};
ghost use Rattle.files.specs.Order.{verdict};
ghost use Rattle.files.specs.Verdict.{told};
ghost use Rattle.contents.specs.Content.{contents_bytes, with_rows, row_place, held_order, written_of, written_buffer};

use crate::Contents;
use files::{
    Fault, Form, HEAD, HEAD_WIDTHS, Head, ROW, ROW_WIDTHS, Refusal, Row, TERMS_WIDTHS, head_ok,
    row_checks, ruling, start_of, terms_fields, terms_ok,
};
use records::{put_fields, put_record};

// A head and a row as their fields, in the order of their tables.
fn head_fields(h: Head) -> [u64; 5]
    ensures { result ≡ head_fields h }
{
    [
        u64::from(h.day),
        u64::from(h.quarter),
        u64::from(h.tariff.0),
        u64::from(h.need.0),
        u64::from(h.rows),
    ]
}

fn row_fields(r: Row) -> [u64; 9]
    ensures { result ≡ row_fields r }
{
    [
        u64::from(r.id),
        u64::from(r.kind),
        u64::from(r.capacity),
        u64::from(r.metered.0),
        u64::from(r.status),
        u64::from(r.offered),
        u64::from(r.minimum.0),
        r.bid1.0,
        r.bid2.0,
    ]
}

// 6 and 7, row by row.
fn rows_verdict(contents: Contents) -> Result<usize, Refusal>
    requires { contents.head.rows ≤ 256 }
    ensures { told result ≡ verdict contents.head.rows (first_refusal (held_order contents)) }
{
    let h = contents.head;
    let form = contents.form;
    let terms = ruling(form);
    let count = h.rows as usize;
    let mut last: u16 = 0;
    for i in 0..count {
        let r = contents.rows[i];
        if let Err(fault) = row_checks(terms, r, last) {
            return Err(Refusal {
                fault,
                place: i + 1,
            });
        }
        last = r.id;
    }
    Ok(count)
}

// What the writer will answer: 3, 14, then 6 and 7, then 11 by the room that there is; else how many bytes there will be.
fn answer_for(contents: Contents, room: usize) -> Result<usize, Refusal>
    ensures { told result ≡ written_of contents room }
{
    let h = contents.head;
    let form = contents.form;
    if !head_ok(h) {
        return Err(Refusal::from(Fault::HeadRange));
    }
    if !terms_ok(ruling(form)) {
        return Err(Refusal::from(Fault::TermsRange));
    }
    let count = rows_verdict(contents)?;
    let needed = start_of(form.stated) + count * ROW;
    if room < needed {
        return Err(Refusal::from(Fault::ShortBuffer));
    }
    Ok(needed)
}

// A row at the place of row i of those that begin at byte `start`.
pub fn put_row(out: &mut [u8], start: usize, i: usize, r: Row)
    requires { (i < 256) × (start + (i + 1) * row_size ≤ length out.old) }
    ensures { out.new ≡ put out.old (start + i * row_size) (record_bytes letter_r row_widths (row_fields r)) }
{
    let fields = row_fields(r);
    put_record(out, start + i * ROW, b'R', &ROW_WIDTHS, &fields);
}

// A head at its place, in front, with the terms behind it if it states them.
pub fn put_head(out: &mut [u8], form: Form, h: Head)
    requires { start_of form.stated ≤ length out.old }
    ensures { out.new ≡ put out.old 0 (head_bytes form h) }
{
    let fields = head_fields(h);
    if form.stated {
        let terms = terms_fields(form.terms);
        put_record(out, 0, b'G', &HEAD_WIDTHS, &fields);
        put_fields(out, HEAD, &TERMS_WIDTHS, &terms);
        return;
    }
    put_record(out, 0, b'H', &HEAD_WIDTHS, &fields);
}

// The rows of contents, each at its place.
fn put_rows(contents: Contents, out: &mut [u8])
    requires { (contents.head.rows ≤ 256) × (row_place contents contents.head.rows ≤ length out.old) }
    ensures { out.new ≡ with_rows contents out.old }
{
    let form = contents.form;
    let start = start_of(form.stated);
    let count = contents.head.rows as usize;
    for i in 0..count {
        put_row(out, start, i, contents.rows[i]);
    }
}

// The file that contents make, from the front of a buffer with room for it.
fn put_contents(contents: Contents, out: &mut [u8])
    requires { (contents.head.rows ≤ 256) × (row_place contents contents.head.rows ≤ length out.old) }
    ensures { out.new ≡ put out.old 0 (contents_bytes contents) }
{
    let form = contents.form;
    let h = contents.head;
    put_rows(contents, out);
    put_head(out, form, h);
}

// Writes contents as an interval file to the front of a lent buffer, which a refusal leaves as it is.
pub fn write(contents: Contents, out: &mut [u8]) -> Result<usize, Refusal>
    ensures value { told result ≡ written_of contents (length out.old) }
    ensures out_after { out.new ≡ written_buffer contents out.old }
{
    let size = answer_for(contents, out.len())?;
    put_contents(contents, out);
    Ok(size)
}
