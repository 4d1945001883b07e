// Contents read from the bytes of an interval file.
ghost use Rattle.std.specs.Prelude.{◌≡◌, ◌≤◌, length};
ghost use Rattle.columns.specs.Table.{table};
ghost use Rattle.files.specs.Layout.{row_count};
ghost use Rattle.files.specs.Form.{row_start};
ghost use Rattle.files.specs.Verdict.{told};
ghost use Rattle.contents.specs.Content.{zero_form, zero_row, zero_contents, contents_of, reading_of};

use crate::{Contents, Reading};
use files::{Form, Head, ROW, Row, Terms, form_of, head_at, interval_verdict, row_at, start_of};
use units::{Hao, Kwh, Li};

fn zero_row() -> Row
    ensures { result ≡ zero_row }
{
    Row {
        id: 0,
        kind: 0,
        capacity: 0,
        metered: Kwh(0),
        status: 0,
        offered: 0,
        minimum: Kwh(0),
        bid1: Li(0),
        bid2: Li(0),
    }
}

fn zero_form() -> Form
    ensures { result ≡ zero_form }
{
    let terms = Terms {
        percent: 0,
        lowest1: Li(0),
        highest1: Li(0),
        lowest2: Li(0),
        highest2: Li(0),
    };
    Form {
        stated: false,
        terms,
    }
}

fn zero_rows() -> [Row; 256]
    ensures { result ≡ table 256 (λ i. zero_row) }
{
    [zero_row(); 256]
}

// The contents beside a refusal.
fn zero_contents() -> Contents
    ensures { result ≡ zero_contents }
{
    let head = Head {
        day: 0,
        quarter: 0,
        tariff: Hao(0),
        need: Kwh(0),
        rows: 0,
    };
    let form = zero_form();
    let rows = zero_rows();
    Contents { form, head, rows }
}

// What a file says that is as long as its head says.
fn contents_of(s: &[u8]) -> Contents
    requires { (row_count s.now ≤ 256) × (row_start s.now (row_count s.now) ≤ length s.now) }
    ensures { result ≡ contents_of s.now }
{
    let form = form_of(s);
    let start = start_of(form.stated);
    let head = head_at(s);
    let count = head.rows as usize;
    let mut rows = zero_rows();
    for i in 0..count {
        rows[i] = row_at(s, start + i * ROW);
    }
    Contents { form, head, rows }
}

// Reads the contents of an interval file; any bytes are answered.
pub fn read(s: &[u8]) -> Reading
    ensures verdict { told result.verdict ≡ (reading_of s.now).verdict }
    ensures contents { result.contents ≡ (reading_of s.now).contents }
{
    match interval_verdict(s) {
        Err(refusal) => Reading {
            verdict: Err(refusal),
            contents: zero_contents(),
        },
        Ok(n) => Reading {
            verdict: Ok(n),
            contents: contents_of(s),
        },
    }
}
