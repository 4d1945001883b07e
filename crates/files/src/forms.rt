// The form of an interval file: whether its head states terms, which they are, and where its rows begin (02, request 6).
ghost use Rattle.std.specs.Prelude.{◌≡◌, ◌+◌, ◌≤◌, length};
ghost use Rattle.files.specs.Layout.{head_size};
ghost use Rattle.files.specs.Form.{terms_size, terms_fields, terms_at, known, states, ruling, form_of, start_of, rows_from};

use crate::{Form, HEAD, TERMS, TERMS_01, TERMS_WIDTHS, Terms};
use records::{marked, record_of};
use units::Li;

// Whether a file's mark is one of the two.
pub fn known(s: &[u8]) -> bool
    requires { head_size ≤ length s.now }
    ensures { result ≡ known s.now }
{
    marked(s, 0, b'H') | marked(s, 0, b'G')
}

// Whether it says that the head states terms.
fn states(s: &[u8]) -> bool
    requires { head_size ≤ length s.now }
    ensures { result ≡ states s.now }
{
    marked(s, 0, b'G')
}

// How long a head is, so where rows begin.
pub fn start_of(stated: bool) -> usize
    ensures { (result ≡ start_of stated) × (result ≤ head_size + terms_size) }
{
    if stated {
        return HEAD + TERMS;
    }
    HEAD
}

// Where the rows of a file begin, by its mark alone.
pub fn rows_from(s: &[u8]) -> usize
    requires { head_size ≤ length s.now }
    ensures { (result ≡ rows_from s.now) × (result ≤ head_size + terms_size) }
{
    start_of(states(s))
}

// The terms behind the fields that all heads share. To the reader of records the count of rows stands where a mark would.
fn terms_at(s: &[u8]) -> Terms
    requires { head_size + terms_size ≤ length s.now }
    ensures { result ≡ terms_at s.now }
{
    let [percent, lowest1, highest1, lowest2, highest2] = record_of(s, HEAD - 2, &TERMS_WIDTHS);
    Terms {
        percent: percent as u8,
        lowest1: Li(lowest1),
        highest1: Li(highest1),
        lowest2: Li(lowest2),
        highest2: Li(highest2),
    }
}

// Terms as their fields, in the order of their table.
pub fn terms_fields(t: Terms) -> [u64; 5]
    ensures { result ≡ terms_fields t }
{
    [
        u64::from(t.percent),
        t.lowest1.0,
        t.highest1.0,
        t.lowest2.0,
        t.highest2.0,
    ]
}

// The form of a file that is as long as the head of its own mark.
pub fn form_of(s: &[u8]) -> Form
    requires { (head_size ≤ length s.now) × (rows_from s.now ≤ length s.now) }
    ensures { result ≡ form_of s.now }
{
    if states(s) {
        let terms = terms_at(s);
        return Form {
            stated: true,
            terms: terms,
        };
    }
    Form {
        stated: false,
        terms: TERMS_01,
    }
}

// The terms that rule a form: what it does not state is document 01's, whatever stands in the value.
pub fn ruling(form: Form) -> Terms
    ensures { result ≡ ruling form }
{
    if form.stated {
        return form.terms;
    }
    TERMS_01
}
