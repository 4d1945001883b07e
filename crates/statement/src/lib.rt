// Statements in bytes (01, The files; 02, requests 4, 6, 8 and 9): a head and a line for each row, each a record by its table of widths. A
// head PS is that of a file that states no terms, a head PT has them too; lines are the same. A line is its list of fields, and a field of
// all lines is a column.
#![tactic(auto)]

ghost use Rattle.std.specs.Prelude.{◌≡◌, ◌+◌, ◌≤◌, length};
ghost use Rattle.records.specs.Buffer.{put};
ghost use Rattle.files.specs.Form.{terms_size, stated_bytes};
ghost use Rattle.statement.specs.Statement.{front_size, head_size, front_fields, tail_fields, head_letter, extra_of};
ghost use Rattle.statement.specs.Statement.{extra_in, head_in, top_bytes};

use files::{Form, TERMS, TERMS_WIDTHS, terms_fields};
use records::{Field, marked, put_fields, put_record, record_of};
use units::{Fen, Kwh, Li};

// A statement's head, without its mark and without terms. `averaged` is 1 if the thermal average ruled, else 0: a byte and no bool, since
// `head_in` reads whatever stands there.
#[derive(Clone, Copy)]
pub struct StatementHead {
    pub day: u32,
    pub quarter: u8,
    pub price1: Li,
    pub price2: Li,
    pub total: Fen,
    pub shortfall: Fen,
    pub rounds: u16,
    pub uncovered: Kwh,
    pub rows: u16,
    pub visits: u32,
    pub averaged: u8,
}

// The widths of the fields in front of a head's terms (its front), of those behind (its tail), of a whole head PS, a whole head PT, a line.
pub const FRONT_WIDTHS: [u8; 9] = [4, 1, 2, 2, 8, 8, 2, 4, 2];

pub const TAIL_WIDTHS: [u8; 2] = [4, 1];

pub const HEAD_WIDTHS: [u8; 11] = [4, 1, 2, 2, 8, 8, 2, 4, 2, 4, 1];

pub const STATED_WIDTHS: [u8; 16] = [4, 1, 2, 2, 8, 8, 2, 4, 2, 1, 2, 2, 2, 2, 4, 1];

pub const LINE_WIDTHS: [u8; 11] = [2, 4, 4, 4, 4, 4, 4, 4, 2, 4, 4];

// How many bytes the front of a head takes with its mark, a head PS, and a line.
pub const FRONT: usize = 35;

pub const HEAD: usize = 40;

pub const LINE: usize = 42;

// The letter of a line's mark.
pub const LINE_LETTER: u8 = b'L';

// The columns of the lines behind a head PS. Behind a head PT lines stand so many bytes later as its terms take.
pub const ID: Field = Field {
    start: HEAD,
    stride: LINE,
    offset: 2,
    width: 2,
};

pub const CALLED1: Field = Field {
    offset: 4,
    width: 4,
    ..ID
};

pub const CALLED2: Field = Field {
    offset: 8,
    width: 4,
    ..ID
};

pub const COMPENSATION: Field = Field {
    offset: 12,
    width: 4,
    ..ID
};

pub const CUT: Field = Field {
    offset: 16,
    width: 4,
    ..ID
};

pub const WEIGHT: Field = Field {
    offset: 20,
    width: 4,
    ..ID
};

pub const CAP: Field = Field {
    offset: 24,
    width: 4,
    ..ID
};

pub const PAID: Field = Field {
    offset: 28,
    width: 4,
    ..ID
};

pub const CLOSING: Field = Field {
    offset: 32,
    width: 2,
    ..ID
};

pub const PENALTY: Field = Field {
    offset: 34,
    width: 4,
    ..ID
};

pub const RETURNED: Field = Field {
    offset: 38,
    width: 4,
    ..ID
};

// Two fields that stand side by side, as one: compensation with cut, penalty with what is returned. Money of 32 bits put there stands in
// the first of the two and leaves 0 in the second.
pub const PAY: Field = Field {
    offset: 12,
    width: 8,
    ..ID
};

pub const OWED: Field = Field {
    offset: 34,
    width: 8,
    ..ID
};

// How many bytes later lines stand in a statement with terms.
pub fn extra_of(stated: bool) -> usize
    ensures { (result ≡ extra_of stated) × (result ≤ terms_size) }
{
    if stated {
        return TERMS;
    }
    0
}

// The letter of a head's mark: PT with terms, PS without.
fn head_letter(stated: bool) -> u8
    ensures { result ≡ head_letter stated }
{
    if stated {
        return b'T';
    }
    b'S'
}

// The head at the front of a statement, by its mark. To the reader of records what stands in front of the tail stands where a mark would.
pub fn head_in(s: &[u8]) -> StatementHead
    requires { (head_size ≤ length s.now) × (extra_in s.now + head_size ≤ length s.now) }
    ensures { result ≡ head_in s.now }
{
    let [
        day,
        quarter,
        price1,
        price2,
        total,
        shortfall,
        rounds,
        uncovered,
        rows,
    ] = record_of(s, 0, &FRONT_WIDTHS);
    let extra = extra_of(marked(s, 0, b'T'));
    let [visits, averaged] = record_of(s, FRONT - 2 + extra, &TAIL_WIDTHS);
    StatementHead {
        day: day as u32,
        quarter: quarter as u8,
        price1: Li(price1),
        price2: Li(price2),
        total: Fen(total),
        shortfall: Fen(shortfall),
        rounds: rounds as u16,
        uncovered: Kwh(uncovered as u32),
        rows: rows as u16,
        visits: visits as u32,
        averaged: averaged as u8,
    }
}

// The fields in front of a head's terms, in the order of their table.
fn front_fields(h: StatementHead) -> [u64; 9]
    ensures { result ≡ front_fields h }
{
    [
        u64::from(h.day),
        u64::from(h.quarter),
        h.price1.0,
        h.price2.0,
        h.total.0,
        h.shortfall.0,
        u64::from(h.rounds),
        u64::from(h.uncovered.0),
        u64::from(h.rows),
    ]
}

// The fields behind them.
fn tail_fields(h: StatementHead) -> [u64; 2]
    ensures { result ≡ tail_fields h }
{
    [u64::from(h.visits), u64::from(h.averaged)]
}

// The terms behind the front of a head, where the form states them.
fn put_terms(out: &mut [u8], form: Form)
    requires { front_size + extra_of form.stated ≤ length out.old }
    ensures { out.new ≡ put out.old front_size (stated_bytes form) }
{
    if form.stated {
        let fields = terms_fields(form.terms);
        put_fields(out, FRONT, &TERMS_WIDTHS, &fields);
    }
}

// Puts a head at the front of a buffer, by the form of the file that is settled: the front, the terms if it states them, the tail.
pub fn put_head(out: &mut [u8], form: Form, h: StatementHead)
    requires { extra_of form.stated + head_size ≤ length out.old }
    ensures { out.new ≡ put out.old 0 (top_bytes form h) }
{
    let fields = front_fields(h);
    let letter = head_letter(form.stated);
    put_record(out, 0, letter, &FRONT_WIDTHS, &fields);
    put_terms(out, form);
    let tail = tail_fields(h);
    put_fields(out, FRONT + extra_of(form.stated), &TAIL_WIDTHS, &tail);
}
