// Interval files and corrections (01, The files; 02, request 6): their form, what their bytes say, which refusal they get, which row counts.
#![tactic(auto)]

use units::{Hao, Kwh, Li};

mod checks;
mod counts;
mod faults;
mod forms;
mod kinds;
mod range;
mod read;
mod runs;

pub use checks::{check, front_fault, interval_verdict};
pub use counts::{counting, counting_row, sources};
pub use faults::{Fault, Refusal};
pub use forms::{form_of, ruling, start_of, terms_fields};
pub use kinds::{Kind, Status};
pub use range::{correction_head_ok, head_ok, row_checks, row_ok, terms_ok};
pub use read::{correction_head_at, head_at, id_at, row_at};

// The widths of the fields that all heads of an interval share, of the terms that a head may state, of a row and of a correction's head,
// and how many bytes each takes, with its mark where it has one.
pub const HEAD_WIDTHS: [u8; 5] = [4, 1, 2, 4, 2];

pub const TERMS_WIDTHS: [u8; 5] = [1, 2, 2, 2, 2];

pub const ROW_WIDTHS: [u8; 9] = [2, 1, 2, 4, 1, 1, 4, 2, 2];

pub const CORRECTION_WIDTHS: [u8; 3] = [4, 1, 2];

pub const HEAD: usize = 15;

pub const TERMS: usize = 9;

pub const ROW: usize = 21;

pub const CORRECTION_HEAD: usize = 9;

// An interval's head, without its mark.
#[derive(Clone, Copy)]
pub struct Head {
    pub day: u32,
    pub quarter: u8,
    pub tariff: Hao,
    pub need: Kwh,
    pub rows: u16,
}

// A row, without its mark. Kind, status and offered are bytes and no enums: `row_at` reads whatever stands there, for `row_ok` to refuse.
#[derive(Clone, Copy)]
pub struct Row {
    pub id: u16,
    pub kind: u8,
    pub capacity: u16,
    pub metered: Kwh,
    pub status: u8,
    pub offered: u8,
    pub minimum: Kwh,
    pub bid1: Li,
    pub bid2: Li,
}

// The terms of a trade: the baseline in percent of full load, the limits of both tiers' bids.
#[derive(Clone, Copy)]
pub struct Terms {
    pub percent: u8,
    pub lowest1: Li,
    pub highest1: Li,
    pub lowest2: Li,
    pub highest2: Li,
}

// Those of document 01.
pub const TERMS_01: Terms = Terms {
    percent: 50,
    lowest1: Li(100),
    highest1: Li(320),
    lowest2: Li(320),
    highest2: Li(750),
};

// How an interval file is laid out and by which terms: a head PG states its terms, a head PH states none and means document 01's. The flag
// stands beside the terms, and no `Option` of terms: a form may hold terms that it does not state (`ruling`, `InRange`).
#[derive(Clone, Copy)]
pub struct Form {
    pub stated: bool,
    pub terms: Terms,
}

// A correction's head, without its mark.
#[derive(Clone, Copy)]
pub struct CorrectionHead {
    pub day: u32,
    pub quarter: u8,
    pub rows: u16,
}
