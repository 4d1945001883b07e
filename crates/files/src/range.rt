// Every range of a head and of a row (01, The files: Ranges; Article 25 for the limits of bids).
ghost use Rattle.std.specs.Prelude.{◌≡◌};
ghost use Rattle.columns.specs.Test.{within, first_of};
ghost use Rattle.files.specs.Range.{head_ok, terms_ok, correction_head_ok, status_ok, not_offering, offering, row_ok};
ghost use Rattle.files.specs.Order.{row_checks};
ghost use Rattle.files.specs.Verdict.{fault_in};

use crate::{CorrectionHead, Fault, Head, Kind, Row, Status, Terms};
use units::{Kwh, Li, load, most};

const LAST_DAY: u32 = 36524;

const LAST_QUARTER: u8 = 95;

const HIGHEST_TARIFF: u64 = 10000;

const HIGHEST_NEED: Kwh = Kwh(64000000);

const MOST_ROWS: u16 = 256;

const LOWEST_PERCENT: u64 = 41;

const HIGHEST_PERCENT: u64 = 50;

const LOWEST_LIMIT: Li = Li(1);

const HIGHEST_LIMIT: Li = Li(1000);

const LARGEST_CAPACITY: u64 = 2000;

fn within(lo: u64, hi: u64, x: u64) -> bool
    ensures { result ≡ within lo hi x }
{
    (lo <= x) & (x <= hi)
}

pub fn head_ok(h: Head) -> bool
    ensures { result ≡ head_ok h }
{
    (h.day <= LAST_DAY)
        & (h.quarter <= LAST_QUARTER)
        & within(1, HIGHEST_TARIFF, u64::from(h.tariff.0))
        & (h.need <= HIGHEST_NEED)
        & (h.rows <= MOST_ROWS)
}

// Terms that a head may state (02, request 6; Article 64).
pub fn terms_ok(t: Terms) -> bool
    ensures { result ≡ terms_ok t }
{
    within(LOWEST_PERCENT, HIGHEST_PERCENT, u64::from(t.percent))
        & (LOWEST_LIMIT <= t.lowest1)
        & (t.lowest1 < t.highest1)
        & (t.highest1 <= t.lowest2)
        & (t.lowest2 < t.highest2)
        & (t.highest2 <= HIGHEST_LIMIT)
}

pub fn correction_head_ok(h: CorrectionHead) -> bool
    ensures { result ≡ correction_head_ok h }
{
    (h.day <= LAST_DAY)
        & (h.quarter <= LAST_QUARTER)
        & within(1, u64::from(MOST_ROWS), u64::from(h.rows))
}

fn status_ok(r: Row) -> bool
    ensures { result ≡ status_ok r }
{
    (r.status <= Status::Accident as u8)
        & ((r.kind == Kind::Thermal as u8)
            | ((r.status == Status::Normal as u8) | (r.status == Status::Accident as u8)))
}

fn not_offering(r: Row) -> bool
    ensures { result ≡ not_offering r }
{
    (r.offered == 0) & (r.minimum == Kwh(0)) & (r.bid1 == Li(0)) & (r.bid2 == Li(0))
}

fn offering(terms: Terms, r: Row) -> bool
    ensures { result ≡ offering terms r }
{
    (r.offered == 1)
        & (r.kind == Kind::Thermal as u8)
        & (r.minimum <= load(r.capacity, terms.percent))
        & within(terms.lowest1.0, terms.highest1.0, r.bid1.0)
        & within(terms.lowest2.0, terms.highest2.0, r.bid2.0)
}

pub fn row_ok(terms: Terms, r: Row) -> bool
    ensures { result ≡ row_ok terms r }
{
    (1 <= r.id)
        & within(Kind::Thermal as u64, Kind::Solar as u64, u64::from(r.kind))
        & within(1, LARGEST_CAPACITY, u64::from(r.capacity))
        & (r.metered <= most(r.capacity))
        & status_ok(r)
        & (not_offering(r) | offering(terms, r))
}

// 6 and 7 for a row whose mark is right: its ranges, and its id against the id before it.
pub fn row_checks(terms: Terms, r: Row, last: u16) -> Result<(), Fault>
    ensures { fault_in result ≡ first_of (row_checks terms r last) }
{
    if !row_ok(terms, r) {
        return Err(Fault::RowRange);
    }
    if r.id <= last {
        return Err(Fault::RowOrder);
    }
    Ok(())
}
