// What the bytes of a head or a row say (01, The files).
ghost use Rattle.std.specs.Prelude.{◌≡◌, ◌+◌, ◌≤◌, length};
ghost use Rattle.files.specs.Layout.{head_size, row_size, correction_head_size, head_at, row_at, correction_head_at};

use crate::{CORRECTION_WIDTHS, CorrectionHead, HEAD_WIDTHS, Head, ROW_WIDTHS, Row};
use records::{number_at, record_of};
use units::{Hao, Kwh, Li};

pub fn head_at(s: &[u8]) -> Head
    requires { head_size ≤ length s.now }
    ensures { result ≡ head_at s.now }
{
    let [day, quarter, tariff, need, rows] = record_of(s, 0, &HEAD_WIDTHS);
    Head {
        day: day as u32,
        quarter: quarter as u8,
        tariff: Hao(tariff as u32),
        need: Kwh(need as u32),
        rows: rows as u16,
    }
}

pub fn row_at(s: &[u8], at: usize) -> Row
    requires { at + row_size ≤ length s.now }
    ensures { result ≡ row_at s.now at }
{
    let [
        id,
        kind,
        capacity,
        metered,
        status,
        offered,
        minimum,
        bid1,
        bid2,
    ] = record_of(s, at, &ROW_WIDTHS);
    Row {
        id: id as u16,
        kind: kind as u8,
        capacity: capacity as u16,
        metered: Kwh(metered as u32),
        status: status as u8,
        offered: offered as u8,
        minimum: Kwh(minimum as u32),
        bid1: Li(bid1),
        bid2: Li(bid2),
    }
}

pub fn correction_head_at(s: &[u8]) -> CorrectionHead
    requires { correction_head_size ≤ length s.now }
    ensures { result ≡ correction_head_at s.now }
{
    let [day, quarter, rows] = record_of(s, 0, &CORRECTION_WIDTHS);
    CorrectionHead {
        day: day as u32,
        quarter: quarter as u8,
        rows: rows as u16,
    }
}

// A row's id alone: its first field, behind the mark.
pub fn id_at(s: &[u8], at: usize) -> u16
    requires { at + row_size ≤ length s.now }
    ensures { result ≡ (row_at s.now at).id }
{
    number_at(s, at + 2, 2) as u16
}
