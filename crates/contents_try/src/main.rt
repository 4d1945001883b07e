// Reader and writer of contents, run from compiled code (01, The files; Numbers of refusal; 02, request 6): interval X, without and with
// stated terms, read and written again, and changed so that each of the writer's refusals is due. `rewrite`, which holds no contents, is
// tried by the library's tests.
#![tactic(auto)]

ghost use Rattle.std.specs.Prelude.{◌<◌, ◌≤◌, length};

use contents::Contents;
use files::{Form, Head, Refusal, Row, Terms};
use units::{Hao, Kwh, Li};

fn show(x: u64) {
    io::print_decimal(1, x);
    io::write_all(1, b" ");
}

fn end_line() {
    io::write_all(1, b"\n");
}

fn show_bytes(bytes: &[u8]) {
    for byte in bytes {
        show(records::wide(*byte));
    }
    end_line();
}

// An answer's number and value.
fn show_answer(answer: Result<usize, Refusal>) {
    match answer {
        Ok(count) => {
            show(0);
            show(count as u64);
        }
        Err(refusal) => {
            show(refusal.fault.number() as u64);
            show(refusal.place as u64);
        }
    }
    end_line();
}

// Contents written into a lent buffer: the answer, and the buffer afterwards.
fn write_into(contents: Contents, out: &mut [u8]) {
    show_answer(contents::write(contents, out));
    show_bytes(out);
}

// The same for a buffer of so many bytes. Interval X needs 78 without stated terms and 87 with them: 80 and 89 are two more, 77 and 86 one too few.
fn try_write<const N: usize>(contents: Contents)
    requires { N ≤ 256 }
{
    let mut out = [170u8; N];
    write_into(contents, &mut out);
}

// What the reader answers; then what it read.
fn read_from(file: &[u8]) -> Contents {
    let reading = contents::read(file);
    show_answer(reading.verdict);
    reading.contents
}

// The same, written again.
fn try_read(file: &[u8]) {
    try_write::<80>(read_from(file));
}

// The same contents with another tariff and another count of rows.
fn with_head(contents: Contents, tariff: Hao, rows: u16) -> Contents {
    let head = Head {
        tariff,
        rows,
        ..contents.head
    };
    Contents { head, ..contents }
}

// The same contents with another form: whether it states its terms, and tier 1's highest bid in them.
fn with_form(contents: Contents, stated: bool, highest1: Li) -> Contents {
    let terms = Terms {
        percent: 45,
        lowest1: Li(150),
        highest1,
        lowest2: Li(330),
        highest2: Li(760),
    };
    let form = Form { stated, terms };
    Contents { form, ..contents }
}

// The same contents with another row at a position.
fn with_row(contents: Contents, i: usize, row: Row) -> Contents
    requires { i < 256 }
{
    let mut rows = contents.rows;
    rows[i] = row;
    Contents { rows, ..contents }
}

// Row 2 of interval X with another capacity.
fn second_of(capacity: u16) -> Row {
    Row {
        id: 2,
        kind: 1,
        capacity,
        metered: Kwh(20000),
        status: 0,
        offered: 0,
        minimum: Kwh(0),
        bid1: Li(0),
        bid2: Li(0),
    }
}

// 11, 3 twice, 6, and 7 for rows 2 and 3 in each other's place.
fn try_refusals(contents: Contents) {
    try_write::<77>(contents);
    try_write::<80>(with_head(contents, Hao(0), 3));
    try_write::<80>(with_head(contents, Hao(1300), 257));
    try_write::<80>(with_row(contents, 1, second_of(2001)));
    let third = contents.rows[2];
    try_write::<80>(with_row(with_row(contents, 1, third), 2, second_of(100)));
}

// Row 1 of interval X with another bid in tier 1.
fn first_of(bid: Li) -> Row {
    Row {
        id: 1,
        kind: 1,
        capacity: 100,
        metered: Kwh(9000),
        status: 0,
        offered: 1,
        minimum: Kwh(8000),
        bid1: bid,
        bid2: Li(400),
    }
}

// 11; 14 where tier 1 ends above tier 2's lowest bid; 3 before that and 6 after it; 6 for a bid that document 01 allows and the stated
// terms do not. Terms that a form holds and does not state are neither looked at nor written: that bid is then right.
fn try_stated_refusals(contents: Contents) {
    try_write::<86>(contents);
    let wrong = with_form(contents, true, Li(331));
    try_write::<89>(wrong);
    try_write::<89>(with_head(wrong, Hao(0), 3));
    try_write::<89>(with_row(wrong, 0, first_of(Li(120))));
    let low = with_row(contents, 0, first_of(Li(120)));
    try_write::<89>(low);
    try_write::<89>(with_form(low, false, Li(331)));
}

// The same of a file of which only so many bytes have arrived.
fn try_front(file: &[u8], count: usize)
    requires { count ≤ length file.now }
{
    try_read(&file[..count]);
}

fn main() {
    // Interval X of document 01 at tariff 1300.
    let x =
        b"PH\0\0\0\0\0\x14\x05\xb8\x0b\0\0\x03\0PR\x01\0\x01\x64\0\x28\x23\0\0\0\x01\x40\x1f\0\0\xc8\0\x90\x01PR\x02\0\x01\x64\0\x20N\0\0\0\0\0\0\0\0\0\0\0\0PR\x03\0\x02\x64\0\x88\x13\0\0\0\0\0\0\0\0\0\0\0\0";
    try_read(x);
    try_front(x, 77);
    try_refusals(contents::read(x).contents);
    // The same rows, by 45 percent and the limits 150, 330, 330, 760.
    let g =
        b"PG\0\0\0\0\0\x14\x05\xb8\x0b\0\0\x03\0\x2d\x96\0\x4a\x01\x4a\x01\xf8\x02PR\x01\0\x01\x64\0\x28\x23\0\0\0\x01\x40\x1f\0\0\xc8\0\x90\x01PR\x02\0\x01\x64\0\x20N\0\0\0\0\0\0\0\0\0\0\0\0PR\x03\0\x02\x64\0\x88\x13\0\0\0\0\0\0\0\0\0\0\0\0";
    let stated = read_from(g);
    try_write::<89>(stated);
    try_stated_refusals(stated);
    try_front(g, 23);
    try_front(g, 24);
}
