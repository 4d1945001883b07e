// Figures that are run (01, Checked figures): capacity 2,000 and 2,001; tier 1 bids 99, 100, 320, 321. Then files that state their terms
// (02, request 6): each end of the terms' ranges, the order of the checks around 14, the ranges of a row that follow the terms.
#![tactic(auto)]

ghost use Rattle.std.specs.Prelude.{◌≡◌, ◌<◌, ◌≤◌};
ghost use Rattle.files.specs.Verdict.{number_of, told};
ghost use Rattle.files_try.specs.Tried.{tried, answer_of, stated, stated_answer};

use files::Refusal;

// The bytes of an interval file of one row.
fn trial(capacity: u16, bid1: u16) -> [u8; 36]
    ensures { result ≡ tried capacity bid1 }
{
    [
        80,
        72,
        0,
        0,
        0,
        0,
        0,
        20,
        5,
        184,
        11,
        0,
        0,
        1,
        0,
        80,
        82,
        1,
        0,
        1,
        (capacity % 256) as u8,
        (capacity / 256) as u8,
        40,
        35,
        0,
        0,
        0,
        1,
        0,
        0,
        0,
        0,
        (bid1 % 256) as u8,
        (bid1 / 256) as u8,
        144,
        1,
    ]
}

// The number of an answer.
fn number(answer: Result<usize, Refusal>) -> usize
    ensures { result ≡ number_of (told answer) }
{
    match answer {
        Ok(_) => 0,
        Err(refusal) => refusal.fault.number(),
    }
}

fn answer(capacity: u16, bid1: u16) -> usize
    ensures { result ≡ answer_of capacity bid1 }
{
    let file = trial(capacity, bid1);
    let none: [u8; 0] = [];
    number(files::check(&file, &none))
}

// The same of a file that states its terms: this baseline, and the limits 150, 330, 330, 760.
fn stated(percent: u8) -> [u8; 45]
    ensures { result ≡ stated percent }
{
    [
        80, 71, 0, 0, 0, 0, 0, 20, 5, 184, 11, 0, 0, 1, 0, percent, 150, 0, 74, 1, 74, 1, 248, 2,
        80, 82, 1, 0, 1, 100, 0, 40, 35, 0, 0, 0, 1, 64, 31, 0, 0, 200, 0, 144, 1,
    ]
}

// Of such a file with two bytes changed, of which only so many bytes have arrived.
fn stated_answer(percent: u8, at: usize, low: u8, high: u8, count: usize) -> usize
    requires { (at < 44) × (count ≤ 45) }
    ensures { result ≡ stated_answer percent at low high count }
{
    let mut file = stated(percent);
    file[at] = low;
    file[at + 1] = high;
    let none: [u8; 0] = [];
    number(files::check(&file[..count], &none))
}

// The percent, then each limit in turn: tier 1 may end where tier 2 begins. A limit that passes by itself may leave the row's bid outside
// (6). Bytes 0 and 1 are the mark, so putting PG there changes nothing.
fn try_terms() {
    check::expect(stated_answer(45, 0, 80, 71, 45) == 0);
    check::expect(stated_answer(40, 0, 80, 71, 45) == 14);
    check::expect(stated_answer(41, 0, 80, 71, 45) == 0);
    check::expect(stated_answer(50, 0, 80, 71, 45) == 0);
    check::expect(stated_answer(51, 0, 80, 71, 45) == 14);
    check::expect(stated_answer(45, 16, 0, 0, 45) == 14);
    check::expect(stated_answer(45, 16, 1, 0, 45) == 0);
    check::expect(stated_answer(45, 16, 73, 1, 45) == 6);
    check::expect(stated_answer(45, 16, 74, 1, 45) == 14);
    check::expect(stated_answer(45, 18, 75, 1, 45) == 14);
    check::expect(stated_answer(45, 20, 73, 1, 45) == 14);
    check::expect(stated_answer(45, 20, 248, 2, 45) == 14);
    check::expect(stated_answer(45, 20, 144, 1, 45) == 0);
    check::expect(stated_answer(45, 22, 232, 3, 45) == 0);
    check::expect(stated_answer(45, 22, 233, 3, 45) == 14);
}

// 1 and 2 by any head, 1 by this one, 3, 14, 4, 5: each before what comes after it. A baseline of 40 percent is what 14 is for.
fn try_order() {
    check::expect(stated_answer(45, 0, 80, 70, 45) == 2);
    check::expect(stated_answer(45, 0, 80, 70, 14) == 1);
    check::expect(stated_answer(40, 0, 80, 70, 45) == 2);
    check::expect(stated_answer(40, 0, 80, 71, 23) == 1);
    check::expect(stated_answer(45, 7, 0, 0, 23) == 1);
    check::expect(stated_answer(45, 0, 80, 71, 24) == 4);
    check::expect(stated_answer(45, 7, 0, 0, 45) == 3);
    check::expect(stated_answer(40, 7, 0, 0, 45) == 3);
    check::expect(stated_answer(45, 0, 80, 71, 44) == 4);
    check::expect(stated_answer(40, 0, 80, 71, 44) == 14);
    check::expect(stated_answer(45, 24, 80, 83, 45) == 5);
    check::expect(stated_answer(40, 24, 80, 83, 45) == 14);
}

// Bids at the limits that are stated, and the minimum at 45 percent of full load, 11,250 kWh.
fn try_rows() {
    check::expect(stated_answer(45, 41, 149, 0, 45) == 6);
    check::expect(stated_answer(45, 41, 150, 0, 45) == 0);
    check::expect(stated_answer(45, 41, 74, 1, 45) == 0);
    check::expect(stated_answer(45, 41, 75, 1, 45) == 6);
    check::expect(stated_answer(45, 43, 73, 1, 45) == 6);
    check::expect(stated_answer(45, 43, 74, 1, 45) == 0);
    check::expect(stated_answer(45, 43, 248, 2, 45) == 0);
    check::expect(stated_answer(45, 43, 249, 2, 45) == 6);
    check::expect(stated_answer(45, 37, 242, 43, 45) == 0);
    check::expect(stated_answer(45, 37, 243, 43, 45) == 6);
}

fn main() {
    check::expect(answer(2000, 320) == 0);
    check::expect(answer(2001, 320) == 6);
    check::expect(answer(100, 99) == 6);
    check::expect(answer(100, 100) == 0);
    check::expect(answer(100, 320) == 0);
    check::expect(answer(100, 321) == 6);
    try_terms();
    try_order();
    try_rows();
}
