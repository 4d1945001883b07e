// The kinds and statuses of a row, and the bytes that say them. A row itself holds whatever byte stands there (`row_at`), so that `row_ok`
// can refuse it.
#[derive(Clone, Copy, PartialEq, Eq)]
pub enum Kind {
    Thermal = 1,
    Wind = 2,
    Solar = 3,
}

#[derive(Clone, Copy, PartialEq, Eq)]
pub enum Status {
    Normal = 0,
    Starting = 1,
    // Reduced for reasons of its own.
    Reduced = 2,
    Accident = 3,
}
