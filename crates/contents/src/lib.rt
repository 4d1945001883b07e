// Interval contents (01, The files): read from a file's bytes, and written to bytes in a lent buffer; or read and written again in one go,
// with no contents held.
#![tactic(auto)]

use files::{Form, Head, Refusal, Row};

mod reader;
mod rewriter;
mod writer;

pub use reader::read;
pub use rewriter::rewrite;
pub use writer::write;

// What an interval file says: its form, its head and its rows. Past the head's count of rows there are zero rows.
#[derive(Clone, Copy)]
pub struct Contents {
    pub form: Form,
    pub head: Head,
    pub rows: [Row; 256],
}

// The answer of a reader of contents: the file's verdict, and beside a refusal contents that are all zero (`reading_of` promises them, so
// no `Result` holds the contents).
#[derive(Clone, Copy)]
pub struct Reading {
    pub verdict: Result<usize, Refusal>,
    pub contents: Contents,
}
