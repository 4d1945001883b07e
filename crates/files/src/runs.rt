// Rows one after the other, whose ids rise: what is read of them, and where an id is found.
ghost use Rattle.std.specs.Prelude.{◌≡◌, ◌&&◌, ◌+◌, ◌*◌, ◌≤◌, ◌<◌, ltb, eqb};
ghost use Rattle.files.specs.Layout.{row_size, row_at};
ghost use Rattle.files.specs.Walk.{id_of, Rows, Under, Sought};
ghost use Rattle.files.specs.Counting.{part};

use crate::Row;
use crate::counts::part_at;
use crate::read::{id_at, row_at};

// `count` rows of `size` bytes, of which the first begins at byte `start`.
#[derive(Clone, Copy)]
pub struct Run<'a> {
    pub bytes: &'a [u8],
    pub start: usize,
    pub size: usize,
    pub count: usize,
    ghost rows: { Rows bytes.now start size count },
}

impl<'a> Run<'a> {
    // Where row i begins.
    fn place(&self, i: usize) -> usize
        requires { i < self.now.count }
        ensures { result ≡ self.now.start + i * self.now.size }
    {
        self.start + i * self.size
    }

    pub fn id(&self, i: usize) -> u16
        requires { i < self.now.count }
        ensures { result ≡ id_of self.now.bytes.now self.now.start self.now.size i }
    {
        id_at(self.bytes, self.place(i))
    }

    pub fn row(&self, i: usize) -> Row
        requires { i < self.now.count }
        ensures { result ≡ row_at self.now.bytes.now (self.now.start + i * self.now.size) }
    {
        row_at(self.bytes, self.place(i))
    }

    // The bytes of a row.
    pub fn part(&self, i: usize) -> &'a [u8]
        requires { i < self.now.count }
        ensures { result.now ≡ part self.now.size self.now.bytes.now (self.now.start + i * self.now.size) }
    {
        part_at(self.bytes, self.place(i), self.size)
    }

    // The first row from row `from` on whose id is not below this one, and `count` if there is none.
    pub fn seek(&self, from: usize, id: u16) -> usize
        requires { (from ≤ self.now.count) × Under self.now.bytes.now self.now.start self.now.size from id }
        ensures { Sought self.now.bytes.now self.now.start self.now.size self.now.count id result }
    {
        for i in from..self.count {
            if id <= self.id(i) {
                return i;
            }
        }
        self.count
    }

    // Row i is there and has this id.
    pub fn has(&self, i: usize, id: u16) -> bool
        ensures { result ≡ (ltb i self.now.count && eqb (id_of self.now.bytes.now self.now.start self.now.size i) id) }
    {
        i < self.count && self.id(i) == id
    }
}
