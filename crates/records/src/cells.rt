// Records one after the other, seen as columns: a field's number in one record, or in all of them, read and written.
ghost use Rattle.std.specs.Prelude.{◌≡◌, ◌+◌, ◌≤◌, ◌<◌, ◌^◌, length};
ghost use Rattle.records.specs.Sheet.{cell_at, cell, column_of, with_cell, with_column, Lined};

use crate::{Field, number_at, put_number};
use columns::wide;

// The number in a field's cell of record i.
pub fn cell(s: &[u8], f: Field, i: usize) -> u64
    requires { (cell_at f i + f.width ≤ length s.now) × (f.width ≤ 8) }
    ensures { (result ≡ cell f s.now i) × (result < 256 ^ f.width) }
{
    number_at(s, f.start + i * f.stride + f.offset, f.width)
}

// Puts a number into a field's cell of record i.
pub fn put_cell(s: &mut [u8], f: Field, i: usize, x: u64)
    requires { cell_at f i + f.width ≤ length s.old }
    ensures { s.new ≡ with_cell f i x s.old }
{
    put_number(s, f.start + i * f.stride + f.offset, f.width, x);
}

// A field's column, over as many records as the column has numbers.
pub fn get_column(s: &[u8], f: Field, column: &mut [u32])
    requires { Lined f (length column.old) s.now × (f.width ≤ 4) }
    ensures { column.new ≡ column_of f (length column.old) s.now }
{
    for (i, x) in column.iter_mut().enumerate() {
        *x = cell(s, f, i) as u32;
    }
}

// Puts a column into a field, over as many records as the column has numbers.
pub fn put_column(s: &mut [u8], f: Field, column: &[u32])
    requires { Lined f (length column.now) s.old }
    ensures { s.new ≡ with_column f column.now s.old }
{
    for (i, x) in column.iter().enumerate() {
        put_cell(s, f, i, wide(*x));
    }
}
