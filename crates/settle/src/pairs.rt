// Two fields of the sheet read at once, and written.
ghost use Rattle.std.specs.Prelude.{◌≡◌, length};
ghost use Rattle.records.specs.Sheet.{column_of, with_column, Lined};
ghost use Rattle.settle.specs.Work.{Ruled, SameLines};

use columns::wide;
use records::{Field, cell, put_cell};

// Reads two fields into columns of one length, line by line.
pub fn get_pair(sheet: &[u8], one: Field, two: Field, first: &mut [u32], second: &mut [u32])
    requires ruled { Ruled (length first.old) one sheet.now × Ruled (length second.old) two sheet.now }
    requires second_len { length second.old ≡ length first.old }
    ensures first_after { first.new ≡ column_of one (length first.old) sheet.now }
    ensures second_after { second.new ≡ column_of two (length second.old) sheet.now }
{
    // By position: a zip of both was tried, and the proof did not close, since it knows nothing of what was written through it.
    for i in 0..first.len() {
        first[i] = cell(sheet, one, i) as u32;
        second[i] = cell(sheet, two, i) as u32;
    }
}

// Writes columns of one length into two fields of the same lines, line by line.
pub fn put_pair(sheet: &mut [u8], one: Field, two: Field, first: &[u32], second: &[u32])
    requires lined { Lined one (length first.now) sheet.old × Lined two (length second.now) sheet.old }
    requires second_len { (length second.now ≡ length first.now) × SameLines one two }
    ensures { sheet.new ≡ with_column two second.now (with_column one first.now sheet.old) }
{
    for (i, (x, y)) in first.iter().zip(second).enumerate() {
        put_cell(sheet, one, i, wide(*x));
        put_cell(sheet, two, i, wide(*y));
    }
}
