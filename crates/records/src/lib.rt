// Numbers and records in bytes (01, The files): little-endian numbers of any width, a record as a table of widths.
#![tactic(auto)]

mod cells;

ghost use Rattle.std.specs.Prelude.{◌≡◌, ◌+◌, ◌≤◌, ◌<◌, ◌^◌, length, true};
ghost use Rattle.records.specs.Number.{number_at, number_bytes};
ghost use Rattle.records.specs.Fields.{span, fields_bytes};
ghost use Rattle.records.specs.Buffer.{put};
ghost use Rattle.records.specs.Record.{marked, record_size, record_at, record_bytes, narrow, Fits};

pub use cells::{cell, get_column, put_cell, put_column};

// A field of a table of widths, where records of that table stand one after the other: the first begins at `start`, each `stride` bytes
// after the one before, and the field `offset` bytes into its record.
#[derive(Clone, Copy)]
pub struct Field {
    pub start: usize,
    pub stride: usize,
    pub offset: usize,
    pub width: usize,
}

// A byte as a number to reckon with.
pub fn wide(x: u8) -> u64
    ensures { (result ≡ x) × (result < 256) }
{
    u64::from(x)
}

// The number in so many bytes from a position on, lowest byte first; taken from the top byte down. Widths 4 and 2 are read at once:
// where a width is known only at run time, the compiler would read a number of any width in a loop over its bytes.
pub fn number_at(s: &[u8], at: usize, width: usize) -> u64
    requires { (at + width ≤ length s.now) × (width ≤ 8) }
    ensures { (result ≡ number_at width s.now at) × (result < 256 ^ width) }
{
    if width == 4 {
        return u64::from(u32::from_le_bytes([s[at], s[at + 1], s[at + 2], s[at + 3]]));
    }
    if width == 2 {
        return u64::from(u16::from_le_bytes([s[at], s[at + 1]]));
    }
    let mut v: u64 = 0;
    for i in (0..width).rev() {
        v = v * 256 + wide(s[at + i]);
    }
    v
}

// Copies src into out from position at on; nothing else of out changes. A loop, of which the compiler makes a memcpy: of copy_from_slice it
// makes a memmove, and of C's library the archive calls memcpy and memset alone.
pub fn put_bytes(out: &mut [u8], at: usize, src: &[u8])
    requires { at + length src.now ≤ length out.old }
    ensures { out.new ≡ put out.old at src.now }
{
    for (i, byte) in src.iter().enumerate() {
        out[at + i] = *byte;
    }
}

// Puts a number from a position on, in so many bytes, lowest byte first.
pub fn put_number(out: &mut [u8], at: usize, width: usize, x: u64)
    requires { at + width ≤ length out.old }
    ensures { out.new ≡ put out.old at (number_bytes width x) }
{
    let mut left = x;
    for byte in &mut out[at..at + width] {
        *byte = (left % 256) as u8;
        left /= 256;
    }
}

// Puts a record's fields one after the other from a position on, each in its own width.
pub fn put_fields(out: &mut [u8], at: usize, widths: &[u8], fields: &[u64])
    requires { (length fields.now ≡ length widths.now) × (at + span widths.now ≤ length out.old) }
    ensures { out.new ≡ put out.old at (fields_bytes widths.now fields.now) }
{
    let mut end = at;
    for (width, x) in widths.iter().zip(fields) {
        let width = usize::from(*width);
        put_number(out, end, width, *x);
        end += width;
    }
}

// Whether a record's mark stands at a position: the letter P and the letter given. Both bytes are one number, so that there is one test.
pub fn marked(s: &[u8], at: usize, letter: u8) -> bool
    requires { at + 2 ≤ length s.now }
    ensures { result ≡ marked s.now at letter }
{
    u16::from_le_bytes([s[at], s[at + 1]]) == u16::from_le_bytes([b'P', letter])
}

// The fields of the record whose mark stands at a position, each read in its own width.
pub fn get_record(s: &[u8], at: usize, widths: &[u8], fields: &mut [u64])
    requires { (at + record_size widths.now ≤ length s.now) × (length fields.old ≡ length widths.now) × (narrow widths.now ≡ true) }
    ensures { (fields.new ≡ record_at widths.now s.now at) × Fits widths.now fields.new }
{
    let mut end = at + 2;
    for (i, width) in widths.iter().enumerate() {
        let width = usize::from(*width);
        fields[i] = number_at(s, end, width);
        end += width;
    }
}

// The same, where the table's length is known: its fields, one for each width. Inlined, so that the widths are known where it is called: of a
// call the compiler would make a loop over them.
#[inline(always)]
pub fn record_of<const N: usize>(s: &[u8], at: usize, widths: &[u8; N]) -> [u64; N]
    requires { (at + record_size widths.now ≤ length s.now) × (narrow widths.now ≡ true) }
    ensures { (result ≡ record_at widths.now s.now at) × Fits widths.now result }
{
    let mut fields = [0; N];
    get_record(s, at, widths, &mut fields);
    fields
}

// Puts a record from a position on: its mark, then its fields, each in its own width.
pub fn put_record(out: &mut [u8], at: usize, letter: u8, widths: &[u8], fields: &[u64])
    requires { (length fields.now ≡ length widths.now) × (at + record_size widths.now ≤ length out.old) }
    ensures { out.new ≡ put out.old at (record_bytes letter widths.now fields.now) }
{
    out[at] = b'P';
    out[at + 1] = letter;
    put_fields(out, at + 2, widths, fields);
}
