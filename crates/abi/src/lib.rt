// The library for C and Rust: the engine's three public parts on numbers and byte slices. A slice is a pointer and a length.
// Every answer is one word: number × 2^32 + value. Number 0 is success, and the value counts bytes; any other number is a
// refusal, and the value is its place (01, Numbers of refusal).
#![tactic(auto)]

ghost use Rattle.std.specs.Prelude.{◌≡◌, length};
ghost use Rattle.files.specs.Verdict.{number_of, value_of, told};
ghost use Rattle.settle.specs.Answer.{buffer_after};
ghost use Rattle.contents.specs.Content.{rewritten_buffer};
ghost use Rattle.abi.specs.Packed.{packed, Packs, settled, copied, copied_buffer, rewritten};

use files::{Fault, Refusal};
use records::put_bytes;

// Number and value in one word, as C has them (include/wheatrudder.h).
fn pack(number: usize, value: usize) -> u64
    requires { Packs number value }
    ensures { result ≡ packed number value }
{
    (number as u64) * 4294967296 + (value as u64)
}

// The word of an answer.
fn word(answer: Result<usize, Refusal>) -> u64
    requires { Packs (number_of (told answer)) (value_of (told answer)) }
    ensures { result ≡ packed (number_of (told answer)) (value_of (told answer)) }
{
    match answer {
        Ok(count) => pack(0, count),
        Err(refusal) => pack(refusal.fault.number(), refusal.place),
    }
}

// Settles an interval file with its correction (length 0: none) into a lent buffer.
#[unsafe(no_mangle)]
pub extern "C" fn wheatrudder_settle<'a>(
    interval: &'a [u8],
    correction: &'a [u8],
    statement: &mut [u8],
) -> u64
    ensures value { result ≡ settled interval.now correction.now (length statement.old) }
    ensures statement_after { statement.new ≡ buffer_after interval.now correction.now statement.old }
{
    word(settle::settle(interval, correction, statement))
}

// Copies the bytes that count for a row into a lent buffer.
#[unsafe(no_mangle)]
pub extern "C" fn wheatrudder_row<'a>(
    interval: &'a [u8],
    correction: &'a [u8],
    id: u16,
    out: &mut [u8],
) -> u64
    ensures value { result ≡ copied interval.now correction.now id (length out.old) }
    ensures out_after { out.new ≡ copied_buffer interval.now correction.now id out.old }
{
    let part = files::counting(interval, correction, id);
    if out.len() < part.len() {
        return word(Err(Refusal::from(Fault::ShortBuffer)));
    }
    put_bytes(out, 0, part);
    word(Ok(part.len()))
}

// Reads an interval file and writes what it says again into a lent buffer, row by row.
#[unsafe(no_mangle)]
pub extern "C" fn wheatrudder_rewrite(interval: &[u8], out: &mut [u8]) -> u64
    ensures value { result ≡ rewritten interval.now (length out.old) }
    ensures out_after { out.new ≡ rewritten_buffer interval.now out.old }
{
    word(contents::rewrite(interval, out))
}
