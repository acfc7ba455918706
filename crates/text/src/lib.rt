//! Bytes as signed numbers, numbers and words as text, and buffers filled from a reader: what the programs read and
//! write. Text is gathered in an `ArrayVec`, since the programs use no heap.
#![tactic(auto)]

ghost use Rattle.std.specs.Prelude.{◌≡◌, ◌+◌, ◌≤◌, ◌<◌, ◌++◌, length, take, drop, true, false, OnOk};
ghost use Rattle.std.specs.Fmt.{signed_decimal};
ghost use Rattle.std.specs.Io.KnownBytes.{Appends, Consumes, IsAtEnd};
ghost use Rattle.io.specs.Counts.{IsPrefixLen};
ghost use Rattle.arrayvec.specs.ArrayVec.{array_vec_len};
ghost use Rattle.text.specs.SignedByte.{signed_byte};

use arrayvec::ArrayVec;
use itoa::{Buffer, Integer};
use std::io::{Read, Result, Write};

/// The byte as a signed number of eight bits.
// A function of its own: it says the number by `signed_byte`, the definition of callers, where std's `cast_signed` has one over any width.
pub fn signed_byte(b: u8) -> i8
    ensures { result ≡ signed_byte b }
{
    b.cast_signed()
}

/// Appends `word` to `out`, which has room for it.
pub fn put_word<const N: usize>(word: &[u8], out: &mut ArrayVec<u8, N>)
    requires room { array_vec_len out.old + length word.now ≤ N }
    ensures { out.new.items ≡ out.old.items ++ word.now }
{
    out.try_extend_from_slice(word).unwrap();
}

/// Appends `n` in decimal to `out`, which has room for the longest number of its type.
pub fn put_number<I: Integer, const N: usize>(n: I, out: &mut ArrayVec<u8, N>)
    requires room { array_vec_len out.old + I.MAX_STR_LEN ≤ N }
    ensures text { out.new.items ≡ out.old.items ++ I.text n }
    ensures len { array_vec_len out.new ≤ array_vec_len out.old + I.MAX_STR_LEN }
{
    let mut digits = Buffer::new();
    let spelt = digits.format(n).as_bytes();
    put_word(spelt, out);
}

/// Writes `n` in decimal into `line` so that it ends at `end`, before which there is room for the longest, and answers
/// where it starts.
pub fn write_before(n: i32, line: &mut [u8], end: usize) -> usize
    requires room { 11 ≤ end }
    requires within { end ≤ length line.old }
    ensures start { result ≤ end }
    ensures short { end ≤ result + 11 }
    ensures written { drop result line.new ≡ signed_decimal n ++ drop end line.old }
{
    let start = itoa::write_digits(u64::from(n.unsigned_abs()), line, end);
    if 0 <= n {
        return start;
    }
    line[start - 1] = b'-';
    start - 1
}

/// Writes all of `out` to `to`.
pub fn write_out<W: Write>(to: &mut W, out: &[u8]) -> Result<()>
    ensures { OnOk result (Appends (W.contents to.old) (W.contents to.new) out.now) }
{
    to.write_all(out)
}

/// What a call of `read_full` did: how many bytes lie at the front of the buffer, and whether a read failed.
// Not a `Result`: the bytes that came before a failed read are in the buffer, too, and are counted.
#[derive(Clone, Copy)]
pub struct Filled {
    /// How many bytes lie at the front of the buffer.
    pub bytes: usize,
    /// Whether a read failed, behind those bytes.
    pub failed: bool,
}

/// Reads until `buf` is full, the input ends or a read fails. A read that a signal interrupts counts as one that failed.
pub fn read_full<R: Read>(from: &mut R, buf: &mut [u8]) -> Filled
    ensures prefix_len { IsPrefixLen result.bytes buf.new }
    ensures bytes { Consumes (R.remaining from.old) (R.remaining from.new) (take result.bytes buf.new) }
    ensures end { result.failed ≡ false → result.bytes < length buf.new → IsAtEnd (R.remaining from.new) }
    ensures room { result.failed ≡ true → result.bytes < length buf.new }
{
    let mut bytes = 0;
    // `while`: each read says how many bytes it gave.
    while bytes < buf.len() {
        match from.read(&mut buf[bytes..]) {
            Ok(0) => break,
            Ok(n) => bytes += n,
            Err(_) => {
                return Filled {
                    bytes,
                    failed: true,
                };
            }
        }
    }
    Filled {
        bytes,
        failed: false,
    }
}
