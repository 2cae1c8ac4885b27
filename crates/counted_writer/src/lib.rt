//! Counted writes: a loop over `write` that never retries, and reports how many bytes were written, also after a
//! failure.
#![tactic(auto)]

ghost use Rattle.counted_writer.specs.Puts.{Puts};

use itoa::{Buffer, Integer};
use std::io::Write;

/// A write failed or took no byte.
#[derive(Clone, Copy, Debug, PartialEq, Eq)]
pub struct ShortWrite {
    /// How many bytes were written before the failure; `u64::MAX` means that many or more.
    pub written: u64,
}

/// Writes all the bytes and returns `written` plus their number.
///
/// `written` is the number of bytes written before; the sum saturates at `u64::MAX`. The first write that fails, for
/// whatever reason, or that takes no byte, ends the call with an error. Allocates nothing.
pub fn put<W: Write>(out: &mut W, mut written: u64, bytes: &[u8]) -> Result<u64, ShortWrite>
    ensures { Puts (W.contents out.old) (W.contents out.new) written bytes.now result }
{
    let mut from = 0;
    while from < bytes.len() {
        match out.write(&bytes[from..]) {
            Ok(0) | Err(_) => return Err(ShortWrite { written }),
            Ok(taken) => {
                written = written.saturating_add(taken as u64);
                from += taken;
            }
        }
    }
    Ok(written)
}

/// Writes the decimal digits of a number, with `-` before a negative one, as [`put`] does.
pub fn put_number<W: Write, I: Integer>(
    out: &mut W,
    written: u64,
    number: I,
) -> Result<u64, ShortWrite>
    ensures { Puts (W.contents out.old) (W.contents out.new) written (I.text number) result }
{
    let mut buffer = Buffer::new();
    put(out, written, buffer.format(number).as_bytes())
}
