//! Writing in blocks: many small writes become few large ones, and the number of written bytes stays exact.
#![tactic(auto)]

ghost use Rattle.std.specs.Prelude.{◌≡◌, List, ℕ, OnOk, IfErr};
ghost use Rattle.std.specs.Io.KnownBytes.{Appends};
ghost use Rattle.counted_writer.specs.Puts.{Puts, AddsFirst, count_of};
ghost use Rattle.block_writer.specs.Waiting.{waiting};
ghost use Rattle.block_writer.specs.Sends.{Sends};

use crate::buffer::Block;
use crate::passing::Blocks;
use counted_writer::{ShortWrite, put};
use std::io;
use std::io::Write;

mod buffer;
mod passing;

/// A byte string that can be written to any writer, by counted writes.
pub trait Document {
    ghost bytes: { Self → List ℕ };

    /// Writes all the bytes. The first write that fails or takes no byte ends the call.
    fn put_on<W: Write>(&self, out: &mut W) -> Result<u64, ShortWrite>
        ensures { Puts (W.contents out.old) (W.contents out.new) 0 (bytes self.now) result };
}

/// Writes the document in blocks of 4,096 bytes; only the last block may be shorter.
///
/// A short write is continued. The first write that fails or takes no byte ends the call with an error, and nothing is
/// written after it. The document is produced twice, the first time only to count its bytes; if there are `u64::MAX` or
/// more, it is written without blocks. Allocates nothing.
pub fn put_in_blocks<D: Document, W: Write>(document: &D, out: &mut W) -> Result<(), ShortWrite>
    ensures ok { OnOk result
        (Appends (W.contents out.old) (W.contents out.new) (D.bytes document.now)) }
    ensures fault { IfErr result (λ e.
        AddsFirst (W.contents out.old) (W.contents out.new) (D.bytes document.now) e.written) }
{
    if is_countable(document) {
        return put_blocks(document, out);
    }
    match document.put_on(out) {
        Ok(_) => Ok(()),
        Err(short) => Err(short),
    }
}

/// Whether the document has fewer than `u64::MAX` bytes, so that its count is exact.
fn is_countable<D: Document>(document: &D) -> bool {
    matches!(document.put_on(&mut io::sink()), Ok(length) if length < u64::MAX)
}

/// Writes a document of fewer than `u64::MAX` bytes.
fn put_blocks<D: Document, W: Write>(document: &D, out: &mut W) -> Result<(), ShortWrite>
    ensures ok { OnOk result
        (Appends (W.contents out.old) (W.contents out.new) (D.bytes document.now)) }
    ensures fault { IfErr result (λ e.
        AddsFirst (W.contents out.old) (W.contents out.new) (D.bytes document.now) e.written) }
{
    let Sent {
        given,
        block,
        failed,
    } = put_full_blocks(document, out);
    let rest = block.as_slice();
    let before = count_of(given) - rest.len() as u64;
    if given.is_err() || failed && !rest.is_empty() {
        return Err(ShortWrite { written: before });
    }
    put(out, before, rest)?;
    Ok(())
}

/// The state after a document was written to [`Blocks`].
#[derive(Drop)]
struct Sent {
    /// The result of the document's call.
    given: Result<u64, ShortWrite>,
    /// The last bytes, not yet written.
    block: Block,
    /// A write failed or took no byte.
    failed: bool,
}

/// Writes all but the last block.
fn put_full_blocks<D: Document, W: Write>(document: &D, out: &mut W) -> Sent
    ensures { Sends (W.contents out.old) (W.contents out.new) (D.bytes document.now)
        (waiting result.block) result.given }
{
    let mut blocks = Blocks::new(out);
    let given = document.put_on(&mut blocks);
    let Blocks {
        out: _,
        mut block,
        failed,
    } = blocks;
    // A no-op: the block holds no more bytes. The proof has that only if the contents of `out` are known.
    block.keep_last(count_of(given));
    Sent {
        given,
        block,
        failed,
    }
}

/// The count of a result.
fn count_of(given: Result<u64, ShortWrite>) -> u64
    ensures { result ≡ count_of given }
{
    match given {
        Ok(count) => count,
        Err(short) => short.written,
    }
}
