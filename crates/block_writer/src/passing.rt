//! A writer that passes bytes on in blocks.
ghost use Rattle.std.specs.Prelude.{◌≡◌, []};
ghost use Rattle.std.specs.Io.KnownBytes.{Keeps};
ghost use Rattle.block_writer.specs.Waiting.{waiting};
ghost use Rattle.block_writer.specs.Blocks.{blocks_contents};

use crate::buffer::Block;
use counted_writer::{ShortWrite, put};
use std::io;
use std::io::Write;

#[derive(Drop)]
pub(crate) struct Blocks<'o, W: Write> {
    pub(crate) out: &'o mut W,
    pub(crate) block: Block,
    /// A write failed or took no byte, so nothing more is written.
    pub(crate) failed: bool,
}

impl<'o, W: Write> Blocks<'o, W> {
    pub(crate) fn new(out: &'o mut W) -> Blocks<'o, W>
        ensures same_reference { result.out.ghost_name ≡ out.entry.ghost_name }
        ensures same { result.out.now ≡ out.old }
        ensures empty { waiting result.block ≡ [] }
        ensures none { result.block.given ≡ 0 }
    {
        Blocks {
            out,
            block: Block::new(),
            failed: false,
        }
    }

    /// Writes the bytes that wait to `out`.
    fn pass_on(&mut self)
        ensures { Keeps (blocks_contents W.contents self.old)
            (blocks_contents W.contents self.new) }
    {
        match put(self.out, 0, self.block.as_slice()) {
            Ok(passed) => self.block.remove(passed as usize),
            Err(short) => {
                self.block.remove(short.written as usize);
                self.failed = true;
            }
        }
    }
}

impl<W: Write> Write for Blocks<'_, W> {
    ghost contents = { blocks_contents W.contents };

    /// Takes bytes into the block. After a failure the block stays full, so it takes none.
    fn write(&mut self, buf: &[u8]) -> io::Result<usize> {
        if !self.failed && self.block.is_full() {
            self.pass_on();
        }
        Ok(self.block.take(buf))
    }

    /// Does nothing: the bytes that wait stay in the block.
    fn flush(&mut self) -> io::Result<()> {
        Ok(())
    }
}
