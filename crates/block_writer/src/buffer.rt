//! A buffer of bytes that aren't written yet ("wait").
ghost use Rattle.std.specs.Prelude.{◌-◌, ◌<◌, ◌≤◌, ◌^◌};

/// The size of a block.
pub(crate) const SIZE: usize = 4096;

#[derive(Drop)]
pub(crate) struct Block {
    bytes: [u8; 4096],
    /// Where the bytes that wait begin.
    from: usize,
    /// Where they end.
    used: usize,
    /// How many bytes the block took in all, with those that it passed on.
    given: u64,
    ghost ordered: { from ≤ used },
    ghost in_range: { used ≤ 4096 },
    ghost counted: { used - from ≤ given },
    ghost fits: { given < 2 ^ 64 },
}

impl Block {
    ghost use Rattle.std.specs.Prelude.{◌≡◌, ◌+◌, ◌-◌, ◌≤◌, [], ◌++◌, length, take, drop, min};
    ghost use Rattle.block_writer.specs.Waiting.{waiting};

    pub(crate) fn new() -> Block
        ensures empty { waiting result ≡ [] }
        ensures none { result.given ≡ 0 }
    {
        Block {
            bytes: [0; 4096],
            from: 0,
            used: 0,
            given: 0,
        }
    }

    /// The bytes that wait.
    pub(crate) fn as_slice(&self) -> &[u8]
        ensures { result.now ≡ waiting self.now }
    {
        &self.bytes[self.from..self.used]
    }

    /// Whether no byte fits after the last.
    pub(crate) fn is_full(&self) -> bool {
        self.used == SIZE
    }

    /// Takes as many of the bytes as fit, from the first on, and returns how many. Takes at most `u64::MAX` in all.
    pub(crate) fn take(&mut self, bytes: &[u8]) -> usize
        ensures bound { result ≤ length bytes.now }
        ensures behind { waiting self.new ≡ waiting self.old ++ take result bytes.now }
        ensures counted { self.new.given ≡ self.old.given + result }
    {
        let mut taken = bytes.len().min(SIZE - self.used);
        if u64::MAX - self.given < taken as u64 {
            taken = 0;
        }
        let end = self.used + taken;
        self.bytes[self.used..end].copy_from_slice(&bytes[..taken]);
        self.used = end;
        self.given += taken as u64;
        taken
    }

    /// Removes the first bytes that wait.
    pub(crate) fn remove(&mut self, count: usize)
        requires { count ≤ length (waiting self.old) }
        ensures rest { waiting self.new ≡ drop count (waiting self.old) }
        ensures same { self.new.given ≡ self.old.given }
    {
        self.from += count;
        if self.from == self.used {
            self.from = 0;
            self.used = 0;
        }
    }

    /// Removes all but the last `count` bytes that wait.
    pub(crate) fn keep_last(&mut self, count: u64)
        ensures { let all = waiting self.old in
            waiting self.new ≡ drop (length all - min (length all) count) all }
    {
        let len = self.used - self.from;
        if count < len as u64 {
            self.remove(len - count as usize);
        }
    }
}
