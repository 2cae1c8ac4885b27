//! Reading whole files.

use std::io;
use std::io::{ErrorKind, Read};
use tla_run::{ReadFault, read_whole};

/// Returns `left` bytes, at most `most` per read, and then the end or a failure.
#[derive(Drop)]
struct Source {
    left: usize,
    most: usize,
    fails: bool,
    reads: usize,
    room: usize,
}

impl Read for Source {
    fn read(&mut self, buf: &mut [u8]) -> io::Result<usize> {
        self.reads = self.reads.saturating_add(1);
        self.room = buf.len();
        let count = self.left.min(self.most).min(buf.len());
        if count == 0 && self.fails {
            return Err(io::Error::from(ErrorKind::Other));
        }
        buf[..count].fill(b'a');
        self.left -= count;
        Ok(count)
    }
}

/// The bytes of a source, the most per read, whether it fails then, the result, and the number of reads.
static SOURCES: [(usize, usize, bool, Result<usize, ReadFault>, usize); 6] = [
    (0, 3, false, Ok(0), 1),
    (10, 3, false, Ok(10), 5),
    (200_000, 100_000, false, Ok(200_000), 5),
    (10, 3, true, Err(ReadFault::Failed), 5),
    (999_999, 1, false, Ok(999_999), 1_000_000),
    (usize::MAX, 1, false, Err(ReadFault::Endless), 1_000_000),
];

#[test]
fn reads_to_the_end_and_tells_why_it_stopped(rt: HostRuntime) {
    for &(left, most, fails, answer, reads) in &SOURCES {
        let mut source = Source {
            left,
            most,
            fails,
            reads: 0,
            room: 0,
        };
        let read = read_whole(rt.alloc(), &mut source);
        if let Ok(bytes) = &read {
            assert!(rt; bytes.iter().all(|b| *b == b'a'), "{left}, {most}");
        }
        assert!(rt; read.map(|bytes| bytes.len()) == answer, "{left}, {most}");
        assert!(rt;
            source.reads == reads && source.room == 65_536,
            "{left}, {most}"
        );
        assert!(rt; source.left == 0 || answer == Err(ReadFault::Endless));
    }
}
