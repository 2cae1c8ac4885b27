//! Writers that run full, take few bytes per call or are interrupted once.
ghost use Rattle.std.specs.Prelude.{◌≡◌, IfOk};

use std::alloc::Global;
use std::io;
use std::io::{ErrorKind, Write};

mod counted;
mod reports;
mod values;

/// What a writer does when its room is used up.
#[derive(Clone, Copy)]
pub enum End {
    Fails,
    TakesNone,
    IsInterruptedOnce,
}

pub static ENDS: [End; 3] = [End::Fails, End::TakesNone, End::IsInterruptedOnce];

/// Takes at most `step` bytes per call as long as there is room, and then ends in its way.
#[derive(Drop)]
pub struct Narrow {
    pub taken: Vec<u8>,
    step: usize,
    room: usize,
    end: End,
    /// How often it took no byte.
    pub refusals: u64,
}

impl Narrow {
    pub fn new(alloc: Global, step: usize, room: usize, end: End) -> Narrow {
        Narrow {
            taken: Vec::new(alloc),
            step,
            room,
            end,
            refusals: 0,
        }
    }

    fn refuse(&mut self) -> io::Result<usize>
        ensures { IfOk result (λ n. n ≡ 0) }
    {
        self.refusals = self.refusals.saturating_add(1);
        match self.end {
            End::Fails => Err(io::Error::from(ErrorKind::BrokenPipe)),
            End::TakesNone => Ok(0),
            End::IsInterruptedOnce => {
                self.room = usize::MAX;
                Err(io::Error::from(ErrorKind::Interrupted))
            }
        }
    }
}

impl Write for Narrow {
    fn write(&mut self, buf: &[u8]) -> io::Result<usize> {
        let count = buf.len().min(self.step).min(self.room);
        if count == 0 {
            return self.refuse();
        }
        self.taken.extend_from_slice(&buf[..count])?;
        self.room -= count;
        Ok(count)
    }

    fn flush(&mut self) -> io::Result<()> {
        Ok(())
    }
}
