//! The memory that a process has in use.

use std::fs;
use std::io::Read;

/// The file in which Linux says how much memory a process has in use.
const STATUS: &str = "/proc/self/status";

/// A source for the memory that the process has in use.
pub trait Memory {
    /// The memory in use, in kilobytes. None if it isn't known.
    fn in_use(&self) -> Option<u64>;
}

/// A source that never knows the memory in use.
#[derive(Clone, Copy, Debug)]
pub struct NoMemory;

impl Memory for NoMemory {
    fn in_use(&self) -> Option<u64> {
        None
    }
}

/// The memory of this process, on Linux.
///
/// It takes the concrete `HostRuntime`, since several threads share it: a runtime that is only known to have files
/// isn't known to be `Sync`.
#[derive(Drop)]
pub struct ProcessMemory<'a> {
    rt: &'a HostRuntime,
}

impl<'a> ProcessMemory<'a> {
    pub fn new(rt: &'a HostRuntime) -> ProcessMemory<'a> {
        ProcessMemory { rt }
    }
}

impl Memory for ProcessMemory<'_> {
    fn in_use(&self) -> Option<u64> {
        let mut file = fs::open(self.rt, STATUS).ok()?;
        let mut text = [0u8; 4096];
        let count = file.read(&mut text).ok()?;
        resident_kilobytes(str::from_utf8(text.get(..count)?).ok()?)
    }
}

/// The kilobytes in the line `VmRSS:    1234 kB`.
fn resident_kilobytes(status: &str) -> Option<u64> {
    for line in status.lines() {
        if let Some(rest) = line.strip_prefix("VmRSS:") {
            return rest.split_whitespace().next()?.parse().ok();
        }
    }
    None
}
