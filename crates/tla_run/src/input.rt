//! The input files.
ghost use Rattle.std.specs.Prelude.{◌≡◌, ◌≤◌, ◌*◌, ◌-◌, length, IfOk, IfSome, OnOk, vec_len};
ghost use Rattle.std.specs.Io.KnownBytes.{IsAtEnd};
ghost use Rattle.tla_run.specs.declared.input.ReadFault.TheVariants.{Memory, Endless};

use std::alloc::{AllocError, AllocFailed, Global};
use std::io::Read;

const MOST_READS: u32 = 1_000_000;

const BUFFER_BYTES: usize = 65_536;

/// Why a file wasn't read whole.
#[derive(Clone, Copy, Debug, PartialEq, Eq)]
pub enum ReadFault {
    /// A read failed.
    Failed,
    /// The end was not reached within a million reads.
    Endless,
    Memory,
}

impl<T: Drop> From<AllocFailed<T>> for ReadFault {
    ghost from_gives = { λ _ f. f ≡ Memory };

    fn from(_error: AllocFailed<T>) -> ReadFault {
        ReadFault::Memory
    }
}

impl From<AllocError> for ReadFault {
    ghost from_gives = { λ _ f. f ≡ Memory };

    fn from(_error: AllocError) -> ReadFault {
        ReadFault::Memory
    }
}

/// The bytes of the reader up to its end, in at most 1,000,000 reads of up to 65,536 bytes. After a fault some of its
/// bytes are lost.
pub fn read_whole<R: Read>(alloc: Global, reader: &mut R) -> Result<Vec<u8>, ReadFault>
    ensures bytes { IfOk result (λ v. IfSome (R.remaining reader.old) (λ bytes. v.items ≡ bytes)) }
    ensures end { OnOk result (IsAtEnd (R.remaining reader.new)) }
    ensures size { IfOk result (λ v. vec_len v ≤ (MOST_READS - 1) * BUFFER_BYTES) }
    ensures endless { result ≡ Err Endless
        → IfSome (R.remaining reader.old) (λ bytes. MOST_READS ≤ length bytes) }
{
    let mut buffer = vec![in alloc; 0u8; BUFFER_BYTES]?;
    read_through(alloc, reader, buffer.as_mut_slice())
}

/// The same, by reads into this buffer.
fn read_through<R: Read>(
    alloc: Global,
    reader: &mut R,
    buffer: &mut [u8],
) -> Result<Vec<u8>, ReadFault>
    requires { length buffer.old ≡ BUFFER_BYTES }
    ensures bytes { IfOk result (λ v. IfSome (R.remaining reader.old) (λ bytes. v.items ≡ bytes)) }
    ensures end { OnOk result (IsAtEnd (R.remaining reader.new)) }
    ensures size { IfOk result (λ v. vec_len v ≤ (MOST_READS - 1) * BUFFER_BYTES) }
    ensures endless { result ≡ Err Endless
        → IfSome (R.remaining reader.old) (λ bytes. MOST_READS ≤ length bytes) }
{
    let mut bytes = Vec::new(alloc);
    for _ in 0..MOST_READS {
        let Ok(count) = reader.read(buffer) else {
            return Err(ReadFault::Failed);
        };
        if count == 0 {
            return Ok(bytes);
        }
        bytes.extend_from_slice(&buffer[..count])?;
    }
    Err(ReadFault::Endless)
}
