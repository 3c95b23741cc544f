//! Bounded reading.

ghost use Rattle.std.specs.Prelude.{◌≡◌, ◌<◌, ◌≤◌, ◌+◌, ◌^◌, IfOk, IfErr, IfSome, IsErrOf, length, vec_len, true};
ghost use Rattle.s3_cli.specs.declared.input.ReadFault.TheVariants.{TooLong, NoMemory};

use crate::watched::Source;
use std::alloc::{AllocError, Global};

/// The most bytes that are asked of a reader at once.
const CHUNK: usize = 4_096;

/// Why not all of a reader's bytes were kept.
#[derive(Clone, Copy)]
pub enum ReadFault {
    /// The reader gave more bytes than the limit.
    TooLong,
    /// A read failed.
    Failed,
    /// Memory ran out: the room was refused.
    NoMemory,
}

impl From<AllocError> for ReadFault {
    ghost from_gives = { λ _ fault. fault ≡ NoMemory };

    fn from(_error: AllocError) -> ReadFault {
        ReadFault::NoMemory
    }
}

/// Reads all that a reader gives, if that is at most `limit` bytes. Refused with `Failed` exactly if a read failed; no failed
/// read is tried again. Space for `limit` bytes is allocated at once, so that the bytes are never copied.
pub fn read_within<R: Source>(
    alloc: Global,
    reader: &mut R,
    limit: u32,
) -> Result<Vec<u8>, ReadFault>
    requires { limit + 1 < 2 ^ 32 }
    ensures all { IfOk result (λ bytes. IfSome (R.remaining reader.old) (λ given. bytes.items ≡ given)) }
    ensures short { IfOk result (λ bytes. vec_len bytes ≤ limit) }
    ensures long { IfErr result (λ fault. fault ≡ ReadFault.TooLong →
        IfSome (R.remaining reader.old) (λ given. limit < length given)) }
    ensures failed { IsErrOf result ReadFault.Failed → R.has_failed reader.new ≡ true }
    ensures works { ¬ IsErrOf result ReadFault.Failed → R.has_failed reader.new ≡ R.has_failed reader.old }
{
    let mut bytes = Vec::with_capacity(alloc, limit as usize)?;
    let mut chunk = [0u8; CHUNK];
    for _turn in 0..limit + 1 {
        let count = match reader.read(&mut chunk) {
            Ok(count) => count,
            Err(_) => return Err(ReadFault::Failed),
        };
        if count == 0 {
            return Ok(bytes);
        }
        bytes.extend_from_slice(&chunk[..count])?;
        if bytes.len() > limit as usize {
            return Err(ReadFault::TooLong);
        }
    }
    Err(ReadFault::TooLong)
}
