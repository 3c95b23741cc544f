//! Standard input, read to its end: the table of `load`, and the dump of `restore`.
ghost use Rattle.std.specs.Prelude.{◌≡◌, ◌<◌, ◌≤◌, ℕ, List, Some, length, vec_len, IfOk, IfErr};
ghost use Rattle.s3_data_commands.specs.declared.standard_input.InputFault.TheVariants.{TooLong};

use std::alloc::Global;
use std::io;
use std::io::{ErrorKind, Read};

/// The most bytes of a table or a dump, 16 for each byte of the largest pack. `dump` writes at most 6 bytes for each byte of its pack, and
/// some for notes. A row has at most 6 bytes for each byte of its record and 2 at its end, apart from blanks, zeros and empty lines that
/// change nothing.
const INPUT_LIMIT: usize = 268_435_456;

/// Why an input isn't read.
#[derive(Clone, Copy)]
pub enum InputFault {
    /// It has more bytes than the limit.
    TooLong,
    /// A read failed, for this reason.
    Failed(io::Error),
    /// Memory ran out.
    NoMemory,
}

/// All bytes that a reader gives, if they are no more than the limit. At most one byte more is read.
pub fn read_input<R: Read + Drop>(alloc: Global, reader: R) -> Result<Vec<u8>, InputFault>
    ensures all { IfOk result (λ bytes. (given : List ℕ) → R.remaining reader ≡ Some given → bytes.items ≡ given) }
    ensures short { IfOk result (λ bytes. vec_len bytes ≤ 268435456) }
    ensures long { IfErr result (λ fault. fault ≡ TooLong → (given : List ℕ) → R.remaining reader ≡ Some given → 268435456 < length given) }
{
    let mut bytes = Vec::new(alloc);
    let mut begun = reader.take(INPUT_LIMIT as u64 + 1);
    match begun.read_to_end(&mut bytes) {
        Ok(_) if bytes.len() > INPUT_LIMIT => Err(InputFault::TooLong),
        Ok(_) => Ok(bytes),
        Err(error) if error.kind() == ErrorKind::OutOfMemory => Err(InputFault::NoMemory),
        Err(error) => Err(InputFault::Failed(error)),
    }
}
