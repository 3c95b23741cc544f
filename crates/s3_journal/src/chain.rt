//! The chain: each line has the checksum of the line before it.
ghost use Rattle.std.specs.Prelude.{◌≡◌, IfOk};
ghost use Rattle.std.specs.Str.{bytes_eq};
ghost use Rattle.std.specs.String.{string_bytes};
ghost use Rattle.s3_journal.specs.Inner.Digests.{digest_of};

use sha2::{Digest, Sha256};
use std::alloc::{AllocError, Global};

/// The SHA-256 digest of a text, in 64 hexadecimal digits.
#[tactic(auto, unfolding(crate::specs::Inner::Digests::digest_of))]
pub fn checksum_of(alloc: Global, text: &[u8]) -> Result<String, AllocError>
    ensures { IfOk result (λ sum. string_bytes sum ≡ digest_of text.now) }
{
    hex::encode(alloc, Sha256::digest(text))
}

/// Whether a line names the line before it, by its checksum. The first line names an empty text.
pub(crate) fn follows(alloc: Global, previous: &str, before: &str) -> Result<bool, AllocError>
    ensures { IfOk result (λ is. is ≡ bytes_eq previous.now (digest_of before.now)) }
{
    let sum = checksum_of(alloc, before.as_bytes())?;
    Ok(previous == sum.as_str())
}
