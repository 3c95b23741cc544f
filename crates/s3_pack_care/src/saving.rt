//! The bytes of a changed pack: its sectors, and what the old pack has after the last one.
ghost use Rattle.std.specs.Prelude.{◌≡◌, ◌*◌, ◌++◌, length, drop, IfOk};
ghost use Rattle.std.specs.List.{concat};
ghost use Rattle.s3_store.specs.Contents.{sectors_of};
ghost use Rattle.s3_labels.specs.Contents.{contents_of};

use s3_store::MemoryStore;
use std::alloc::AllocError;

/// The bytes of a pack after its last sector: fewer than 256, unless the pack has more than 65,535 sectors.
pub fn bytes_after(pack: &[u8]) -> &[u8]
    ensures { result.now ≡ drop (256 * length (contents_of pack.now)) pack.now }
{
    let sectors = (pack.len() / 256).min(65_535);
    &pack[sectors * 256..]
}

/// The bytes of a pack with these sectors and these bytes after the last one.
pub fn saved(store: MemoryStore, after: &[u8]) -> Result<Vec<u8>, AllocError>
    ensures bytes { IfOk result (λ bytes. bytes.items ≡ concat store ++ after.now) }
    ensures sectors { sectors_of (concat store) ≡ store }
{
    let mut bytes = store.into_bytes();
    bytes.extend_from_slice(after)?;
    Ok(bytes)
}
