//! Parts of bytes.
ghost use Rattle.std.specs.Prelude.{◌≡◌, ◌≤◌, ◌+◌, length};
ghost use Rattle.s3_store.specs.Bytes.{part};
ghost use Rattle.s3_store.specs.Inner.Bytes.{with_part};

/// Fills `piece` with the bytes that begin at place `at`, from 0. There must be enough bytes from there on.
pub fn take_part(bytes: &[u8], at: usize, piece: &mut [u8])
    requires { at + length piece.old ≤ length bytes.now }
    ensures { piece.new ≡ part bytes.now at (length piece.old) }
{
    piece.copy_from_slice(&bytes[at..at + piece.len()]);
}

/// Writes `piece` over the bytes that begin at place `at`, from 0; so many must follow there.
pub fn put_part(bytes: &mut [u8], at: usize, piece: &[u8])
    requires { at + length piece.now ≤ length bytes.old }
    ensures { bytes.new ≡ with_part bytes.old at piece.now }
{
    bytes[at..at + piece.len()].copy_from_slice(piece);
}
