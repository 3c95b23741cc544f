//! What a CHAIN seeks: keys of bytes.
ghost use Rattle.std.specs.Prelude.{◌≡◌, ◌≤◌, length};
ghost use Rattle.s3_meaning.specs.Calculating.{zoned};

use crate::texts::MOST_DIGITS;
use arrayvec::ArrayVec;
use s3_decimal::{Dec, zoned_write};

/// The most bytes that a key has.
pub const KEY_BYTES: usize = 29;

/// A key of these bytes.
pub fn key_of(bytes: &[u8]) -> ArrayVec<u8, KEY_BYTES>
    requires { length bytes.now ≤ 29 }
    ensures { result.items ≡ bytes.now }
{
    match ArrayVec::try_from(bytes) {
        Ok(key) => key,
        Err(_) => unreachable!(),
    }
}

/// A key of the zoned bytes of a number.
pub fn zoned_key(number: Dec) -> ArrayVec<u8, KEY_BYTES>
    ensures { result.items ≡ zoned number.digits number.value }
{
    let mut buffer = [0; MOST_DIGITS];
    let digits = &mut buffer[..usize::from(number.digits)];
    zoned_write(number, digits);
    key_of(digits)
}
