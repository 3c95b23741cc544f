//! The characters of EBCDIC codes.
ghost use Rattle.std.specs.Prelude.{◌≡◌, IfOk};
ghost use Rattle.std.specs.String.{string_bytes};
ghost use Rattle.s3_json_lines.specs.Inner.Characters.{text_of};

use s3_cards::host_byte;
use std::alloc::{AllocError, Global};

/// The characters of EBCDIC codes, `?` for a code that has none. It is refused only if memory runs out.
pub fn text_of_codes(alloc: Global, codes: &[u8]) -> Result<String, AllocError>
    ensures { IfOk result (λ text. string_bytes text ≡ text_of codes.now) }
{
    let mut text = String::new(alloc);
    for code in codes {
        text.push(char::from(host_byte(*code)))?;
    }
    Ok(text)
}
