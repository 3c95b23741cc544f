//! Codes as characters.

use s3_cards::{Name, to_host, trim_end};
use std::alloc::AllocError;

/// Appends the characters of EBCDIC codes, `?` for one that has none.
pub fn push_characters(text: &mut String, codes: &[u8]) -> Result<(), AllocError> {
    for code in codes {
        text.push(to_host(*code).unwrap_or('?'))?;
    }
    Ok(())
}

/// Appends a name without the blanks at its end.
pub fn push_name(text: &mut String, name: Name) -> Result<(), AllocError> {
    push_characters(text, trim_end(&name.codes))
}
