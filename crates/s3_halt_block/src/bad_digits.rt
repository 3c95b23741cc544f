//! The bad digits of a number.

use s3_decks::Columns;
use s3_lines::sheet::{FieldForm, FieldLine};
use std::alloc::{AllocError, Global};

/// The bytes of a number that have a bad digit, by their positions in its record.
pub(crate) fn bad_digits(
    alloc: Global,
    field: &FieldLine,
    record: &[u8],
) -> Result<Vec<Columns>, AllocError> {
    let mut bad = Vec::new(alloc);
    for position in field.from..=field.to {
        if has_bad_digit(field, record, position) {
            bad.push(Columns {
                from: usize::from(position),
                to: usize::from(position),
            })?;
        }
    }
    Ok(bad)
}

/// Whether a byte of a number, by its position in the record, has a bad digit.
fn has_bad_digit(field: &FieldLine, record: &[u8], position: u16) -> bool {
    let Some(byte) = record.get(usize::from(position).wrapping_sub(1)) else {
        return false;
    };
    let high = *byte / 16;
    let low = *byte % 16;
    match field.form {
        FieldForm::Zoned(_) => low > 9,
        // the low half of the last byte is the sign
        FieldForm::Packed(_) => high > 9 || (low > 9 && position < field.to),
        FieldForm::Alphanumeric | FieldForm::PackedText => false,
    }
}
