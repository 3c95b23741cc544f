//! Why an output field doesn't fit (diagnostic 08 of O cards).

use crate::phrases::{Entry, push_entry, push_shape};
use s3_blame::Known;
use s3_cards::Card;
use s3_edit::EditCode;
use s3_lines::sheet::{OutputContent, OutputField, OutputForm, Shape};
use std::alloc::AllocError;

const NAME: Entry = Entry { from: 32, to: 37 };

/// Why a field can't be written so.
#[derive(Clone, Copy)]
enum Cause {
    /// An edit code is used for a text.
    EditedText,
    /// Y is used for a number that isn't a date.
    NoDate,
    /// P is used for a text.
    PackedText,
    /// The end position is too low.
    NoSpace,
}

fn cause_of(form: OutputForm, shape: Shape) -> Cause {
    match (form, shape) {
        (OutputForm::Packed, Shape::Alphanumeric(_)) => Cause::PackedText,
        (OutputForm::Edited(_), Shape::Alphanumeric(_)) => Cause::EditedText,
        (OutputForm::Edited(EditCode::Date), Shape::Numeric(digits, decimals))
            if digits != 6 || decimals != 0 => Cause::NoDate,
        _ => Cause::NoSpace,
    }
}

fn words_of(cause: Cause) -> &'static str {
    match cause {
        Cause::EditedText => "; an edit code takes a number",
        Cause::NoDate => "; edit code Y takes 6 digits without decimals",
        Cause::PackedText => "; P in column 44 takes a number",
        Cause::NoSpace =>
            "; it would begin before position 1, so raise the end position in columns 40 to 43",
    }
}

/// Appends why a field can't be written as its card says.
pub fn push_output_reason(
    text: &mut String,
    known: &Known,
    card: &Card,
    field: &OutputField,
) -> Result<(), AllocError> {
    let OutputContent::Field(put) = &field.content else {
        return Ok(());
    };
    let Some(shape) = known.field(put.name) else {
        return Ok(());
    };
    push_entry(text, card, NAME)?;
    text.push_str(" is ")?;
    push_shape(text, shape)?;
    text.push_str(words_of(cause_of(put.form, shape)))
}
