//! The lines of a card in a listing.

use crate::margin::{Margin, Numbers};
use s3_blame::diagnostic_words;
use s3_cards::{Card, trim_end};
use s3_decks::{Columns, push_characters, push_marks};
use s3_warnings::WarningKind;
use std::alloc::AllocError;

/// How many columns of a card a listing shows.
const SHOWN: usize = 80;

/// Appends the ruler that is over the cards.
pub fn push_ruler(text: &mut String, margin: Margin) -> Result<(), AllocError> {
    margin.push_blank(text)?;
    text.push_str(
        "....5...10...15...20...25...30...35...40...45...50...55...60...65...70...75...80\n",
    )
}

/// Appends a card after its numbers.
pub fn push_card(
    text: &mut String,
    margin: Margin,
    numbers: Numbers,
    card: &Card,
) -> Result<(), AllocError> {
    margin.push(text, numbers)?;
    let shown = trim_end(&card[..SHOWN]);
    if !shown.is_empty() {
        margin.push_gap(text, numbers)?;
        push_characters(text, shown)?;
    }
    text.push('\n')
}

/// Appends what is wrong with a card: marks under the columns to blame, and then the number and its options.
pub fn push_fault(
    text: &mut String,
    margin: Margin,
    number: u8,
    words: &str,
    marked: &[Columns],
) -> Result<(), AllocError> {
    push_marks_line(text, margin, marked)?;
    writeln!(text, "   {number:02}  {words}")
}

/// Appends why a card has a fault, under the text of the fault; nothing for an empty reason.
pub fn push_reason(text: &mut String, margin: Margin, reason: &str) -> Result<(), AllocError> {
    if reason.is_empty() {
        return Ok(());
    }
    margin.push_blank(text)?;
    writeln!(text, "{reason}")
}

/// Appends a diagnostic of a card.
pub fn push_diagnostic(
    text: &mut String,
    margin: Margin,
    number: u8,
    marked: &[Columns],
) -> Result<(), AllocError> {
    push_fault(text, margin, number, diagnostic_words(number), marked)
}

/// Appends a warning of a card: marks under its entries, and a line with W, the kind's number and its text.
pub fn push_warning(
    text: &mut String,
    margin: Margin,
    kind: WarningKind,
    marked: &[Columns],
) -> Result<(), AllocError> {
    let number = kind.number();
    let words = kind.words();
    push_marks_line(text, margin, marked)?;
    writeln!(text, "   W{number}  {words}")
}

/// Appends a line that marks columns, where any are to be marked.
fn push_marks_line(
    text: &mut String,
    margin: Margin,
    marked: &[Columns],
) -> Result<(), AllocError> {
    if marked.is_empty() {
        return Ok(());
    }
    margin.push_blank(text)?;
    push_marks(text, marked)?;
    text.push('\n')
}
