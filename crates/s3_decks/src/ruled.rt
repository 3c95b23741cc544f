//! Cards under a ruler.

use crate::characters::push_characters;
use s3_cards::trim_end;
use std::alloc::AllocError;

/// What each line begins with.
const MARGIN: &'static str = "    ";

/// Columns that are marked, from 1.
#[derive(Clone, Copy)]
pub struct Columns {
    /// The first one.
    pub from: usize,
    /// The last one, no less than the first.
    pub to: usize,
}

/// Appends EBCDIC codes under a ruler of columns, without the blanks at their end. The ruler has so many columns at least.
pub fn push_under_ruler(text: &mut String, codes: &[u8], columns: usize) -> Result<(), AllocError> {
    let shown = trim_end(codes);
    push_ruler(text, shown.len().max(columns))?;
    text.push_str(MARGIN)?;
    push_characters(text, shown)?;
    text.push('\n')
}

/// Appends EBCDIC codes under a ruler of columns, without the blanks at their end, and a line that marks some columns, if
/// any are to be marked.
pub fn push_ruled(text: &mut String, codes: &[u8], marked: &[Columns]) -> Result<(), AllocError> {
    let last = last_marked(marked);
    push_under_ruler(text, codes, last)?;
    if last == 0 {
        return Ok(());
    }
    text.push_str(MARGIN)?;
    push_marks(text, marked)?;
    text.push('\n')
}

/// The last column that is marked; 0 if none is.
fn last_marked(marked: &[Columns]) -> usize {
    let mut last = 0;
    for columns in marked {
        last = columns.to.max(last);
    }
    last
}

/// Appends a line with a ruler, `....5...10` and so on, over so many columns.
pub fn push_ruler(text: &mut String, columns: usize) -> Result<(), AllocError> {
    text.push_str(MARGIN)?;
    for fifth in 0..columns.div_ceil(5) {
        let column = fifth.saturating_add(1).saturating_mul(5);
        if column < 10 {
            write!(text, "....{column}")?;
        } else if column < 100 {
            write!(text, "...{column}")?;
        } else {
            write!(text, "..{column}")?;
        }
    }
    text.push('\n')
}

/// Appends `^` under each column that is marked, and blanks under those between them. Nothing is appended if none is marked.
pub fn push_marks(text: &mut String, marked: &[Columns]) -> Result<(), AllocError> {
    for place in 0..last_marked(marked) {
        text.push(if is_marked(marked, place) { '^' } else { ' ' })?;
    }
    Ok(())
}

/// Whether the column at a place, from 0, is marked.
fn is_marked(marked: &[Columns], place: usize) -> bool {
    marked.iter().any(|columns| columns.from <= place.saturating_add(1) && place < columns.to)
}
