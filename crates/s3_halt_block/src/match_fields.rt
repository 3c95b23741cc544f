//! The match fields and the control fields of a file's records.

use s3_cards::Name;
use s3_decks::Columns;
use s3_lines::sheet::{FieldLine, InputLine, Line, SheetLine};
use std::alloc::{AllocError, Global};

/// Which fields of a record are looked for.
#[derive(Clone, Copy)]
pub(crate) enum Sort {
    /// Match fields.
    Match,
    /// Control fields.
    Control,
}

impl Sort {
    /// Whether a field is of the sort.
    fn has(self, field: &FieldLine) -> bool {
        match self {
            Sort::Match => field.match_level.is_some(),
            Sort::Control => field.control_level.is_some(),
        }
    }
}

/// The places of the match fields, or of the control fields, of the types of a file's records.
pub(crate) fn level_fields(
    alloc: Global,
    lines: &[Line],
    file: Name,
    sort: Sort,
) -> Result<Vec<Columns>, AllocError> {
    let mut fields = Vec::new(alloc);
    let mut is_here = false;
    for line in lines {
        let SheetLine::Input(input) = &line.sheet else {
            continue;
        };
        match input {
            InputLine::Record(name, _, _) => is_here = *name == file,
            InputLine::Field(field) if is_here && sort.has(field) => {
                fields.push(Columns {
                    from: usize::from(field.from),
                    to: usize::from(field.to),
                })?;
            }
            InputLine::Field(_) | InputLine::And(_) | InputLine::Or(_, _) => {}
        }
    }
    Ok(fields)
}
