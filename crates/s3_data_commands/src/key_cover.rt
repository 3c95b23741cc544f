//! Whether a layout has a field in which the key of its file is.

use crate::fault::Fault;
use crate::filled::push_shown_name;
use crate::pack_words::refused;
use s3_cells::Field;
use s3_host_files::shown_name;
use s3_layout::SourceLayout;
use s3_lines::sheet::KeyField;
use std::alloc::{AllocError, Global};

/// Refuses the layout of the deck at a path if its file has a key within the records, and no field has a position of the key: then all rows
/// of a table would have the same key.
pub fn test_key(rt: &HostRuntime, path: &str, layout: &SourceLayout) -> Result<(), Fault> {
    match layout.key {
        Some(key) if is_bare(key, layout.layout.record_length, &layout.layout.fields) => {
            Err(refused(bare_sentence(rt.alloc(), path, key)))
        }
        _ => Ok(()),
    }
}

/// Whether a key is within records of a length, and none of some fields has a position of it.
fn is_bare(key: KeyField, record_length: u16, fields: &[Field]) -> bool {
    last_of(key) <= u32::from(record_length) && fields.iter().all(|field| is_apart(key, field))
}

/// Whether a field has no position of a key.
fn is_apart(key: KeyField, field: &Field) -> bool {
    let before = u32::from(field.start);
    let last = before + u32::from(field.width);
    last < u32::from(key.start) || last_of(key) <= before
}

/// The last position of a key, from 1; one less than its first if it has no length.
fn last_of(key: KeyField) -> u32 {
    (u32::from(key.start) + u32::from(key.length)).saturating_sub(1)
}

/// Why the layout of the deck at a path isn't used for a table, and what helps.
fn bare_sentence(alloc: Global, path: &str, key: KeyField) -> Result<String, AllocError> {
    let (first, last) = (key.start, last_of(key));
    let mut text = String::new(alloc);
    text.push_str("the key of the file is in ")?;
    if key.length == 1 {
        write!(text, "position {first}")?;
    } else {
        write!(text, "positions {first} to {last}")?;
    }
    text.push_str(", and no field of the layout in ")?;
    push_shown_name(&mut text, shown_name(path))?;
    text.push_str(if key.length == 1 {
        " has it; add an I card with a field of this position"
    } else {
        " has them; add an I card with a field of these positions"
    })?;
    Ok(text)
}
