//! Fields by their names.
ghost use Rattle.std.specs.Prelude.{IfSome};
ghost use Rattle.s3_load.specs.Inner.Columns.{IsNamed};

use crate::columns::is_name_of;
use indexmap::IndexMap;
use s3_cards::ebcdic::BLANK;
use s3_cards::{Name, code_of_byte};
use s3_cells::Field;
use std::alloc::{AllocError, Global};

/// The places of fields in their list, by their names, and which names are taken. Nothing is proved of it: each field that is
/// found is compared with the text that names it.
#[derive(Drop)]
pub struct FieldNames {
    /// The place of the first field of each name, from 0.
    places: IndexMap<Name, usize>,
    /// Whether the field at a place is taken.
    taken: Vec<bool>,
}

impl FieldNames {
    /// The names of these fields, none of which is taken.
    pub fn of(alloc: Global, fields: &[Field]) -> Result<FieldNames, AllocError> {
        let mut places = IndexMap::new(alloc);
        for (place, field) in fields.iter().enumerate() {
            if !places.contains_key(&field.name) {
                places.insert(field.name, place)?;
            }
        }
        let taken = vec![in alloc; false; fields.len()]?;
        Ok(FieldNames { places, taken })
    }

    /// The field that a text names, if there is one.
    pub fn field_of(&self, fields: &[Field], text: &[u8]) -> Option<Field>
        ensures { IfSome result (IsNamed fields.now text.now) }
    {
        let Some(name) = name_in(text) else {
            return None;
        };
        let Some(place) = self.place_of(name) else {
            return None;
        };
        field_at(fields, place, text)
    }

    /// Whether the field of a name is taken.
    pub fn is_taken(&self, name: Name) -> bool {
        match self.place_of(name) {
            Some(place) => matches!(self.taken.get(place), Some(true)),
            None => false,
        }
    }

    /// Takes the field of a name.
    pub fn take(&mut self, name: Name) {
        if let Some(place) = self.place_of(name)
            && place < self.taken.len()
        {
            self.taken[place] = true;
        }
    }

    /// The place of the first field of a name, from 0, if there is one.
    fn place_of(&self, name: Name) -> Option<usize> {
        match self.places.get(&name) {
            Some(place) => Some(*place),
            None => None,
        }
    }
}

/// The field at a place, if the text names it.
fn field_at(fields: &[Field], place: usize, text: &[u8]) -> Option<Field>
    ensures { IfSome result (IsNamed fields.now text.now) }
{
    if place < fields.len() && is_name_of(text, fields[place].name) {
        Some(fields[place])
    } else {
        None
    }
}

/// The name of these characters; none of a text that is no name.
fn name_in(text: &[u8]) -> Option<Name> {
    let mut codes = [BLANK; 8];
    if text.len() > codes.len() {
        return None;
    }
    for (place, character) in text.iter().enumerate() {
        match code_of_byte(*character) {
            Some(code) if place < 8 => codes[place] = code,
            _ => return None,
        }
    }
    Some(Name { codes })
}
