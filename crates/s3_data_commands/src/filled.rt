//! Sentences whose values come last: a sentence has the names of its values in braces, as `{path}`, and `Words` puts the values there. To
//! choose among such sentences takes no memory, so a function that chooses one of many can't fail before its end.

use s3_cards::{Name, host_byte, word_len};
use s3_host_files::shown_name;
use s3_labels::Area;
use s3_refusals::{Quoted, Shown};
use std::alloc::{AllocError, Global};

/// The values that a sentence can name.
#[derive(Clone, Copy)]
pub struct Words<'a> {
    /// `{path}`: the file of a pack, or of the deck that has a layout; `-` is standard input. `{given}`: the same as a shell takes it.
    path: &'a str,
    /// `{area}`: its number.
    area: Area,
    /// `{label}`: a file of the area, by its label, or in words by its slot.
    label: &'a str,
    /// `{number}`: a slot, or how many there are.
    number: u64,
    /// `{field}`: a field of a layout.
    field: Option<Name>,
    /// `{other}`: another one.
    other: Option<Name>,
}

impl<'a> Words<'a> {
    /// For a file of a pack.
    pub fn of_file(path: &'a str, area: Area, label: &'a str) -> Words<'a> {
        Words {
            path,
            area,
            label,
            number: 0,
            field: None,
            other: None,
        }
    }

    /// For a file of the host, as a pack or a deck; the sentence must not have `{area}`.
    pub fn of_path(path: &'a str) -> Words<'a> {
        Words::of_file(path, Area::Masters, "")
    }

    /// The same values, with a number.
    pub fn with_number(self, number: u64) -> Words<'a> {
        Words { number, ..self }
    }

    /// The same values, with fields of a layout.
    pub fn with_fields(self, field: Option<Name>, other: Option<Name>) -> Words<'a> {
        Words {
            field,
            other,
            ..self
        }
    }

    /// A sentence with each value in the place of its name.
    pub fn fill(self, alloc: Global, sentence: &str) -> Result<String, AllocError> {
        let mut text = String::new(alloc);
        self.push(&mut text, sentence)?;
        Ok(text)
    }

    /// Appends a sentence with each value in the place of its name.
    pub fn push(self, text: &mut String, sentence: &str) -> Result<(), AllocError> {
        for part in sentence.split('{') {
            match part.split_once("}") {
                Some((name, after)) => {
                    self.push_value(text, name)?;
                    text.push_str(after)?;
                }
                None => text.push_str(part)?,
            }
        }
        Ok(())
    }

    /// Appends the value of a name.
    fn push_value(self, text: &mut String, name: &str) -> Result<(), AllocError> {
        match name {
            "path" => push_shown_name(text, shown_name(self.path)),
            "given" => push_quoted(text, self.path),
            "area" => push_number(text, u64::from(self.area.number())),
            "label" => push_shown_name(text, self.label),
            "number" => push_number(text, self.number),
            "field" => push_name(text, self.field),
            _ => push_name(text, self.other),
        }
    }
}

/// Appends a name of a file as a terminal shows it: a control character as `\x` and its code.
pub fn push_shown_name(text: &mut String, name: &str) -> Result<(), AllocError> {
    let shown = Shown(name);
    write!(text, "{shown}")
}

/// Appends a name as a shell takes it.
fn push_quoted(text: &mut String, name: &str) -> Result<(), AllocError> {
    let quoted = Quoted(name);
    write!(text, "{quoted}")
}

fn push_number(text: &mut String, number: u64) -> Result<(), AllocError> {
    write!(text, "{number}")
}

/// Appends the characters of a name, without the blanks at its end; question marks for one that isn't a name.
pub fn push_name(text: &mut String, name: Option<Name>) -> Result<(), AllocError> {
    let Some(name) = name else {
        return text.push_str("????????");
    };
    for code in &name.codes[..word_len(&name.codes)] {
        text.push(char::from(host_byte(*code)))?;
    }
    Ok(())
}
