//! Sentences about mistakes of an amendment: what is wrong, where, and what mends it.

use s3_amend::Mistake;
use s3_cards::Name;
use s3_cells::CellFault;
use s3_data_commands::cell_sentences::push_cell_fault;
use s3_data_commands::cells::field_named;
use s3_data_commands::filled::{Words, push_name};
use s3_data_commands::load_sentences::push_quoted;
use s3_layout::SourceLayout;
use std::alloc::{AllocError, Global};

/// The sentence about a mistake, given the layout, the text of --key and whether numbers have a comma before their decimals.
pub fn mistake_sentence(
    alloc: Global,
    mistake: &Mistake,
    layout: &SourceLayout,
    key: &str,
    has_comma: bool,
) -> Result<String, AllocError> {
    let mut text = String::new(alloc);
    push_mistake(&mut text, mistake, layout, key, has_comma)?;
    Ok(text)
}

fn push_mistake(
    text: &mut String,
    mistake: &Mistake,
    layout: &SourceLayout,
    key: &str,
    has_comma: bool,
) -> Result<(), AllocError> {
    match mistake {
        Mistake::Unknown(name) => {
            text.push_str("the layout has no field ")?;
            push_quoted(text, name)?;
            text.push_str("; name a field as the I sheet does")
        }
        Mistake::Value(name, fault, value) => {
            push_refused(text, layout, *name, value, *fault, has_comma)
        }
        Mistake::KeyValue(name, fault) => {
            push_refused(text, layout, *name, key.as_bytes(), *fault, has_comma)
        }
        Mistake::KeyCharacter | Mistake::LongKey(_) | Mistake::NoKey => {
            text.push_str("--key ")?;
            push_quoted(text, key.as_bytes())?;
            push_plain(text, mistake)
        }
        _ => push_plain(text, mistake),
    }
}

/// Appends that a field can't get a value, and why.
fn push_refused(
    text: &mut String,
    layout: &SourceLayout,
    name: Name,
    value: &[u8],
    fault: CellFault,
    has_comma: bool,
) -> Result<(), AllocError> {
    push_name(text, Some(name))?;
    text.push_str(": ")?;
    push_quoted(text, value)?;
    push_cell_fault(text, fault, field_named(layout, name), value, has_comma)
}

/// Appends a sentence whose values are numbers and names.
fn push_plain(text: &mut String, mistake: &Mistake) -> Result<(), AllocError> {
    let words = match mistake {
        Mistake::Twice(name) | Mistake::InKey(name) => Words::of_path("").with_fields(
            Some(*name),
            None,
        ),
        Mistake::Overlap(one, other) => Words::of_path("").with_fields(Some(*one), Some(*other)),
        Mistake::NoNumber(count) => Words::of_path("").with_number(u64::from(*count)),
        Mistake::LongKey(long) => Words::of_path("").with_number(u64::from(*long)),
        _ => Words::of_path(""),
    };
    words.push(text, plain_words(mistake))
}

/// The sentence of a mistake whose values are numbers and names.
fn plain_words(mistake: &Mistake) -> &'static str {
    match mistake {
        Mistake::Unknown(_) | Mistake::Value(..) | Mistake::KeyValue(..) => "",
        Mistake::Twice(_) => "the field {field} is named twice; leave one value out",
        Mistake::Overlap(..) => "the fields {field} and {other} overlap; leave one of them out",
        Mistake::InKey(_) =>
            "the field {field} is in the key, by which the index finds the record, so it can't be changed; add a record with the other key by `bureau load --append`; if the file is full, unload it, delete it, and load all of its records with more space by --records",
        Mistake::NoNumber(0) => "the file has no records; add some by `bureau load --append`",
        Mistake::NoNumber(_) =>
            "--record isn't a number of a record; the file has records 1 to {number}",
        Mistake::Keyless => "the file has no key; give the number of the record by --record",
        Mistake::LongKey(_) =>
            " is longer than the keys of the file, which have {number} bytes; shorten it",
        Mistake::KeyCharacter =>
            " has a character that no card can have; give the number of the record by --record",
        Mistake::NoKey =>
            " is the key of no record; `bureau unload` writes the records that the file has",
        Mistake::OtherType(_) =>
            "the record isn't of the record type of the layout; give the --type that it has, or a layout with that type",
        Mistake::LeavesType(_) =>
            "the record would lose its record identification codes; give the fields that have them other values",
    }
}
