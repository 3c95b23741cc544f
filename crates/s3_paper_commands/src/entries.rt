//! `bureau entries`: the entries of the sheets (docs/LISTINGS.md).
ghost use Rattle.std.specs.Prelude.{◌≤◌};

use crate::fault::CommandFault;
use crate::status::{DONE, FILE_WRONG, OPTIONS_WRONG, REFUSED};
use crate::words::{CommandWords, Example, Status, Takes, Word};
use clap::ArgMatches;
use json::Writer;
use s3_entries::{CardForm, Entry, entries_of};
use s3_host_files::StandardOutput;
use std::alloc::{AllocError, Global};
use std::io::Write;

/// `bureau entries` and its options.
pub const ENTRIES: CommandWords = CommandWords {
    name: "entries",
    about: "Lists the entries of the sheets: the sheet, the card, the columns, the name, and what may be there",
    aliases: &[],
    statuses: &[
        Status {
            number: DONE,
            meaning: "the entries are written",
        },
        Status {
            number: REFUSED,
            meaning: "memory ran out",
        },
        OPTIONS_WRONG,
        FILE_WRONG,
    ],
    examples: &[Example {
        line: "bureau entries --json > entries.jsonl",
        purpose: "Writes a JSON object for each entry",
    }],
    words: &[Word {
        name: "json",
        takes: Takes::Nothing,
        help: "Prints a JSON object for each entry, a line each",
    }],
};

/// Appends an entry as a line of JSON.
fn push_json(
    text: &mut String,
    alloc: Global,
    form: CardForm,
    entry: &Entry,
) -> Result<(), AllocError> {
    let mut json = Writer::new(Vec::new(alloc));
    json.begin_object()?;
    push_member(&mut json, "sheet", form.sheet())?;
    push_member(&mut json, "card", form.name())?;
    json.key("from")?;
    json.u64(entry.columns.from as u64)?;
    json.key("to")?;
    json.u64(entry.columns.to as u64)?;
    push_member(&mut json, "name", entry.name)?;
    push_member(&mut json, "allowed", entry.allowed)?;
    push_values(&mut json, entry.values)?;
    json.end_object()?;
    match String::from_utf8(json.into_inner()) {
        Ok(line) => {
            text.push_str(line.as_str())?;
            text.push('\n')
        }
        Err(_) => Err(AllocError),
    }
}

/// Writes a member that is a text.
fn push_member(json: &mut Writer, name: &str, value: &str) -> Result<(), AllocError> {
    json.key(name)?;
    json.string(value)
}

/// Writes the list of an entry's values.
fn push_values(json: &mut Writer, values: &[&str]) -> Result<(), AllocError> {
    json.key("values")?;
    json.begin_array()?;
    for value in values {
        json.string(*value)?;
    }
    json.end_array()
}

/// Appends an entry as a line of a table.
fn push_row(text: &mut String, form: CardForm, entry: &Entry) -> Result<(), AllocError> {
    let sheet = form.sheet();
    let card = form.name();
    let (from, to) = (entry.columns.from, entry.columns.to);
    let (name, allowed) = (entry.name, entry.allowed);
    writeln!(
        text,
        "{sheet}      {card:<6}  {from:>2}  {to:>2}  {name:<34}  {allowed}"
    )
}

/// Appends the entries of a kind of card.
fn push_form(
    text: &mut String,
    alloc: Global,
    is_json: bool,
    form: CardForm,
) -> Result<(), AllocError> {
    for entry in entries_of(form) {
        if is_json {
            push_json(text, alloc, form, entry)?;
        } else {
            push_row(text, form, entry)?;
        }
    }
    Ok(())
}

/// The list of all entries.
fn list_of(alloc: Global, is_json: bool) -> Result<String, AllocError> {
    let mut text = String::new(alloc);
    if !is_json {
        text.push_str("sheet  card    from to  entry                               allowed\n")?;
    }
    for form in CardForm::ALL {
        push_form(&mut text, alloc, is_json, form)?;
    }
    Ok(text)
}

/// Lists the entries of the sheets on standard output.
fn write_entries<'a>(rt: &HostRuntime, is_json: bool) -> Result<(), CommandFault<'a>> {
    let text = list_of(rt.alloc(), is_json)?;
    match StandardOutput::new(rt).write_all(text.as_bytes()) {
        Ok(()) => Ok(()),
        Err(error) => Err(CommandFault::of_output(&error)),
    }
}

/// Does what the options of `bureau entries` ask, and gives the exit status: 0 if the entries are listed, 3 if standard output can't be
/// written, 1 if memory runs out.
pub fn list_entries(rt: &HostRuntime, matches: &ArgMatches<'_>) -> u8
    ensures { result ≤ 3 }
{
    match write_entries(rt, matches.get_flag("json")) {
        Ok(()) => DONE,
        Err(fault) => fault.tell(&mut rt.stderr()),
    }
}
