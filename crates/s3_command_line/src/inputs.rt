//! Standard input in the place of files that a command reads. It can be read once.

use crate::words::command_of;
use clap::ArgMatches;
use s3_host_files::{STANDARD_INPUT, is_input};
use s3_paper_commands::words::{Takes, Word};
use std::alloc::{AllocError, Global};

/// The options that name a file that is read once.
const INPUTS: [&str; 8] = [
    "pack", "into", "from", "layout", "deck1", "deck2", "redo", "replies",
];

/// The options that name a file or a folder that is written.
const OUTPUTS: [&str; 7] = [
    "save",
    "journal",
    "script",
    "log",
    "paper",
    "deck-out1",
    "deck-out2",
];

/// Why a command isn't done, if two of its inputs are standard input, or one of its outputs is.
pub fn input_conflict(
    alloc: Global,
    name: &str,
    matches: &ArgMatches<'_>,
) -> Result<Option<String>, AllocError> {
    let Some(command) = command_of(name) else {
        return Ok(None);
    };
    let mut found: Option<Word> = None;
    for word in command.words {
        if is_output(*word) && matches.get_str(word.name) == Some(STANDARD_INPUT) {
            return Ok(Some(output_sentence(alloc, *word)?));
        }
        let count = inputs_of(*word, matches);
        if count > 0 && (found.is_some() || count > 1) {
            return Ok(Some(twice_sentence(alloc, found.unwrap_or(*word), *word)?));
        }
        if count > 0 {
            found = Some(*word);
        }
    }
    own_conflict(alloc, name, found)
}

/// Whether an option names a file or a folder that is written.
fn is_output(word: Word) -> bool {
    OUTPUTS.contains(&word.name)
}

/// The refusal of an output that is standard input.
fn output_sentence(alloc: Global, word: Word) -> Result<String, AllocError> {
    let option = word.name;
    format!(in alloc;
        "--{option} can't be -, for that is standard input; give a name, as ./- for a file called -"
    )
}

/// Why an option can't be standard input, if the command reads that for something else.
fn own_conflict(
    alloc: Global,
    name: &str,
    found: Option<Word>,
) -> Result<Option<String>, AllocError> {
    let (Some(word), Some(own)) = (found, own_input(name)) else {
        return Ok(None);
    };
    let option = word.name;
    Ok(Some(format!(in alloc;
        "standard input can be read once, and {name} reads {own} from it; give --{option} a file"
    )?))
}

/// What a command reads from standard input in any case.
fn own_input(name: &str) -> Option<&'static str> {
    match name {
        "run" => Some("the jobs"),
        "load" => Some("the records"),
        _ => None,
    }
}

/// The refusal of two inputs, given their options.
fn twice_sentence(alloc: Global, one: Word, other: Word) -> Result<String, AllocError> {
    if has_no_option(one) || has_no_option(other) {
        return String::from_str(
            alloc,
            "standard input can be read once, and - is given twice; name a file in place of one",
        );
    }
    let (first, second) = (one.name, other.name);
    if first == second {
        return format!(in alloc;
            "standard input can be read once, and --{first} is - twice; name a file in place of one"
        );
    }
    format!(in alloc;
        "standard input can be read once, and --{first} and --{second} are both -; name a file in place of one"
    )
}

/// Whether files are given without an option.
fn has_no_option(word: Word) -> bool {
    matches!(word.takes, Takes::FollowingFiles)
}

/// How often an option means standard input. Replies from it are one list, however often they are asked for.
fn inputs_of(word: Word, matches: &ArgMatches<'_>) -> usize {
    let names = matches.get_strs(word.name).unwrap_or(&[]);
    match word.takes {
        Takes::FollowingFiles => count_of(names),
        Takes::Values(_) if word.name == "layout" => decks_of(names),
        _ if word.name == "replies" => count_of(names).min(1),
        _ if INPUTS.contains(&word.name) => count_of(names),
        _ => 0,
    }
}

/// How many of some names mean standard input.
fn count_of(names: &[&str]) -> usize {
    let mut count: usize = 0;
    for name in names {
        if is_input(*name) {
            count = count.saturating_add(1);
        }
    }
    count
}

/// How many of some texts LABEL=FILE name standard input as the file.
fn decks_of(texts: &[&str]) -> usize {
    let mut count: usize = 0;
    for text in texts {
        if let Some((_label, name)) = (*text).split_once("=")
            && is_input(name)
        {
            count = count.saturating_add(1);
        }
    }
    count
}
