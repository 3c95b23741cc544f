//! Arguments that aren't options: those that are nearly the options of both levels, as `--deck` is, and decks without their option.

use clap::Error;
use std::alloc::{AllocError, Global};
use std::io;
use std::io::Write;

/// What the parser prints before the option that is near.
const NEAR: &str = "a similar argument exists: '--";

/// What it prints after the option of level 2, which it prefers to that of level 1.
const OF_LEVEL_2: &str = "2'";

/// What the parser prints before an argument that it doesn't expect.
const UNEXPECTED: &str = "unexpected argument '";

/// Printed if `operate` is given a file without its option.
const DECK_OPTIONS: &str = "A deck is given with its level: --deck1 FILE or --deck2 FILE.\n";

/// Reports an option that there isn't. If an option of level 2 is near, the same option of level 1 is named, too. A file without its
/// option is reported with the options for decks.
pub fn explain_unknown(rt: &HostRuntime, error: &Error, words: &[String]) -> io::Result<()> {
    match with_both(rt.alloc(), error) {
        Ok(Some(text)) => rt.stderr().write_all(text.as_str().as_bytes())?,
        Ok(None) => error.print(rt)?,
        Err(_) => return Err(io::Error::from(io::ErrorKind::OutOfMemory)),
    }
    match is_deck_alone(rt.alloc(), error, words) {
        Ok(true) => rt.stderr().write_all(DECK_OPTIONS.as_bytes()),
        Ok(false) => Ok(()),
        Err(_) => Err(io::Error::from(io::ErrorKind::OutOfMemory)),
    }
}

/// Whether `operate` was given the name of a file without its option.
fn is_deck_alone(alloc: Global, error: &Error, words: &[String]) -> Result<bool, AllocError> {
    let is_operate = match words.get(1) {
        Some(command) => command.as_str() == "operate",
        None => false,
    };
    let text = format!(in alloc; "{error}")?;
    Ok(match text.as_str().split_once(UNEXPECTED) {
        Some((_, argument)) => is_operate && !argument.starts_with('-'),
        None => false,
    })
}

/// The text of an error with the options of both levels, if an option of level 2 is near.
fn with_both(alloc: Global, error: &Error) -> Result<Option<String>, AllocError> {
    let text = format!(in alloc; "{error}")?;
    let Some((before, near)) = text.as_str().split_once(NEAR) else {
        return Ok(None);
    };
    match near.split_once(OF_LEVEL_2) {
        Some((name, after)) if !name.contains('\'') => Ok(Some(format!(in alloc;
            "{before}some similar arguments exist: '--{name}1', '--{name}2'{after}"
        )?)),
        _ => Ok(None),
    }
}
