//! Arguments as a terminal shows them: errors of the parser quote arguments.

use clap::{Command, Error};
use s3_refusals::{Shown, is_shown};
use std::alloc::{AllocError, Global};

/// The arguments as a terminal shows them; none if it shows each as it is.
pub fn shown_words(alloc: Global, words: &[String]) -> Result<Option<Vec<String>>, AllocError> {
    if words.iter().all(|word| is_shown_whole(word.as_str())) {
        return Ok(None);
    }
    let mut shown = Vec::new(alloc);
    for word in words {
        let word = Shown(word.as_str());
        shown.push(format!(in alloc; "{word}")?)?;
    }
    Ok(Some(shown))
}

/// Whether a terminal shows each character of an argument as it is.
fn is_shown_whole(word: &str) -> bool {
    word.chars().all(|character| is_shown(character))
}

/// The error of a command line, with its arguments as a terminal shows them: the error that a parser finds in these.
pub fn shown_error<'a>(parser: Command<'a>, shown: &'a [String], error: Error) -> Error {
    match parser.try_get_matches_from(shown) {
        Err(shown) => shown,
        Ok(_) => error,
    }
}
