//! The options of a day that is done again: those that are given, and those that the log has in addition.

use clap::ArgMatches;
use s3_command_line::command;
use s3_day_files::{push_word, replies_of};
use s3_day_log::DayLog;
use s3_host_files::{retried, shown_name};
use s3_refusals::Shown;
use std::alloc::{AllocError, Global};
use std::io::Write;

/// The options that such a day takes from its log if it is given none of its own, and how they are written.
const INHERITED: [(&str, &str); 4] = [
    ("turns", "--turns"),
    ("lines", "--lines"),
    ("from1", "--from1"),
    ("from2", "--from2"),
];

/// The options among them that limit a level.
const LIMITS: [(&str, &str); 2] = [("turns", "--turns"), ("lines", "--lines")];

/// Reports the limits that a day takes from its log, given the options that were given and all that it has.
pub fn report_limits(rt: &HostRuntime, path: &str, given: &ArgMatches<'_>, all: &ArgMatches<'_>) {
    for (name, word) in LIMITS {
        if let Some(value) = all.get_str(name)
            && !given.contains_id(name)
        {
            let (path, value) = (Shown(shown_name(path)), Shown(value));
            let _ = writeln!(
                rt.stderr(),
                "{word} {value} holds again, as in {path}; give {word} to set another limit"
            );
        }
    }
}

/// Reports that the rules which a day takes from its log aren't there, given the options that were given and all that it has.
pub fn report_lost_rules(
    rt: &HostRuntime,
    path: &str,
    given: &ArgMatches<'_>,
    all: &ArgMatches<'_>,
) {
    if let (None, Some(rules)) = (rules_of(given), rules_of(all))
        && matches!(retried::exists(rt, rules), Ok(false))
    {
        let (path, rules) = (Shown(shown_name(path)), Shown(rules));
        let _ = writeln!(
            rt.stderr(),
            "{path} names the rules {rules}, which aren't there; give their file by --replies"
        );
    }
}

/// The command line that does a logged day again; `None` if the options of the log can't be read.
pub fn words_again(
    alloc: Global,
    given: &[String],
    matches: &ArgMatches<'_>,
    log: &DayLog,
) -> Result<Option<Vec<String>>, AllocError> {
    let old = command_words(alloc, &log.begun.words)?;
    match command(alloc, "operate")?.try_get_matches_from(old.as_slice()) {
        Ok(parsed) => whole_words(alloc, given, matches, &parsed),
        Err(_) => Ok(None),
    }
}

/// The options that are given, and those of the parsed command line of a log that aren't given.
fn whole_words(
    alloc: Global,
    given: &[String],
    matches: &ArgMatches<'_>,
    parsed: &ArgMatches<'_>,
) -> Result<Option<Vec<String>>, AllocError> {
    let Some((_operate, logged)) = parsed.subcommand() else {
        return Ok(None);
    };
    let mut words = command_words(alloc, given)?;
    push_inherited(alloc, &mut words, matches, logged)?;
    Ok(Some(words))
}

/// The command line of `bureau operate` with these options.
fn command_words(alloc: Global, options: &[String]) -> Result<Vec<String>, AllocError> {
    let mut words = Vec::new(alloc);
    for word in ["bureau", "operate"] {
        push_word(alloc, &mut words, word)?;
    }
    for option in options {
        push_word(alloc, &mut words, option.as_str())?;
    }
    Ok(words)
}

/// Appends the options that aren't given, and are logged.
fn push_inherited(
    alloc: Global,
    words: &mut Vec<String>,
    given: &ArgMatches<'_>,
    logged: &ArgMatches<'_>,
) -> Result<(), AllocError> {
    for (name, word) in INHERITED {
        if !given.contains_id(name) {
            push_option(alloc, words, word, logged.get_str(name))?;
        }
    }
    if rules_of(given).is_none() {
        push_option(alloc, words, "--replies", rules_of(logged))?;
    }
    Ok(())
}

/// Appends an option and its value, if there is one.
fn push_option(
    alloc: Global,
    words: &mut Vec<String>,
    option: &str,
    value: Option<&str>,
) -> Result<(), AllocError> {
    let Some(value) = value else {
        return Ok(());
    };
    push_word(alloc, words, option)?;
    push_word(alloc, words, value)
}

/// The file of rules that options name.
fn rules_of<'a>(words: &ArgMatches<'a>) -> Option<&'a str> {
    match replies_of(words) {
        Ok((rules, _has_lines)) => rules,
        Err(_) => None,
    }
}
