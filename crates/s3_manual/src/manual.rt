//! `bureau help man` and `bureau help completions`.

use crate::bash::bash_script;
use crate::draft::Draft;
use crate::fish::fish_script;
use crate::pages::{PREFIX, command_page, program_page};
use crate::shells::SHELLS;
use crate::zsh::zsh_script;
use clap::builder::PossibleValue;
use clap::{Arg, ArgAction, ArgMatches, Command};
use s3_command_line::{ABOUT, command_of, commands};
use s3_paper_commands::words::{kept_text, value_of, values_of};
use std::alloc::{AllocError, Global};

/// What such a command line asks for.
#[derive(Drop)]
pub enum Manual<'a> {
    /// This text.
    Text(String),
    /// A page of this name, which the manual doesn't have.
    NoPage(&'a str),
}

/// Whether a command line asks for a page of the manual, for completions, or for the help of `bureau help` itself.
pub fn is_manual(words: &[String]) -> bool {
    is_word(words, 1, "help") && OF_MANUAL.iter().any(|word| is_word(words, 2, *word))
}

/// The words after `bureau help` that aren't commands of the program.
const OF_MANUAL: [&'static str; 4] = ["man", "completions", "--help", "-h"];

/// Whether the word at a place of a command line is this one.
fn is_word(words: &[String], place: usize, wanted: &str) -> bool {
    match words.get(place) {
        Some(word) => word.as_str() == wanted,
        None => false,
    }
}

/// The parser of such a command line.
pub fn manual_parser<'a>(alloc: Global) -> Result<Command<'a>, AllocError> {
    let help = Command::new(alloc, "help")
        .about(
            "Prints the help of a command (bureau help COMMAND), a page of the manual, or completions",
        )
        .subcommand_required(true)
        .subcommand(man_parser(alloc)?)?
        .subcommand(completions_parser(alloc)?)?;
    Command::new(alloc, "bureau")
        .about(ABOUT)
        .disable_help_subcommand(true)
        .subcommand_required(true)
        .subcommand(help)
}

fn man_parser<'a>(alloc: Global) -> Result<Command<'a>, AllocError> {
    let page = Arg::new(alloc, "page").value_name("PAGE").help(
        "The page of a command; that of the program if none is given",
    );
    let list = Arg::new(alloc, "list")
        .long("list")
        .action(ArgAction::SetTrue)
        .help("Prints the names of all pages, a line each");
    Command::new(alloc, "man")
        .about("Prints a page of the manual; man -l shows it")
        .arg(page.value_parser(page_values(alloc)?))?
        .arg(list)
}

/// The pages, by the names of their commands. The names that `man` has for them, as `bureau-run`, `run.1` and `bureau-run.1`, are second
/// names.
fn page_values<'a>(alloc: Global) -> Result<&'a [PossibleValue<'a>], AllocError> {
    let mut pages = Vec::new(alloc);
    pages.push(page_value(alloc, "bureau", ABOUT)?)?;
    for command in &commands() {
        pages.push(page_value(alloc, command.name, command.about)?)?;
    }
    Ok(pages.leak())
}

/// The page of a name, with its second names.
fn page_value<'a>(
    alloc: Global,
    name: &'static str,
    about: &'static str,
) -> Result<PossibleValue<'a>, AllocError> {
    let mut names = Vec::new(alloc);
    names.push(kept_text(alloc, format!(in alloc; "{name}.1")?)?)?;
    names.push(kept_text(alloc, format!(in alloc; "{PREFIX}{name}")?)?)?;
    names.push(kept_text(alloc, format!(in alloc; "{PREFIX}{name}.1")?)?)?;
    let names: &'a [&'a str] = names.leak();
    Ok(PossibleValue::new(name).help(about).aliases(names))
}

fn completions_parser<'a>(alloc: Global) -> Result<Command<'a>, AllocError> {
    let shell = Arg::new(alloc, "shell")
        .value_name("SHELL")
        .required(true)
        .value_parser(values_of(alloc, SHELLS)?)
        .help("The shell that reads them");
    Command::new(alloc, "completions")
        .about("Prints a script with which a shell completes commands, options and their values")
        .arg(shell)
}

/// What such a command line asks for, given what its parser found.
pub fn manual_of<'a>(alloc: Global, matches: &ArgMatches<'a>) -> Result<Manual<'a>, AllocError> {
    match matches.subcommand() {
        Some((_, matches)) => match matches.subcommand() {
            Some((name, matches)) => asked_by(alloc, name, matches),
            None => Ok(Manual::NoPage("")),
        },
        None => Ok(Manual::NoPage("")),
    }
}

fn asked_by<'a>(
    alloc: Global,
    name: &str,
    matches: &ArgMatches<'a>,
) -> Result<Manual<'a>, AllocError> {
    if name == "completions" {
        return Ok(Manual::Text(script(alloc, value_of(matches, "shell"))?));
    }
    if matches.get_flag("list") {
        return Ok(Manual::Text(page_list(alloc)?));
    }
    page(alloc, matches.get_str("page").unwrap_or("bureau"))
}

/// The completions for a shell.
fn script(alloc: Global, shell: &str) -> Result<String, AllocError> {
    match shell {
        "zsh" => zsh_script(alloc),
        "fish" => fish_script(alloc),
        _ => bash_script(alloc),
    }
}

/// The names of all pages, a line each.
fn page_list(alloc: Global) -> Result<String, AllocError> {
    let mut draft = Draft::new(alloc);
    draft.put("bureau.1\n");
    for command in &commands() {
        draft.put(PREFIX);
        draft.put(command.name);
        draft.put(".1\n");
    }
    draft.finish()
}

/// A page, given its name.
fn page<'a>(alloc: Global, name: &'a str) -> Result<Manual<'a>, AllocError> {
    let page = without_ending(name);
    if page == "bureau" {
        return Ok(Manual::Text(program_page(alloc)?));
    }
    match command_of(without_prefix(page)) {
        Some(command) => Ok(Manual::Text(command_page(alloc, &command)?)),
        None => Ok(Manual::NoPage(name)),
    }
}

/// The name of a page without `.1`.
fn without_ending(name: &str) -> &str {
    name.strip_suffix(".1").unwrap_or(name)
}

/// The command that a page is about.
fn without_prefix(page: &str) -> &str {
    page.strip_prefix(PREFIX).unwrap_or(page)
}
