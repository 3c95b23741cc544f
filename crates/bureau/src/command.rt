//! The command line, and what its options ask for.
ghost use Rattle.std.specs.Prelude.{◌≤◌, ◌≡◌};

use crate::journaled_run::{has_journal, run_journaled};
use crate::refusal::{fault_of, of_options, of_pack, reading, saving, session_refused};
use crate::shown_words::{shown_error, shown_words};
use crate::similar::explain_unknown;
use crate::version::write_version;
use crate::wrong_number::WrongNumber;
use clap::error::ErrorKind;
use clap::{ArgMatches, Error};
use s3_cli::{CliFault, SessionFault, Watched, image_with, list, migrate, session_on, write_table};
use s3_command_line::{
    OUT_OF_MEMORY, command, command_of, input_conflict, names_standard_error, new_pack,
    option_without_name,
};
use s3_data_commands::check_pack::check;
use s3_data_commands::copy::copy;
use s3_data_commands::delete::delete;
use s3_data_commands::load::load;
use s3_data_commands::sort::sort;
use s3_data_commands::unload::unload;
use s3_day_files::perform_journal;
use s3_host_files::{
    FileFault, Limit, LockedPack, StandardInput, StandardOutput, is_input_standard_error,
    is_pack_at, is_standard_error, keep_save_apart, read_pack, read_to_save, retried,
    save_new_pack, save_pack,
};
use s3_manual::{Manual, help_notes, is_manual, manual_of, manual_parser};
use s3_operate::operate;
use s3_pack_check::{Cause, check_pack};
use s3_pack_commands::amend::amend_file;
use s3_pack_commands::check::check_in_json;
use s3_pack_commands::dump::{dump_pack, restore_pack};
use s3_paper_commands::status::{DONE, FILE_FAILED, REFUSED, WRONG_WORDS};
use s3_paper_commands::words::{CommandWords, value_of};
use s3_paper_commands::{OutputReason, compile_files, list_entries, punch_files};
use s3_refusals::{Reason, Refused, Shown};
use std::alloc::{AllocError, Global};
use std::io::{IsTerminal, Write};
use std::path::Path;
use std::{env, io};

/// Does what the command line asks, and gives the exit status: 0 if it is done; 4 or 5 if it is done and something waits for a person
/// (docs/OPERATING.md, docs/LISTINGS.md, docs/DATA.md, docs/PACK_CARE.md); 2 if the options can't be read or followed; else the status of
/// the refusal, whose line it has written on standard error (docs/RUNNING.md, "Refusals").
pub fn execute(rt: &HostRuntime) -> u8
    ensures { result ≤ 5 }
{
    let alloc = rt.alloc();
    let given = match env::args(rt) {
        Ok(given) => given,
        Err(error) if error.kind() == io::ErrorKind::OutOfMemory => return refuse(
            rt,
            &OUT_OF_MEMORY,
        ),
        Err(_) => return misuse(
            rt,
            "one of the arguments isn't text in UTF-8; rename the file that it names",
        ),
    };
    let words: Vec<String> = match given.collect(alloc) {
        Ok(words) => words,
        Err(_) => return refuse(rt, &OUT_OF_MEMORY),
    };
    if is_manual(&words) {
        return print_manual(rt, &words);
    }
    let parser = match command(alloc, first_of(&words)) {
        Ok(parser) => parser,
        Err(_) => return refuse(rt, &OUT_OF_MEMORY),
    };
    match parser.try_get_matches_from(words.as_slice()) {
        Ok(matches) => perform(rt, &matches, &words),
        Err(error) => explain_shown(rt, error, &words),
    }
}

/// Prints what `explain` does, with the arguments as a terminal shows them.
fn explain_shown(rt: &HostRuntime, error: Error, words: &[String]) -> u8
    ensures { result ≤ 5 }
{
    match error_of_shown(rt.alloc(), error, words) {
        Ok(error) => explain(rt, &error, words),
        Err(_) => refuse(rt, &OUT_OF_MEMORY),
    }
}

/// The error of a command line, with its arguments as a terminal shows them.
fn error_of_shown(alloc: Global, error: Error, words: &[String]) -> Result<Error, AllocError> {
    let Some(shown) = shown_words(alloc, words)? else {
        return Ok(error);
    };
    let parser = if is_manual(words) {
        manual_parser(alloc)?
    } else {
        command(alloc, first_of(&shown))?
    };
    Ok(shown_error(parser, &shown, error))
}

/// The first argument, if there is one: the name of a command, or an option of the program.
fn first_of(words: &[String]) -> &str {
    match words.get(1) {
        Some(word) => word.as_str(),
        None => "",
    }
}

/// Prints a page of the manual, or completions.
fn print_manual(rt: &HostRuntime, words: &[String]) -> u8
    ensures { result ≤ 5 }
{
    let parser = match manual_parser(rt.alloc()) {
        Ok(parser) => parser,
        Err(_) => return refuse(rt, &OUT_OF_MEMORY),
    };
    match parser.try_get_matches_from(words) {
        Ok(matches) => print_asked(rt, &matches),
        Err(error) => explain_shown(rt, error, words),
    }
}

/// Prints what a command line asks for, given what the manual's parser found.
fn print_asked(rt: &HostRuntime, matches: &ArgMatches<'_>) -> u8
    ensures { result ≤ 5 }
{
    let text = match manual_of(rt.alloc(), matches) {
        Ok(Manual::Text(text)) => text,
        Ok(Manual::NoPage(page)) => return misuse_page(rt, page),
        Err(_) => return refuse(rt, &OUT_OF_MEMORY),
    };
    match StandardOutput::new(rt).write_all(text.as_str().as_bytes()) {
        Ok(()) => DONE,
        Err(error) => refuse_output(rt, &error),
    }
}

/// Reports that standard output can't be written, and why.
fn refuse_output(rt: &HostRuntime, error: &io::Error) -> u8
    ensures { result ≤ 5 }
{
    if error.kind() == io::ErrorKind::OutOfMemory {
        return refuse(rt, &OUT_OF_MEMORY);
    }
    let reason = OutputReason(*error);
    let _ = writeln!(
        rt.stderr(),
        "bureau: standard output can't be written: {reason}"
    );
    FILE_FAILED
}

/// Reports that the manual has no page of a name.
fn misuse_page(rt: &HostRuntime, page: &str) -> u8
    ensures { result ≡ 2 }
{
    let page = Shown(page);
    let _ = writeln!(
        rt.stderr(),
        "error: the manual has no page {page}; bureau help man --list prints the names of its pages"
    );
    WRONG_WORDS
}

/// Reports why options can't be followed.
pub fn misuse(rt: &HostRuntime, reason: &str) -> u8
    ensures { result ≡ 2 }
{
    let _ = writeln!(rt.stderr(), "error: {reason}");
    WRONG_WORDS
}

/// Reports an empty file name, given the option that has it.
fn misuse_empty(rt: &HostRuntime, option: &str) -> u8
    ensures { result ≡ 2 }
{
    let _ = if option.is_empty() {
        writeln!(
            rt.stderr(),
            "error: an empty file name was given; give the name of a file"
        )
    } else {
        writeln!(
            rt.stderr(),
            "error: an empty file name was given for --{option}; give the name of a file"
        )
    };
    WRONG_WORDS
}

fn refuse(rt: &HostRuntime, fault: &CliFault) -> u8
    ensures { result ≤ 5 }
{
    tell_refused(rt, &of_options(*fault))
}

/// Reports a refusal, at a terminal in words as well, and gives its exit status.
pub fn tell_refused(rt: &HostRuntime, refused: &Refused<'_>) -> u8
    ensures { result ≤ 5 }
{
    refused.tell(&mut rt.stderr(), rt.stderr().is_terminal())
}

/// Prints why the options can't be read, or the help or the version that they ask for. Nothing is printed into a file that one of the
/// options may name.
fn explain(rt: &HostRuntime, error: &Error, words: &[String]) -> u8
    ensures { result ≤ 5 }
{
    if error.use_stderr() && is_error_in(rt, words) {
        return FILE_FAILED;
    }
    // clap has a status of its own for want of memory
    if error.kind() == ErrorKind::OutOfMemory {
        return refuse(rt, &OUT_OF_MEMORY);
    }
    let shown = match error.kind() {
        ErrorKind::DisplayVersion => write_version(rt),
        ErrorKind::DisplayHelp => print_help(rt, error, words),
        ErrorKind::ValueValidation => explain_value(rt, error, words),
        ErrorKind::UnknownArgument => explain_unknown(rt, error, words),
        _ => error.print(rt),
    };
    if error.use_stderr() {
        return WRONG_WORDS;
    }
    match shown {
        Ok(()) => DONE,
        Err(error) => refuse(rt, &fault_of(&error)),
    }
}

/// Reports a value that an option can't have.
fn explain_value(rt: &HostRuntime, error: &Error, words: &[String]) -> io::Result<()> {
    match WrongNumber::find(words) {
        Some(wrong) => {
            wrong.tell(rt);
            Ok(())
        }
        None => error.print(rt),
    }
}

/// Prints the help that a command line asks for: what its parser has, and then the exit statuses and the examples of the command.
fn print_help(rt: &HostRuntime, error: &Error, words: &[String]) -> io::Result<()> {
    error.print(rt)?;
    let Some(command) = helped(words) else {
        return Ok(());
    };
    match help_notes(rt.alloc(), &command) {
        Ok(text) => StandardOutput::new(rt).write_all(text.as_str().as_bytes()),
        Err(_) => Err(io::Error::from(io::ErrorKind::OutOfMemory)),
    }
}

/// The command whose help a command line asks for, if it is one: the first word, or the second after `help`.
fn helped(words: &[String]) -> Option<CommandWords> {
    let first = words.get(1)?;
    if first.as_str() == "help" {
        return command_of(words.get(2)?.as_str());
    }
    command_of(first.as_str())
}

/// Whether an argument of a command line that can't be read has the name of the file that standard error is.
fn is_error_in(rt: &HostRuntime, words: &[String]) -> bool {
    for word in words {
        if is_error_word(rt, word.as_str()) {
            return true;
        }
    }
    false
}

/// Whether an argument, or what it has after an equals sign, is the name of the file that standard error is.
fn is_error_word(rt: &HostRuntime, word: &str) -> bool {
    let is_value = match word.split_once("=") {
        Some((_option, value)) => is_standard_error(rt, value),
        None => false,
    };
    is_value || is_standard_error(rt, word)
}

/// Whether standard error is a file that the command reads or writes.
fn is_error_used(rt: &HostRuntime, name: &str, matches: &ArgMatches<'_>) -> bool {
    names_standard_error(rt, name, matches)
        || matches!(name, "run" | "load" | "restore") && is_input_standard_error(rt)
}

/// Does what the command asks, and gives the exit status. If standard error is a file of the command, it does nothing, and reports
/// nothing: that would get into the file.
fn perform<'a>(rt: &'a HostRuntime, matches: &ArgMatches<'a>, words: &[String]) -> u8
    ensures { result ≤ 5 }
{
    let Some((name, matches)) = matches.subcommand() else {
        return misuse(rt, "no command is given");
    };
    if is_error_used(rt, name, matches) {
        return FILE_FAILED;
    }
    if let Some(option) = option_without_name(name, matches) {
        return misuse_empty(rt, option);
    }
    match input_conflict(rt.alloc(), name, matches) {
        Ok(None) => perform_named(rt, name, matches, words),
        Ok(Some(reason)) => misuse(rt, reason.as_str()),
        Err(_) => refuse(rt, &OUT_OF_MEMORY),
    }
}

/// Does what a command asks whose files have names, and gives the exit status.
fn perform_named<'a>(
    rt: &'a HostRuntime,
    name: &str,
    matches: &ArgMatches<'a>,
    words: &[String],
) -> u8
    ensures { result ≤ 5 }
{
    match name {
        "operate" => operate(rt, matches, words.get(2..).unwrap_or(&[])),
        "punch" => punch_files(rt, matches),
        "compile" => compile_files(rt, matches),
        "check" if !matches.get_flag("json") => check(rt, matches),
        "copy" => copy(rt, matches),
        "delete" => delete(rt, matches),
        "sort" => sort(rt, matches),
        "unload" => unload(rt, matches),
        "load" => load(rt, matches),
        "journal" => perform_journal(rt, matches),
        "run" if has_journal(matches) => run_journaled(rt, matches),
        _ => perform_further(rt, name, matches),
    }
}

/// Does what a command for packs as text and for single records asks, and gives the exit status.
fn perform_further(rt: &HostRuntime, name: &str, matches: &ArgMatches<'_>) -> u8
    ensures { result ≤ 5 }
{
    match name {
        "amend" => amend_file(rt, matches),
        "check" => check_in_json(rt, matches),
        "dump" => dump_pack(rt, matches),
        "restore" => restore_pack(rt, matches),
        _ => perform_plain(rt, name, matches),
    }
}

/// Does what a command asks whose refusals are those of `run`, and gives the exit status.
fn perform_plain(rt: &HostRuntime, name: &str, matches: &ArgMatches<'_>) -> u8
    ensures { result ≤ 5 }
{
    if name == "init" {
        return init(rt, matches);
    }
    if name == "entries" {
        return list_entries(rt, matches);
    }
    if name == "list" && matches.get_flag("json") && matches.get_flag("table") {
        return misuse(
            rt,
            "--table and --json are two forms of a list; give one of them",
        );
    }
    let done = match name {
        "run" => run(rt, matches),
        "list" => list_files(rt, matches),
        "migrate" => migrate_pack(rt, matches),
        // each command that `words::command` offers has an arm here or in `perform`
        _ => return misuse(rt, "there is no such command"),
    };
    match done {
        Ok(()) => DONE,
        Err(refused) => tell_refused(rt, &refused),
    }
}

/// `bureau run`.
fn run<'a>(rt: &HostRuntime, matches: &ArgMatches<'a>) -> Result<(), Refused<'a>> {
    let (pack, locked) = pack_to_run(rt, matches)?;
    let limit = limit_of(rt, matches.get_str("pack"))?;
    report_typed(rt);
    let saved = session_over(rt, matches, pack)?;
    match matches.get_str("save") {
        Some(path) => save_to(rt, path, locked, limit, matches.get_str("pack"), &saved),
        None => Ok(()),
    }
}

/// Reports what a run waits for, if standard input is a terminal.
pub fn report_typed(rt: &HostRuntime) {
    if rt.stdin().is_terminal() {
        let _ = writeln!(
            rt.stderr(),
            "run reads this terminal: :deck1 and cards, :deck2 and cards, :script and its lines; control-D ends them"
        );
    }
}

/// The pack as the session of standard input leaves it.
fn session_over<'a>(
    rt: &HostRuntime,
    matches: &ArgMatches<'a>,
    pack: Vec<u8>,
) -> Result<Vec<u8>, Refused<'a>> {
    let mut input = Watched::new(StandardInput::new(rt));
    let mut output = Watched::new(StandardOutput::new(rt));
    match session_on(rt.alloc(), pack, &mut input, &mut output) {
        Ok(saved) => Ok(saved),
        Err(fault) => Err(session_refused(
            fault,
            input.channel.failure(),
            output.channel.failure(),
            matches.get_str("pack"),
        )),
    }
}

/// The pack that a run is given, or a new one.
pub fn pack_to_run<'a>(
    rt: &HostRuntime,
    matches: &ArgMatches<'a>,
) -> Result<(Vec<u8>, Option<LockedPack>), Refused<'a>> {
    match (matches.get_str("pack"), matches.get_str("save")) {
        (Some(path), Some(save)) => read_locked(rt, path, save),
        (Some(path), None) => Ok((read(rt, path)?, None)),
        (None, Some(save)) => {
            keep_save_apart(rt, save).map_err(|fault| saving(rt, save, &fault))?;
            report_new(rt, save);
            Ok((made_pack(rt)?, None))
        }
        (None, None) => Ok((made_pack(rt)?, None)),
    }
}

/// Reports at a terminal that the run begins with a new pack.
fn report_new(rt: &HostRuntime, save: &str) {
    if rt.stderr().is_terminal() {
        let save = Shown(save);
        let _ = writeln!(
            rt.stderr(),
            "No --pack is given: the run begins with a new pack, which is saved in {save}."
        );
    }
}

/// The new pack of a run that is given none.
fn made_pack<'a>(rt: &HostRuntime) -> Result<Vec<u8>, Refused<'a>> {
    new_pack(rt.alloc()).map_err(|fault| of_options(fault))
}

/// The most that a new pack lets anyone do: what the pack lets them do that was read, if one was.
pub fn limit_of<'a>(rt: &HostRuntime, read: Option<&'a str>) -> Result<Option<Limit>, Refused<'a>> {
    match read {
        Some(path) => {
            Limit::of(rt, path).map_err(|error| reading(rt, path, &FileFault::Call(error)))
        }
        None => Ok(None),
    }
}

/// `bureau init`.
fn init(rt: &HostRuntime, matches: &ArgMatches<'_>) -> u8
    ensures { result ≤ 5 }
{
    let is_new = matches.get_flag("new");
    if is_new && is_occupied(rt, matches) {
        return refuse_occupied(rt, matches);
    }
    let NewPack {
        pack,
        locked,
        limit,
        left_out,
    } = match make_pack(rt, matches) {
        Ok(made) => made,
        Err(refused) => return tell_refused(rt, &refused),
    };
    let path = value_of(matches, "save");
    let read = [matches.get_str("from")];
    let is_replaced = has_pack(rt, path);
    let done = if is_new {
        save_new_pack(rt, path, limit, &read, &pack)
    } else {
        save_pack(rt, path, locked, limit, &read, &pack)
    };
    match done {
        Ok(()) => {
            if is_replaced {
                report_replaced(rt, path);
            }
            report_left_out(rt, matches, left_out);
            DONE
        }
        Err(FileFault::Exists) => refuse_occupied(rt, matches),
        Err(fault) => tell_refused(rt, &saving(rt, path, &fault)),
    }
}

/// Whether something has the name under which `bureau init` saves a new file. If that isn't known, the save fails with the reason.
fn is_occupied(rt: &HostRuntime, matches: &ArgMatches<'_>) -> bool {
    retried::symlink_metadata(rt, value_of(matches, "save")).is_ok()
}

/// Reports that a new pack would replace what is there.
fn refuse_occupied(rt: &HostRuntime, matches: &ArgMatches<'_>) -> u8
    ensures { result ≡ 1 }
{
    let path = Shown(value_of(matches, "save"));
    let _ = writeln!(
        rt.stderr(),
        "bureau: {path} is there already; give another name, or remove that file first"
    );
    REFUSED
}

/// The pack that `bureau init` makes.
#[derive(Drop)]
struct NewPack {
    /// Its bytes.
    pack: Vec<u8>,
    /// The lock on the file that it was made from, if it is saved there.
    locked: Option<LockedPack>,
    /// The most that its file lets anyone do: what the file lets them do that it was made from.
    limit: Option<Limit>,
    /// How many damaged labels of the pack that it was made from it doesn't have.
    left_out: usize,
}

/// The pack that `bureau init` makes, of an old one or of none.
fn make_pack<'a>(rt: &HostRuntime, matches: &ArgMatches<'a>) -> Result<NewPack, Refused<'a>> {
    let from = matches.get_str("from");
    let limit = limit_of(rt, from)?;
    let (old, locked) = match from {
        Some(path) => {
            let (old, locked) = read_locked(rt, path, value_of(matches, "save"))?;
            (Some(old), locked)
        }
        None => (None, None),
    };
    let pack = image_with(
        rt.alloc(),
        old.as_ref().map(|old| old.as_slice()),
        tracks(matches, "masters"),
        tracks(matches, "level1"),
        tracks(matches, "level2"),
        quota(matches, "quota1"),
        quota(matches, "quota2"),
    )
    .map_err(|fault| of_pack(CliFault::Image(fault), from))?;
    let left_out = match &old {
        Some(old) if rt.stderr().is_terminal() => damaged_labels(rt, old),
        _ => 0,
    };
    Ok(NewPack {
        pack,
        locked,
        limit,
        left_out,
    })
}

/// How many labels of a pack are damaged.
fn damaged_labels(rt: &HostRuntime, pack: &[u8]) -> usize {
    match check_pack(rt.alloc(), pack) {
        Ok(wrongs) => wrongs
            .iter()
            .filter(|wrong| matches!(wrong.cause, Cause::Label(_)))
            .count(),
        Err(_) => 0,
    }
}

/// Reports at a terminal how many damaged labels aren't in the pack that is made of another one.
fn report_left_out(rt: &HostRuntime, matches: &ArgMatches<'_>, count: usize) {
    let Some(from) = matches.get_str("from") else {
        return;
    };
    let from = Shown(from);
    let _ = match count {
        0 => Ok(()),
        1 => writeln!(
            rt.stderr(),
            "A damaged label of {from} is left out, with its file."
        ),
        _ => writeln!(
            rt.stderr(),
            "{count} damaged labels of {from} are left out, with their files."
        ),
    };
}

/// `bureau list`.
fn list_files<'a>(rt: &HostRuntime, matches: &ArgMatches<'a>) -> Result<(), Refused<'a>> {
    let path = value_of(matches, "pack");
    let pack = read(rt, path)?;
    let mut output = StandardOutput::new(rt);
    let listed = if matches.get_flag("json") {
        list_in_json(rt.alloc(), &pack, &mut output)
    } else if matches.get_flag("table") {
        write_table(rt.alloc(), &pack, &mut output)
    } else {
        list(rt.alloc(), &pack, &mut output)
    };
    match listed {
        Ok(()) => Ok(()),
        Err(fault) => Err(session_refused(fault, None, output.failure(), Some(path))),
    }
}

/// `bureau list --json`.
fn list_in_json(
    alloc: Global,
    pack: &[u8],
    output: &mut StandardOutput<'_>,
) -> Result<(), SessionFault> {
    s3_pack_json::write_list(alloc, pack, output)?;
    Ok(())
}

/// `bureau migrate`.
fn migrate_pack<'a>(rt: &HostRuntime, matches: &ArgMatches<'a>) -> Result<(), Refused<'a>> {
    let path = value_of(matches, "pack");
    let save = value_of(matches, "save");
    let (old, locked) = read_locked(rt, path, save)?;
    let limit = limit_of(rt, Some(path))?;
    let pack = migrate(rt.alloc(), &old).map_err(|fault| of_pack(
        CliFault::Migrate(fault),
        Some(path),
    ))?;
    save_to(rt, save, locked, limit, Some(path), &pack)
}

/// The number of tracks of an option, which has a default.
fn tracks(matches: &ArgMatches<'_>, name: &str) -> u16 {
    matches.get_one::<u16>(name).unwrap_or(0)
}

/// The number of lines of an option, which has a default.
fn quota(matches: &ArgMatches<'_>, name: &str) -> u8 {
    matches.get_one::<u8>(name).unwrap_or(0)
}

fn read<'a>(rt: &HostRuntime, path: &'a str) -> Result<Vec<u8>, Refused<'a>> {
    read_pack(rt, path).map_err(|fault| reading(rt, path, &fault))
}

/// The pack at a path for a command that saves to another or the same, with the lock on its file in the second case.
fn read_locked<'a>(
    rt: &HostRuntime,
    path: &'a str,
    save: &'a str,
) -> Result<(Vec<u8>, Option<LockedPack>), Refused<'a>> {
    keep_save_apart(rt, save).map_err(|fault| saving(rt, save, &fault))?;
    read_to_save(rt, path, save).map_err(|fault| reading(rt, path, &fault))
}

/// Saves a pack, under the lock on its file if it was read from there. That another pack is replaced is reported at a terminal.
fn save_to<'a>(
    rt: &HostRuntime,
    path: &'a str,
    locked: Option<LockedPack>,
    limit: Option<Limit>,
    read: Option<&str>,
    pack: &[u8],
) -> Result<(), Refused<'a>> {
    let is_replaced = replaces_other(rt, path, &locked);
    save_pack(rt, path, locked, limit, &[read], pack).map_err(|fault| saving(rt, path, &fault))?;
    if is_replaced {
        report_replaced(rt, path);
    }
    Ok(())
}

/// Whether a save replaces a pack that wasn't read.
pub fn replaces_other(rt: &HostRuntime, path: &str, locked: &Option<LockedPack>) -> bool {
    locked.is_none() && has_pack(rt, path)
}

/// Whether a file has a pack. If it can't be read, the save fails with the reason.
fn has_pack(rt: &HostRuntime, path: &str) -> bool {
    matches!(is_pack_at(rt, Path::new(path)), Ok(true))
}

/// Reports at a terminal that the pack that a file had is replaced.
pub fn report_replaced(rt: &HostRuntime, path: &str) {
    if rt.stderr().is_terminal() {
        let path = Shown(path);
        let _ = writeln!(rt.stderr(), "The pack that {path} had is replaced.");
    }
}
