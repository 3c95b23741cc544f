//! `bureau run` with a journal: the decks of standard input are posted once.
ghost use Rattle.std.specs.Prelude.{◌≤◌};

use crate::command::{
    limit_of, misuse, pack_to_run, replaces_other, report_replaced, report_typed, tell_refused,
};
use crate::refusal::{saving, session_refused};
use clap::ArgMatches;
use s3_cli::{
    INPUT_LIMIT, ReadFault, RunFault, SessionFault, Watched, read_within, session_on, split_parts,
};
use s3_host_files::{StandardInput, StandardOutput, save_pack};
use s3_journal::{Posting, Ran, Work, checksum_of, checksum_of_deck};
use s3_journal_files::{GivenPack, JournalFile, JournalRefusal, NewLine, keep_journal_apart};
use s3_paper_commands::status::DONE;
use s3_refusals::Refused;
use std::alloc::AllocError;

/// What to do if the decks are posted.
const AGAIN: &str = "to post them once more, give --again";

/// Why a run with a journal isn't done.
#[derive(Drop)]
enum RunRefusal<'a> {
    /// It wouldn't be done without a journal.
    Run(Refused<'a>),
    /// The journal doesn't let it begin or end.
    Journal(JournalRefusal<'a>),
}

impl<'a> From<Refused<'a>> for RunRefusal<'a> {
    fn from(refused: Refused<'a>) -> RunRefusal<'a> {
        RunRefusal::Run(refused)
    }
}

impl<'a> From<JournalRefusal<'a>> for RunRefusal<'a> {
    fn from(refusal: JournalRefusal<'a>) -> RunRefusal<'a> {
        RunRefusal::Journal(refusal)
    }
}

impl<'a> From<AllocError> for RunRefusal<'a> {
    fn from(_error: AllocError) -> RunRefusal<'a> {
        RunRefusal::Journal(JournalRefusal::NoMemory)
    }
}

/// Whether a run has an option of the journal.
pub fn has_journal(matches: &ArgMatches<'_>) -> bool {
    matches.get_str("journal").is_some() || matches.get_flag("again")
}

/// Does what a run with a journal asks, and gives the exit status.
pub fn run_journaled(rt: &HostRuntime, matches: &ArgMatches<'_>) -> u8
    ensures { result ≤ 5 }
{
    let Some(journal) = matches.get_str("journal") else {
        return misuse(rt, "--again goes with --journal FILE");
    };
    let Some(save) = matches.get_str("save") else {
        return misuse(
            rt,
            "--journal goes with --save FILE, which names where the pack is saved",
        );
    };
    match run_once(rt, matches, journal, save) {
        Ok(()) => DONE,
        Err(RunRefusal::Run(refused)) => tell_refused(rt, &refused),
        Err(RunRefusal::Journal(refusal)) => refusal.tell(&mut rt.stderr()),
    }
}

/// Runs standard input over the pack, and saves the pack once its journal has the line of the run. A journal that the run made is removed
/// again if it got no line.
fn run_once<'a>(
    rt: &HostRuntime,
    matches: &ArgMatches<'a>,
    journal: &'a str,
    save: &'a str,
) -> Result<(), RunRefusal<'a>> {
    let path = matches.get_str("pack");
    let (pack, locked) = pack_to_run(rt, matches)?;
    let limit = limit_of(rt, path)?;
    keep_journal_apart(rt, journal, &[path, Some(save)])?;
    let mut journal = JournalFile::open(rt, journal, limit)?;
    match run_noted(rt, matches, path, save, pack, &mut journal) {
        Ok(saved) => {
            let is_replaced = replaces_other(rt, save, &locked);
            let done = save_pack(rt, save, locked, limit, &[path], &saved);
            journal.end_save(rt, &done);
            if let Err(fault) = done {
                return Err(RunRefusal::Run(saving(rt, save, &fault)));
            }
            if is_replaced {
                report_replaced(rt, save);
            }
            Ok(())
        }
        Err(refusal) => {
            journal.remove_if_unused(rt);
            Err(refusal)
        }
    }
}

/// The pack that the session of standard input leaves, once the journal has the line of the run.
fn run_noted<'a>(
    rt: &HostRuntime,
    matches: &ArgMatches<'a>,
    path: Option<&'a str>,
    save: &'a str,
    pack: Vec<u8>,
    journal: &mut JournalFile<'a>,
) -> Result<Vec<u8>, RunRefusal<'a>> {
    report_typed(rt);
    let input = input_of(rt, path)?;
    let ran = ran_of(rt, path, &input)?;
    let before = checksum_of(rt.alloc(), &pack)?;
    let does_again = matches.get_flag("again");
    test_start(rt, journal, path, before.as_str(), &ran, does_again)?;
    let saved = session_of(rt, path, pack, &input)?;
    let after = checksum_of(rt.alloc(), &saved)?;
    let line = NewLine {
        before: before.as_str(),
        after: after.as_str(),
        status: DONE,
        save: Some(save),
    };
    journal.append(rt, line, Work::Run(ran))?;
    Ok(saved)
}

/// All of standard input.
fn input_of<'a>(rt: &HostRuntime, path: Option<&'a str>) -> Result<Vec<u8>, Refused<'a>> {
    let mut input = Watched::new(StandardInput::new(rt));
    match read_within(rt.alloc(), &mut input, INPUT_LIMIT) {
        Ok(bytes) => Ok(bytes),
        Err(fault) => Err(session_refused(
            session_fault(fault),
            input.channel.failure(),
            None,
            path,
        )),
    }
}

/// What a failed read of standard input is to a run.
fn session_fault(fault: ReadFault) -> SessionFault {
    match fault {
        ReadFault::TooLong => SessionFault::Input,
        ReadFault::Failed => SessionFault::File,
        ReadFault::NoMemory => SessionFault::Run(RunFault::NoMemory),
    }
}

/// What the line of a run has.
fn ran_of<'a>(
    rt: &HostRuntime,
    path: Option<&'a str>,
    input: &[u8],
) -> Result<Ran, RunRefusal<'a>> {
    let alloc = rt.alloc();
    let Some(parts) = split_parts(input) else {
        return Err(RunRefusal::Run(session_refused(SessionFault::Input, None, None, path)));
    };
    Ok(Ran {
        deck1: checksum_of_deck(alloc, parts.deck1)?,
        deck2: checksum_of_deck(alloc, parts.deck2)?,
        script: checksum_of(alloc, parts.script)?,
    })
}

/// Refuses a run that the journal doesn't let begin, unless `--again` is given.
fn test_start<'a>(
    rt: &HostRuntime,
    journal: &JournalFile<'a>,
    path: Option<&'a str>,
    before: &str,
    ran: &Ran,
    does_again: bool,
) -> Result<(), JournalRefusal<'a>> {
    let pack = GivenPack {
        name: path.unwrap_or("the new pack"),
        sum: before,
    };
    let posting = Posting::Decks {
        one: ran.deck1.as_str(),
        two: ran.deck2.as_str(),
    };
    if does_again {
        journal.report_again(rt, pack, posting);
        return Ok(());
    }
    journal.test_start(rt, pack, posting, AGAIN)
}

/// The pack as the session of an input leaves it.
fn session_of<'a>(
    rt: &HostRuntime,
    path: Option<&'a str>,
    pack: Vec<u8>,
    input: &[u8],
) -> Result<Vec<u8>, Refused<'a>> {
    let mut reader = Watched::new(input);
    let mut output = Watched::new(StandardOutput::new(rt));
    match session_on(rt.alloc(), pack, &mut reader, &mut output) {
        Ok(saved) => Ok(saved),
        Err(fault) => Err(session_refused(fault, None, output.channel.failure(), path)),
    }
}
