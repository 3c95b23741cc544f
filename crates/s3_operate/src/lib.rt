//! `bureau operate`: the desk, over real files, the terminal and the clock.
//!
//! What is proved: each call is safe and returns, the exit status is at most 5 (`operate`), and the status of a day that came to its end
//! (`status_of`). What a desk performs and writes of a day, and whether its pack is saved, is proved in `s3_desk` and `s3_operating`; the
//! status of a refusal in `s3_day_files`. What is asked at a terminal, and that a pack is saved whole or not at all, are tested, by rows. What files, standard input and output and the clock give isn't claimed: they are used as the
//! toolchain offers them.

#![tactic(auto)]

ghost use Rattle.std.specs.Prelude.{◌≤◌};

mod book;
mod damage;
mod day;
mod holding;
mod inherited_words;
mod noted;
mod pages;
mod saving;
mod status;

use clap::ArgMatches;
use damage::report_damage;
use day::{Mounted, Prepared, operate_prepared};
use inherited_words::{report_limits, report_lost_rules, words_again};
use s3_cards::LevelId;
use s3_cli::{CliFault, RunFault, SessionFault};
use s3_command_line::{OUT_OF_MEMORY, command, names_standard_error};
use s3_day_files::{
    Again, Begin, DayFault, DayJournal, DayPack, Decks, ExitZero, Given, ListedDecks, Order,
    Outputs, ReadDecks, begin_day, list_jobs, log_refusal, names, read_log, read_rules,
    report_twice, rules_text, test_decks, test_journal, test_outputs, test_same,
};
use s3_day_log::DayLog;
use s3_host_files::{is_input, shown_name};
use s3_labels::{Pack, Refusal, Refused};
use s3_operating::Seat;
use s3_paper_commands::PLAIN_INPUT;
use s3_paper_commands::status::{DONE, FILE_FAILED, PASSED_OVER, PERSON_NEEDED};
use s3_refusals::{Shown, beginning_words, pack_words, tell_holder};
use s3_replies::Rules;
use s3_store::MemoryStore;
use std::io::Write;

/// Does what the options of `bureau operate` ask, and gives the exit status. The words as they were given, after `operate`, are
/// for the log.
pub fn operate<'a>(rt: &'a HostRuntime, matches: &ArgMatches<'a>, words: &[String]) -> u8
    ensures { result ≤ 5 }
{
    match matches.get_str("redo") {
        Some(path) => operate_again(rt, matches, words, path),
        None => status_of_day(rt, operate_with(rt, matches, words, None)),
    }
}

/// The exit status of a day; why it was refused is reported.
fn status_of_day(rt: &HostRuntime, done: Result<u8, DayFault<'_>>) -> u8
    ensures { result ≤ 5 }
{
    match done {
        Ok(status) => status.min(PASSED_OVER),
        Err(fault) => {
            if let DayFault::InUse(name) = fault {
                tell_holder(rt, name);
            }
            fault.tell(&mut rt.stderr())
        }
    }
}

/// Does the day of a log again.
fn operate_again<'a>(
    rt: &HostRuntime,
    matches: &ArgMatches<'a>,
    words: &[String],
    path: &'a str,
) -> u8
    ensures { result ≤ 5 }
{
    match read_log(rt, path) {
        Ok(log) => operate_logged(rt, matches, words, path, &log),
        Err(fault) => refuse_again(rt, matches, fault),
    }
}

/// Does the day of a log again, once the log is read.
fn operate_logged(
    rt: &HostRuntime,
    matches: &ArgMatches<'_>,
    words: &[String],
    path: &str,
    log: &DayLog,
) -> u8
    ensures { result ≤ 5 }
{
    let whole = match words_again(rt.alloc(), words, matches, log) {
        Ok(Some(whole)) => whole,
        Ok(None) => return refuse_log(rt, matches, path),
        Err(_) => return refuse_for_memory(rt),
    };
    let Ok(parser) = command(rt.alloc(), "operate") else {
        return refuse_for_memory(rt);
    };
    match parser.try_get_matches_from(whole.as_slice()) {
        Ok(parsed) => {
            tell_limits(rt, path, matches, &parsed);
            operate_parsed(rt, &parsed, &whole, path, log)
        }
        Err(_) => refuse_log(rt, matches, path),
    }
}

/// Reports the limits that the day takes from its log, and rules that aren't there, unless it is quiet or the report would get into one
/// of its files.
fn tell_limits(rt: &HostRuntime, path: &str, given: &ArgMatches<'_>, parsed: &ArgMatches<'_>) {
    if let Some((_operate, all)) = parsed.subcommand()
        && !all.get_flag("quiet")
        && !names_standard_error(rt, "operate", all)
    {
        report_limits(rt, path, given, all);
        report_lost_rules(rt, path, given, all);
    }
}

/// Does the day of a log again, by all of its options.
fn operate_parsed<'a>(
    rt: &'a HostRuntime,
    parsed: &ArgMatches<'a>,
    whole: &[String],
    path: &'a str,
    log: &'a DayLog,
) -> u8
    ensures { result ≤ 5 }
{
    match parsed.subcommand() {
        // what is reported would get into that file
        Some((_operate, matches)) if names_standard_error(rt, "operate", matches) => FILE_FAILED,
        Some((_operate, matches)) => {
            let words = whole.get(2..).unwrap_or(&[]);
            let again = Again {
                path: shown_name(path),
                log,
            };
            status_of_day(rt, operate_with(rt, matches, words, Some(again)))
        }
        None => refuse_log(rt, parsed, path),
    }
}

/// Refuses to do the day of a log again, before the options of the log are read. A list of jobs gets no log.
fn refuse_again<'a>(rt: &HostRuntime, matches: &ArgMatches<'a>, fault: DayFault<'a>) -> u8
    ensures { result ≤ 5 }
{
    match order_of(rt, matches) {
        Ok(order) if !matches.get_flag("jobs") => status_of_day(
            rt,
            Err(log_refusal(rt, &order, fault)),
        ),
        _ => status_of_day(rt, Err(fault)),
    }
}

fn refuse_for_memory(rt: &HostRuntime) -> u8
    ensures { result ≤ 5 }
{
    status_of_day(rt, Err(DayFault::Cli(OUT_OF_MEMORY)))
}

/// Refuses a log with options that this program doesn't take.
fn refuse_log(rt: &HostRuntime, matches: &ArgMatches<'_>, path: &str) -> u8
    ensures { result ≤ 5 }
{
    let _ = writeln!(
        rt.stderr(),
        "{}: line 1 has options that this program doesn't take; use the program that wrote the log",
        Shown(shown_name(path))
    );
    refuse_again(rt, matches, DayFault::Redo)
}

/// Does a day, or lists its jobs. It is refused before the first turn, or only if memory runs out or a file fails.
fn operate_with<'a>(
    rt: &'a HostRuntime,
    matches: &ArgMatches<'a>,
    words: &[String],
    again: Option<Again<'a>>,
) -> Result<u8, DayFault<'a>> {
    match order_of(rt, matches) {
        Ok(order) => {
            let done = operate_order(rt, &order, matches.get_flag("jobs"), words, again);
            exit_status(order.exit_zero, done)
        }
        Err(fault) => Err(fault),
    }
}

/// The exit status of the command, given that of its day.
fn exit_status<'a>(
    exit_zero: ExitZero,
    done: Result<u8, DayFault<'a>>,
) -> Result<u8, DayFault<'a>> {
    match done {
        Ok(status) => Ok(exit_zero.status_for(status)),
        Err(fault) => Err(fault),
    }
}

/// What the options ask for.
fn order_of<'a>(rt: &HostRuntime, matches: &ArgMatches<'a>) -> Result<Order<'a>, DayFault<'a>> {
    let deck1 = names(rt, matches, "deck1")?;
    match names(rt, matches, "deck2") {
        Ok(deck2) => match Order::read(rt, matches, deck1, deck2) {
            Ok(order) => Ok(order),
            Err(reason) => Err(DayFault::Usage(reason)),
        },
        Err(error) => Err(DayFault::from(error)),
    }
}

/// Does what the options of a day ask for.
fn operate_order<'a>(
    rt: &'a HostRuntime,
    order: &Order<'a>,
    lists_jobs: bool,
    words: &[String],
    again: Option<Again<'a>>,
) -> Result<u8, DayFault<'a>> {
    if let Some(reason) = conflict_of(order, lists_jobs) {
        return Err(DayFault::Usage(reason));
    }
    if lists_jobs {
        test_decks(rt, order)?;
    }
    match Decks::read(rt, order, words, wants_checksums(order, again)) {
        Ok(decks) if lists_jobs => jobs_listed(rt, order, &decks),
        Ok(decks) => operate_decks(rt, order, decks, again),
        Err(fault) if lists_jobs => Err(fault),
        Err(fault) => Err(log_refusal(rt, order, fault)),
    }
}

/// Lists the jobs of both decks.
fn jobs_listed<'a>(
    rt: &HostRuntime,
    order: &Order<'a>,
    decks: &Decks<'a>,
) -> Result<u8, DayFault<'a>> {
    match list_jobs(rt, order.is_json, &decks.one, &decks.two) {
        Ok(()) => {
            report_twice(rt, order)?;
            Ok(DONE)
        }
        Err(fault) => Err(fault),
    }
}

/// Why the options don't go together, if they don't.
fn conflict_of(order: &Order<'_>, lists_jobs: bool) -> Option<&'static str> {
    if lists_jobs && order.deck1.is_empty() && order.deck2.is_empty() {
        return Some("--jobs lists the jobs of decks; give --deck1 FILE, --deck2 FILE or both");
    }
    if order.is_json && !lists_jobs {
        return Some("--json goes with --jobs");
    }
    if order.is_input_plain && !reads_cards_from_input(order) {
        return Some(PLAIN_INPUT);
    }
    if order.saves_unfinished && order.save.is_none() {
        return Some("--save-unfinished needs --save FILE, which names where the pack is saved");
    }
    if order.keep > 0 && order.save.is_none() {
        return Some("--keep goes with --save FILE, which names where the pack is saved");
    }
    journal_conflict(order)
}

/// Whether a deck has the file `-`, standard input.
fn reads_cards_from_input(order: &Order<'_>) -> bool {
    let mut files = order.deck1.iter().chain(order.deck2.iter());
    files.any(|file| is_input(*file))
}

/// Why the options of the journal don't go with the others, if they don't.
fn journal_conflict(order: &Order<'_>) -> Option<&'static str> {
    if order.journal.is_some() && order.save.is_none() {
        return Some("--journal goes with --save FILE, which names where the pack is saved");
    }
    if (order.does_again || order.is_once) && order.journal.is_none() {
        return Some("--again and --once go with --journal FILE");
    }
    if order.does_again && order.is_once {
        return Some(
            "--once and --again don't go together: --once does nothing if the decks are posted, --again posts them once more",
        );
    }
    None
}

/// Whether the files that are read are known by their checksums: for a log that is written, or for one that is done again.
fn wants_checksums(order: &Order<'_>, again: Option<Again<'_>>) -> bool {
    order.log.is_some() || again.is_some()
}

/// What a day has in addition to its decks.
#[derive(Drop)]
struct Rest {
    pack: DayPack,
    rules: Rules,
    /// The text of the rules.
    text: Vec<u8>,
}

/// Does a day whose decks are read.
fn operate_decks<'a>(
    rt: &'a HostRuntime,
    order: &Order<'a>,
    mut decks: Decks<'a>,
    again: Option<Again<'a>>,
) -> Result<u8, DayFault<'a>> {
    match read_rest(rt, order, &mut decks, again) {
        Ok(rest) => operate_read(rt, order, decks, rest, again),
        Err(fault) => Err(log_refusal(rt, order, fault)),
    }
}

/// Reads the rules, tests the outputs, and reads the pack.
fn read_rest<'a>(
    rt: &HostRuntime,
    order: &Order<'a>,
    decks: &mut Decks<'a>,
    again: Option<Again<'_>>,
) -> Result<Rest, DayFault<'a>> {
    let text = rules_text(rt, order.rules)?;
    let rules = read_rules(rt, order.rules, &text)?;
    match read_tested(rt, order, decks, again) {
        Ok(pack) => Ok(Rest { pack, rules, text }),
        Err(fault) => Err(fault),
    }
}

/// Reads the pack, once the outputs are tested. If there is a journal, they are tested once it lets the day begin.
fn read_tested<'a>(
    rt: &HostRuntime,
    order: &Order<'a>,
    decks: &mut Decks<'a>,
    again: Option<Again<'_>>,
) -> Result<DayPack, DayFault<'a>> {
    if order.journal.is_none() {
        test_outputs(rt, order)?;
    }
    DayPack::read(rt, order, &mut decks.begun, wants_checksums(order, again))
}

/// Does a day that is read, unless a person has to look at its decks first.
fn operate_read<'a>(
    rt: &'a HostRuntime,
    order: &Order<'a>,
    mut decks: Decks<'a>,
    rest: Rest,
    again: Option<Again<'a>>,
) -> Result<u8, DayFault<'a>> {
    match look_at_decks(rt, order, &mut decks, again) {
        Ok(Some(listed)) => {
            let known = Known {
                logged: again.map(|again| again.log),
                listed,
            };
            operate_begun(rt, order, decks, rest, known)
        }
        Ok(None) => Ok(PERSON_NEEDED),
        Err(fault) => Err(log_refusal(rt, order, fault)),
    }
}

/// What is known of a day whose decks are looked at.
#[derive(Drop)]
struct Known<'a> {
    /// The log that is done again.
    logged: Option<&'a DayLog>,
    /// Both decks, and their jobs.
    listed: ListedDecks,
}

/// Does a day, if its journal lets it begin.
fn operate_begun<'a>(
    rt: &'a HostRuntime,
    order: &Order<'a>,
    decks: Decks<'a>,
    rest: Rest,
    known: Known<'a>,
) -> Result<u8, DayFault<'a>> {
    match begin_by_journal(rt, order, &rest, &decks) {
        Ok(Begin::Day(Some(journal))) => operate_noted(rt, order, decks, rest, journal, known),
        Ok(Begin::Day(None)) => operate_over(rt, order, decks, rest, None, known),
        Ok(Begin::IsPosted) => Ok(DONE),
        Err(fault) => Err(log_refusal(rt, order, fault)),
    }
}

/// Does a day that has a journal. A journal that the day made is removed again if it got no line.
fn operate_noted<'a>(
    rt: &'a HostRuntime,
    order: &Order<'a>,
    decks: Decks<'a>,
    rest: Rest,
    journal: DayJournal<'a>,
    known: Known<'a>,
) -> Result<u8, DayFault<'a>> {
    let made = journal.made();
    let done = operate_tested(rt, order, decks, rest, journal, known);
    if let Some(made) = made {
        made.remove_if_empty(rt);
    }
    done
}

/// Does a day that its journal lets begin, once the outputs are tested. A day that is posted was found before.
fn operate_tested<'a>(
    rt: &'a HostRuntime,
    order: &Order<'a>,
    decks: Decks<'a>,
    rest: Rest,
    journal: DayJournal<'a>,
    known: Known<'a>,
) -> Result<u8, DayFault<'a>> {
    match test_outputs(rt, order) {
        Ok(()) => operate_over(rt, order, decks, rest, Some(journal), known),
        Err(fault) => Err(log_refusal(rt, order, fault)),
    }
}

/// What the journal says of the start of a day.
fn begin_by_journal<'a>(
    rt: &HostRuntime,
    order: &Order<'a>,
    rest: &Rest,
    decks: &Decks<'a>,
) -> Result<Begin<'a>, DayFault<'a>> {
    let Some(name) = order.journal else {
        return Ok(Begin::Day(None));
    };
    test_journal(rt, order)?;
    let given = Given::of(rt.alloc(), order, &rest.pack.bytes, decks, &rest.text)?;
    begin_day(rt, order, name, given)
}

/// Looks at the decks, from the places at which they are taken up. Refused if they aren't the decks of a log that is done again.
fn look_at_decks<'a>(
    rt: &HostRuntime,
    order: &Order<'a>,
    decks: &mut Decks<'a>,
    again: Option<Again<'a>>,
) -> Result<Option<ListedDecks>, DayFault<'a>> {
    if let Some(again) = again {
        test_same(rt, again, &decks.begun)?;
    }
    decks.take_up(rt, order)?;
    let listed = decks.look(rt, order)?;
    if let Some(level) = level_begun_anew(order)
        && listed.is_some()
        && order.redo.is_none()
        && !order.is_quiet
    {
        report_first_job(rt, level);
    }
    Ok(listed)
}

/// The level that begins at its first job while the other one is taken up at a line, if there is one.
fn level_begun_anew(order: &Order<'_>) -> Option<LevelId> {
    match (order.from1, order.from2) {
        (Some(_), None) if !order.deck2.is_empty() => Some(LevelId::Two),
        (None, Some(_)) if !order.deck1.is_empty() => Some(LevelId::One),
        _ => None,
    }
}

/// Reports a level that begins at its first job and may have been done before.
fn report_first_job(rt: &HostRuntime, level: LevelId) {
    let level = level.number();
    let _ = writeln!(
        rt.stderr(),
        "level {level} begins at its first job: if it was done before, stop by Control-C and leave --deck{level} out"
    );
}

/// Does a day over its pack.
fn operate_over<'a>(
    rt: &'a HostRuntime,
    order: &Order<'a>,
    decks: Decks<'a>,
    rest: Rest,
    journal: Option<DayJournal<'a>>,
    known: Known<'a>,
) -> Result<u8, DayFault<'a>> {
    let Decks { one, two, begun } = decks;
    let Rest {
        pack,
        rules,
        text: _,
    } = rest;
    let Known { logged, listed } = known;
    let ListedDecks { read, jobs1, jobs2 } = listed;
    let day = Prepared {
        begun,
        one: Seat::new(rt.alloc(), LevelId::One, &one, jobs1),
        two: Seat::new(rt.alloc(), LevelId::Two, &two, jobs2),
        rules: &rules,
        logged,
        is_one_read: read.one.refusal.is_none(),
    };
    operate_mounted(rt, order, pack, journal, day, read)
}

/// Does a day that is prepared over its pack, once the pack and all outputs are tried.
fn operate_mounted<'n, 'a>(
    rt: &'a HostRuntime,
    order: &Order<'n>,
    pack: DayPack,
    journal: Option<DayJournal<'n>>,
    day: Prepared<'a>,
    read: ReadDecks,
) -> Result<u8, DayFault<'n>> {
    match mount(rt, order, pack) {
        Ok(mounted) => operate_prepared(rt, order, mounted, day, read, journal),
        Err(fault) => Err(log_refusal(rt, order, fault)),
    }
}

/// Tries the pack, and then the outputs.
fn mount<'n>(
    rt: &HostRuntime,
    order: &Order<'n>,
    pack: DayPack,
) -> Result<Mounted<'n>, DayFault<'n>> {
    let DayPack { bytes, locked } = pack;
    let bytes = mountable(rt, order, bytes)?;
    match Outputs::open(rt, order, locked) {
        Ok(outputs) => Ok(Mounted { bytes, outputs }),
        Err(fault) => Err(fault),
    }
}

/// A pack that can be mounted, as it was given; any other is refused before an output is emptied, with the command that shows why.
/// Its damage is reported.
fn mountable<'a>(
    rt: &HostRuntime,
    order: &Order<'_>,
    pack: Vec<u8>,
) -> Result<Vec<u8>, DayFault<'a>> {
    let beginning = beginning_words(&pack);
    match Pack::over(rt.alloc(), MemoryStore::from_bytes(pack)) {
        Ok(Pack { pool, areas }) => {
            if let Some(path) = order.pack {
                report_damage(rt, path, &areas);
            }
            Ok(pool.into_bytes())
        }
        Err(Refused { pool: _, fault }) => {
            tell_refused(rt, order.pack, beginning, fault);
            Err(DayFault::Cli(refused(fault)))
        }
    }
}

/// Reports why a pack can't be mounted, and what to do, given the text for a file that doesn't begin as a pack does.
fn tell_refused(rt: &HostRuntime, path: Option<&str>, beginning: &str, fault: Refusal) {
    let (Refusal::BadPack(fault), Some(path)) = (fault, path) else {
        return;
    };
    let (path, reason) = (Shown(shown_name(path)), pack_words(fault));
    let _ = if beginning.is_empty() {
        writeln!(
            rt.stderr(),
            "{path} can't be used as a pack: {reason}; check the name, or take a copy that is whole"
        )
    } else {
        writeln!(rt.stderr(), "{path} {beginning}")
    };
}

/// What the refusal of a pack in memory is to the command: its sectors can always be read.
fn refused(refusal: Refusal) -> CliFault {
    match refusal {
        Refusal::BadPack(fault) => CliFault::Session(SessionFault::Run(RunFault::Mount(fault))),
        Refusal::Sectors(_) => OUT_OF_MEMORY,
    }
}
