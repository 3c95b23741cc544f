//! A day, from its first turn to what is reported at its end.

use crate::book::{Outcome, write_index};
use crate::holding::Holding;
use crate::pages::{Making, report_paper, write_paper};
use crate::saving::{DayEnd, Place};
use crate::status::status_of;
use s3_cli::{CliFault, SessionFault};
use s3_command_line::{FILE, OUT_OF_MEMORY};
use s3_day_files::{
    DayFault, DayJournal, KeptOutputs, NamedOutput, Order, Output, Outputs, Paper, ReadDecks,
    Watch, log_refusal, remove_made, write_deck,
};
use s3_day_log::{Begun, DayLog};
use s3_desk::{Day, Printing, operate_printing};
use s3_host_files::{StandardInput, StandardOutput};
use s3_operating::{Closing, Desk, Journal, PackEnd, Questioned, Seat, Settings, Tape, Verdict};
use s3_paper_commands::OutputReason;
use s3_refusals::Shown;
use s3_replay::Performed;
use s3_replies::Rules;
use s3_reports::Reports;
use std::alloc::{AllocError, Global};
use std::io;
use std::io::{IsTerminal, Stderr, Write};

/// The most bytes that `run` reads.
const RUN_LIMIT: u64 = 4_194_304;

/// The bytes of the markers that `run` wants, with their ends.
const MARKERS: u64 = 22;

/// What an accepted day is operated with, in addition to its pack.
#[derive(Drop)]
pub struct Prepared<'a> {
    /// With what it is begun, as the log has it.
    pub begun: Begun,
    /// Level 1 with its deck.
    pub one: Seat<'a>,
    /// Level 2 with its deck.
    pub two: Seat<'a>,
    /// The rules.
    pub rules: &'a Rules,
    /// The log that is done again.
    pub logged: Option<&'a DayLog>,
    /// Level 1's deck can be read.
    pub is_one_read: bool,
}

/// A pack that can be mounted, and the outputs, each of which can be written.
#[derive(Drop)]
pub struct Mounted<'n> {
    /// The bytes of the pack.
    pub bytes: Vec<u8>,
    /// The outputs.
    pub outputs: Outputs<'n>,
}

/// Printed before a list of replies is typed.
const REPLIES_TYPED: &'static str =
    "replies are read from this terminal, one a line, as halts are asked; control-D ends them\n";

/// The desk of the command.
pub type OwnDesk<'a> = Desk<'a, StandardInput<'a>, Stderr, NamedOutput<'a>, Watch<'a>>;

/// The desk with the reports, which go to standard output, and level 2's meanwhile to the launcher's file.
type PrintingDesk<'a> = Printing<Holding<OwnDesk<'a>>, StandardOutput<'a>>;

/// The texts of both decks.
#[derive(Clone, Copy)]
struct Texts<'a> {
    one: &'a [u8],
    two: &'a [u8],
}

/// A day that is over, and the desk's account of it.
#[derive(Drop)]
pub struct Over {
    /// What it left.
    pub day: Day,
    /// The desk's account.
    pub closing: Closing,
    /// The pack before the day, if a book shows it.
    pub before: Vec<u8>,
    /// Whether the page of the day is written.
    pub has_index: bool,
    /// Whether the pack is saved.
    pub is_saved: bool,
    /// Whether it replaces another pack than the one that was read.
    pub replaces_other: bool,
}

impl Over {
    /// Whether a level isn't done.
    pub fn is_unfinished(&self) -> bool {
        self.closing.verdict == Verdict::Unfinished
    }

    /// Whether the end of the day is reported: not if the day is to be quiet, and each job came to its end.
    pub fn is_reported(&self, order: &Order<'_>) -> bool {
        !order.is_quiet || self.closing.verdict != Verdict::Clean
    }
}

/// What the end of a day needs: the texts of both decks, the outputs that the desk doesn't have, and where the pack is saved.
#[derive(Drop)]
struct Ending<'t, 'n> {
    texts: Texts<'t>,
    deck1: Option<Output>,
    deck2: Option<Output>,
    kept: KeptOutputs,
    place: Place<'n>,
}

/// Operates a day over a pack, hands out what it leaves, and gives the exit status.
pub fn operate_prepared<'n, 'a>(
    rt: &'a HostRuntime,
    order: &Order<'n>,
    mounted: Mounted<'n>,
    day: Prepared<'a>,
    read: ReadDecks,
    journal: Option<DayJournal<'n>>,
) -> Result<u8, DayFault<'n>> {
    let Mounted { bytes, outputs } = mounted;
    let Outputs {
        script,
        log,
        deck1,
        deck2,
        locked,
        kept,
        made,
    } = outputs;
    let ending = Ending {
        texts: Texts {
            one: day.one.text(),
            two: day.two.text(),
        },
        deck1,
        deck2,
        kept,
        place: Place { locked, journal },
    };
    let mut printing = printing_of(rt, order, day, script, log)?;
    tell_replies_typed(rt, order, &mut printing.operator.operator);
    match operated(rt.alloc(), order, bytes, read, &mut printing) {
        Ok(over) => hand_out(rt, order, printing, over, ending),
        Err(fault) => Err(end_refused(rt, order, &printing, &made, fault)),
    }
}

/// The desk before its day, with the reports, which go to standard output.
fn printing_of<'a>(
    rt: &'a HostRuntime,
    order: &Order<'_>,
    day: Prepared<'a>,
    script: Option<Output>,
    log: Option<Output>,
) -> Result<PrintingDesk<'a>, AllocError> {
    let is_one_read = day.is_one_read;
    let script = NamedOutput::of(rt, order.script, script)?;
    let log = NamedOutput::of(rt, order.log, log)?;
    let desk = desk_of(rt, order, day, script, log);
    let holding = Holding::new(rt, desk, order.held, is_one_read)?;
    match Reports::new(rt.alloc(), StandardOutput::new(rt)) {
        Ok(reports) => Ok(Printing::new(holding, reports, is_one_read)),
        Err(error) => {
            drop(holding);
            Err(error)
        }
    }
}

/// Ends a day that gives no result. If a deck is refused, nothing is written, so what was made by trying goes again.
fn end_refused<'n>(
    rt: &HostRuntime,
    order: &Order<'n>,
    printing: &PrintingDesk<'_>,
    made: &[&'n str],
    fault: DayFault<'n>,
) -> DayFault<'n> {
    if printing.operator.operator.refused().is_none() {
        return fault;
    }
    remove_made(rt, made);
    log_refusal(rt, order, fault)
}

/// Reports what a terminal is read for if a list of replies is typed there.
fn tell_replies_typed(rt: &HostRuntime, order: &Order<'_>, desk: &mut OwnDesk<'_>) {
    if matches!(order.questioned, Questioned::Lines) && rt.stdin().is_terminal() {
        desk.tell(REPLIES_TYPED);
    }
}

/// Writes what a day leaves, saves the pack, and gives the exit status.
fn hand_out<'n>(
    rt: &HostRuntime,
    order: &Order<'n>,
    printing: PrintingDesk<'_>,
    over: Over,
    ending: Ending<'_, 'n>,
) -> Result<u8, DayFault<'n>> {
    let Ending {
        texts,
        deck1,
        deck2,
        kept,
        place,
    } = ending;
    let mut printing = printing;
    let mut over = over;
    let written = match write_decks(rt, order, texts, deck1, deck2) {
        Ok(()) => write_reports(rt, order, &mut printing, texts, &mut over, &kept),
        Err(fault) => Err(fault),
    };
    let desk = &mut printing.operator.operator;
    let end = DayEnd {
        rt,
        order,
        kept: &kept,
    };
    let done = match written {
        Ok(()) => end.end(desk, &mut over, place),
        Err(fault) => Err(end.end_unwritten(desk, fault)),
    };
    end_book(rt, order, desk, &kept, &over, done)
}

/// Writes the page of the day once more, with what became of the pack, and gives the exit status.
fn end_book<'n>(
    rt: &HostRuntime,
    order: &Order<'n>,
    desk: &OwnDesk<'_>,
    kept: &KeptOutputs,
    over: &Over,
    done: Result<u8, DayFault<'n>>,
) -> Result<u8, DayFault<'n>> {
    if !over.has_index || order.save.is_none() {
        return done;
    }
    let outcome = Outcome {
        status: match &done {
            Ok(status) => *status,
            Err(fault) => fault.status(),
        },
        is_saved: over.is_saved,
    };
    // the page that is replaced is that of this day
    let making = Making {
        overwrites: true,
        limit: kept.limit,
        is_reported: false,
    };
    let Err(fault) = write_index(rt, order, making, desk, over, outcome) else {
        return done;
    };
    if done.is_err() {
        return done;
    }
    tell_saved(rt, order, over.is_saved);
    Err(fault)
}

/// Reports whether the pack is saved, after the page of the day couldn't be written.
fn tell_saved(rt: &HostRuntime, order: &Order<'_>, is_saved: bool) {
    if let Some(path) = order.save
        && is_saved
    {
        let path = Shown(path);
        let _ = writeln!(rt.stderr(), "the pack is saved in {path} all the same");
    }
}

/// Writes both decks as they are run, as far as that is asked for.
fn write_decks<'n>(
    rt: &HostRuntime,
    order: &Order<'n>,
    texts: Texts<'_>,
    deck1: Option<Output>,
    deck2: Option<Output>,
) -> Result<(), DayFault<'n>> {
    write_deck(rt, deck1, order.deck_out1, texts.one)?;
    write_deck(rt, deck2, order.deck_out2, texts.two)
}

/// The desk before its day, with the files for the script and the log.
fn desk_of<'a>(
    rt: &'a HostRuntime,
    order: &Order<'_>,
    day: Prepared<'a>,
    script: Option<NamedOutput<'a>>,
    log: Option<NamedOutput<'a>>,
) -> OwnDesk<'a> {
    let Prepared {
        begun,
        one,
        two,
        rules,
        logged,
        is_one_read: _,
    } = day;
    let settings = Settings {
        rules,
        logged,
        bounds: order.bounds,
        is_quiet: order.is_quiet,
        questioned: order.questioned,
        wants_decks: order.save.is_some(),
        notes_halts: is_book(order),
    };
    Desk::new(
        rt.alloc(),
        settings,
        one,
        two,
        StandardInput::new(rt),
        rt.stderr(),
        Tape::new(rt.alloc(), script),
        Journal::new(log),
        begun,
        Watch::new(rt),
    )
}

/// Operates a day to its end, and closes the desk.
fn operated<'n>(
    alloc: Global,
    order: &Order<'n>,
    pack: Vec<u8>,
    read: ReadDecks,
    printing: &mut PrintingDesk<'_>,
) -> Result<Over, DayFault<'n>> {
    let mut performed = Performed::new(alloc);
    let ReadDecks { one, two } = read;
    let before = pack_before(alloc, order, &pack)?;
    if printing.operator.operator.open().is_err() {
        return Err(refusal_of(order, &printing.operator.operator));
    }
    let done = operate_printing(
        alloc,
        pack,
        one,
        two,
        printing,
        order.bounds,
        &mut performed,
    );
    let desk = &mut printing.operator.operator;
    if desk.refused().is_some() {
        return Err(refusal_of(order, desk));
    }
    match done {
        Ok(day) => closed(order, desk, day, before, &performed),
        Err(_) if desk.has_given_up() => Err(refusal_of(order, desk)),
        Err(fault) => Err(DayFault::Cli(CliFault::Session(SessionFault::Run(fault)))),
    }
}

/// Closes the desk after its day.
fn closed<'n>(
    order: &Order<'n>,
    desk: &mut OwnDesk<'_>,
    day: Day,
    before: Vec<u8>,
    performed: &Performed,
) -> Result<Over, DayFault<'n>> {
    match desk.close(&day, performed) {
        Ok(closing) => Ok(Over {
            day,
            closing,
            before,
            has_index: false,
            is_saved: false,
            replaces_other: false,
        }),
        Err(_) => Err(refusal_of(order, desk)),
    }
}

/// Writes the reports and the pages, and reports how both levels ended. If the reports can't be written, the pages are all the same.
fn write_reports<'n>(
    rt: &HostRuntime,
    order: &Order<'n>,
    printing: &mut PrintingDesk<'_>,
    texts: Texts<'_>,
    over: &mut Over,
    kept: &KeptOutputs,
) -> Result<(), DayFault<'n>> {
    let is_written = printing.reports.finish(&over.day.run);
    printing.operator.end();
    let desk = &mut printing.operator.operator;
    if over.is_reported(order) {
        desk.tell("\n");
        desk.tell(over.closing.summary.as_str());
    }
    if order.script.is_some() {
        tell_size(rt, texts, desk.script_len());
    }
    test_outputs(order, desk)?;
    let has_lost_reader = printing.reports.writer().has_lost_reader();
    if has_lost_reader {
        desk.tell(
            "the reader of standard output ended before the reports did; everything else was done\n",
        );
    } else if !is_written {
        report_output_failure(rt, printing.reports.writer().failure());
    }
    write_paper_asked(rt, order, desk, over, kept)?;
    if is_written || has_lost_reader {
        Ok(())
    } else {
        Err(DayFault::Cli(FILE))
    }
}

/// Writes the pages, if they are asked for.
fn write_paper_asked<'n>(
    rt: &HostRuntime,
    order: &Order<'n>,
    desk: &OwnDesk<'_>,
    over: &mut Over,
    kept: &KeptOutputs,
) -> Result<(), DayFault<'n>> {
    match order.paper {
        Some(paper) => {
            let making = Making {
                overwrites: order.overwrites,
                limit: kept.limit,
                is_reported: over.is_reported(order),
            };
            write_pages(rt, order, paper, making, desk, over)
        }
        None => Ok(()),
    }
}

/// Writes the pages of the jobs, and of a book the page of the day, and reports where they are. The pack isn't saved yet.
fn write_pages<'n>(
    rt: &HostRuntime,
    order: &Order<'n>,
    paper: Paper<'n>,
    making: Making,
    desk: &OwnDesk<'_>,
    over: &mut Over,
) -> Result<(), DayFault<'n>> {
    let jobs = write_paper(rt, paper, making, desk, &over.day.run)?;
    if paper.form.is_book() {
        let outcome = Outcome {
            status: status_of(over.closing.verdict, PackEnd::Unnamed),
            is_saved: false,
        };
        write_index(rt, order, making, desk, over, outcome)?;
        over.has_index = true;
    }
    if making.is_reported {
        report_paper(rt, paper, jobs);
    }
    Ok(())
}

/// Whether the pages are a book.
fn is_book(order: &Order<'_>) -> bool {
    match order.paper {
        Some(paper) => paper.form.is_book(),
        None => false,
    }
}

/// A copy of the pack before the day, if a book shows it; else nothing.
fn pack_before(alloc: Global, order: &Order<'_>, pack: &[u8]) -> Result<Vec<u8>, AllocError> {
    if is_book(order) {
        Vec::from_slice(alloc, pack)
    } else {
        Ok(Vec::new(alloc))
    }
}

/// Reports why standard output can't be written.
fn report_output_failure(rt: &HostRuntime, failure: Option<io::Error>) {
    let _ = match failure {
        Some(error) => {
            let reason = OutputReason(error);
            writeln!(
                rt.stderr(),
                "the reports can't be written to standard output: {reason}"
            )
        }
        None => writeln!(
            rt.stderr(),
            "the reports can't be written to standard output"
        ),
    };
}

/// Why a day was ended before its time: its deck can't be read, its script or its log can't be written, or memory ran out.
fn refusal_of<'n>(order: &Order<'n>, desk: &OwnDesk<'_>) -> DayFault<'n> {
    match (desk.refused(), test_written(order, desk)) {
        (Some(level), _) => DayFault::Deck(level),
        (None, Err(fault)) => fault,
        (None, Ok(())) => DayFault::Cli(OUT_OF_MEMORY),
    }
}

/// Reports a script that is too long, with its decks, for `run`.
fn tell_size(rt: &HostRuntime, texts: Texts<'_>, script: u64) {
    let all = (texts.one.len() as u64)
        .saturating_add(texts.two.len() as u64)
        .saturating_add(script)
        .saturating_add(MARKERS);
    if all > RUN_LIMIT {
        let _ = writeln!(
            rt.stderr(),
            "the decks and the script have {all} bytes, and `run` reads {RUN_LIMIT}: this day can't be replayed so"
        );
    }
}

/// Refuses a day for which memory ran out, or whose script or log can't be written, unless a person continues without it.
pub fn test_outputs<'n>(order: &Order<'n>, desk: &mut OwnDesk<'_>) -> Result<(), DayFault<'n>> {
    if desk.is_out_of_memory() {
        return Err(DayFault::Cli(OUT_OF_MEMORY));
    }
    match desk.test_outputs() {
        Ok(()) => Ok(()),
        Err(_) => Err(refusal_of(order, desk)),
    }
}

/// Refuses a day whose script or log couldn't be written, or that memory ran out for.
pub fn test_written<'n>(order: &Order<'n>, desk: &OwnDesk<'_>) -> Result<(), DayFault<'n>> {
    if desk.is_out_of_memory() {
        return Err(DayFault::Cli(OUT_OF_MEMORY));
    }
    match (order.script, order.log) {
        (Some(name), _) if desk.has_script_failed() => Err(DayFault::File(name)),
        (_, Some(name)) if desk.has_log_failed() => Err(DayFault::File(name)),
        _ => Ok(()),
    }
}
