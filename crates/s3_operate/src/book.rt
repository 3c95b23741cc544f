//! The page of the day, `index.html` of a book.

use crate::day::{Over, OwnDesk};
use crate::pages::{Making, push_date, push_file, write_bytes};
use s3_cards::LevelId;
use s3_cards::ebcdic::DIGIT_0;
use s3_day_book::{BookHalt, BookJob, DayBook, page_of_day};
use s3_day_files::{DayFault, Form, Order, Paper};
use s3_decks::{Position, push_name};
use s3_host_files::shown_name;
use s3_operating::{LevelEnd, NotedHalt, PrintedJob, Replier, Verdict};
use s3_refusals::Shown;
use std::alloc::{AllocError, Global};
use std::io::Write;

/// The date of a job if none was set.
const NO_DATE: [u8; 6] = [DIGIT_0; 6];

/// What the page shows of a pack that isn't saved.
const SHOWN: &str = "Changed files and the pack are shown as the day left them in memory.";

/// What became of a day and its pack, as the page shows it.
#[derive(Clone, Copy)]
pub struct Outcome {
    /// The exit status of the day.
    pub status: u8,
    /// Whether the pack is saved.
    pub is_saved: bool,
}

/// Writes the page of the day.
pub fn write_index<'n>(
    rt: &HostRuntime,
    order: &Order<'n>,
    making: Making,
    desk: &OwnDesk<'_>,
    over: &Over,
    outcome: Outcome,
) -> Result<(), DayFault<'n>> {
    let Some(paper) = order.paper else {
        return Ok(());
    };
    let alloc = rt.alloc();
    let mut book = book_of(alloc, order, desk, over, outcome)?;
    let page = match page_of_day(alloc, &mut book, &over.before, &over.day.run.pack) {
        Ok(page) => page,
        // both packs were mounted before, so only memory can be refused
        Err(_) => return Err(DayFault::from(AllocError)),
    };
    let path = index_path(alloc, paper)?;
    write_bytes(rt, path.as_str(), paper, making, page.as_slice())
}

/// The file of the page.
fn index_path(alloc: Global, paper: Paper<'_>) -> Result<String, AllocError> {
    let mut path = String::from_str(alloc, paper.folder)?;
    path.push_str("/index.html")?;
    Ok(path)
}

/// What the desk has of a day.
fn book_of(
    alloc: Global,
    order: &Order<'_>,
    desk: &OwnDesk<'_>,
    over: &Over,
    outcome: Outcome,
) -> Result<DayBook, AllocError> {
    let mut jobs = Vec::new(alloc);
    push_jobs(alloc, &mut jobs, desk, LevelId::One, over.closing.one)?;
    push_jobs(alloc, &mut jobs, desk, LevelId::Two, over.closing.two)?;
    let mut halts = Vec::new(alloc);
    push_halts(alloc, &mut halts, desk, LevelId::One)?;
    push_halts(alloc, &mut halts, desk, LevelId::Two)?;
    Ok(DayBook {
        title: String::from_str(alloc, "Book of the day")?,
        given: given_of(alloc, order, desk)?,
        status: status_of(alloc, order, over.closing.verdict, outcome)?,
        summary: String::from_str(alloc, over.closing.summary.as_str())?,
        turns: desk.turns(),
        jobs,
        halts,
    })
}

/// The status of a day, what it means, and whether its pack is saved.
fn status_of(
    alloc: Global,
    order: &Order<'_>,
    verdict: Verdict,
    outcome: Outcome,
) -> Result<String, AllocError> {
    let mut text = String::new(alloc);
    let status = outcome.status;
    let words = words_of(verdict);
    write!(text, "Status {status}: ")?;
    match order.save {
        None => write!(
            text,
            "{words}. Nothing is saved: there is no --save. {SHOWN}"
        )?,
        Some(_) if !outcome.is_saved => {
            write!(text, "the pack isn't saved; {words}. {SHOWN}")?;
        }
        Some(path) => push_saved(&mut text, words, path)?,
    }
    Ok(text)
}

fn push_saved(text: &mut String, words: &str, path: &str) -> Result<(), AllocError> {
    let path = Shown(path);
    write!(text, "{words}. The pack is saved in {path}.")
}

/// How both levels ended.
fn words_of(verdict: Verdict) -> &'static str {
    match verdict {
        Verdict::Clean => "both levels are done, and each job came to its end",
        Verdict::Passed => "both levels are done, and a job was passed over or ended by a reply",
        Verdict::Unfinished => "a level isn't done",
    }
}

/// What the day was begun with: its pack, its decks and the dates of its jobs.
fn given_of(alloc: Global, order: &Order<'_>, desk: &OwnDesk<'_>) -> Result<String, AllocError> {
    let mut text = String::new(alloc);
    push_pack(&mut text, order.pack)?;
    push_deck(&mut text, LevelId::One, &order.deck1)?;
    push_from(&mut text, LevelId::One, order.from1)?;
    push_deck(&mut text, LevelId::Two, &order.deck2)?;
    push_from(&mut text, LevelId::Two, order.from2)?;
    push_dates(&mut text, desk)?;
    Ok(text)
}

fn push_pack(text: &mut String, pack: Option<&str>) -> Result<(), AllocError> {
    match pack {
        Some(path) => {
            let path = Shown(shown_name(path));
            write!(text, "Pack: {path}\n")
        }
        None => text.push_str("Pack: a new one\n"),
    }
}

/// Appends at which line a level is taken up, if it is.
fn push_from(
    text: &mut String,
    level: LevelId,
    from: Option<Position<'_>>,
) -> Result<(), AllocError> {
    let Some(Position { file, line }) = from else {
        return Ok(());
    };
    let number = level.number();
    write!(text, "Level {number} is taken up at line {line} of ")?;
    match file {
        Some(file) => {
            let file = Shown(file);
            write!(text, "{file}")?;
        }
        None => text.push_str("its deck")?,
    }
    text.push_str(": earlier jobs are left out, except compile jobs\n")
}

/// Appends the files of a level's deck.
fn push_deck(text: &mut String, level: LevelId, files: &[&str]) -> Result<(), AllocError> {
    let number = level.number();
    write!(text, "Deck of level {number}: ")?;
    if files.is_empty() {
        text.push_str("none")?;
    }
    for (place, file) in files.iter().enumerate() {
        push_file_name(text, place, *file)?;
    }
    text.push('\n')
}

/// Appends the name of a file after so many others.
fn push_file_name(text: &mut String, place: usize, name: &str) -> Result<(), AllocError> {
    if place > 0 {
        text.push_str(", ")?;
    }
    let name = Shown(shown_name(name));
    write!(text, "{name}")
}

/// Appends the dates of the jobs of both levels, one after another.
fn push_dates(text: &mut String, desk: &OwnDesk<'_>) -> Result<(), AllocError> {
    let one = desk.printed_jobs(LevelId::One)?;
    let two = desk.printed_jobs(LevelId::Two)?;
    text.push_str("Dates of its jobs:")?;
    let after_one = push_dates_of(text, NO_DATE, &one)?;
    let last = push_dates_of(text, after_one, &two)?;
    if last == NO_DATE {
        text.push_str(" none")?;
    }
    text.push('\n')
}

/// Appends the date of each job that has another one than the job before it, given the last date that is there. Returns the last one.
fn push_dates_of(
    text: &mut String,
    before: [u8; 6],
    jobs: &[PrintedJob],
) -> Result<[u8; 6], AllocError> {
    let mut last = before;
    for job in jobs {
        if job.date != NO_DATE && job.date != last {
            push_date(text, job.date)?;
            last = job.date;
        }
    }
    Ok(last)
}

/// Appends the jobs of a level, given how it ended.
fn push_jobs(
    alloc: Global,
    jobs: &mut Vec<BookJob>,
    desk: &OwnDesk<'_>,
    level: LevelId,
    end: LevelEnd,
) -> Result<(), AllocError> {
    let printed = desk.printed_jobs(level)?;
    for (place, job) in printed.iter().enumerate() {
        let turns = desk.job_turns(level, place);
        jobs.push(BookJob {
            level,
            number: job.number as u64,
            program: program_of(alloc, job)?,
            kind: kind_of(job),
            first: turns.first,
            last: turns.last,
            lines: job.lines,
            ending: ending_of(desk, level, place, end)?,
            file: file_of(alloc, level, job)?,
        })?;
    }
    Ok(())
}

/// How the job at a place, from 0, ended, given how its level did, and whether it waits for a reply.
fn ending_of(
    desk: &OwnDesk<'_>,
    level: LevelId,
    place: usize,
    end: LevelEnd,
) -> Result<String, AllocError> {
    let mut text = desk.job_ending(level, place, end)?;
    if let Some(halt) = desk.noted_halts(level).last()
        && halt.reply.is_none()
        && halt.job.checked_sub(1) == Some(place)
    {
        text.push_str(", waits for a reply to ")?;
        push_letters(&mut text, halt.letters)?;
    }
    Ok(text)
}

/// Appends the letters of a halt.
fn push_letters(text: &mut String, letters: [u8; 2]) -> Result<(), AllocError> {
    for letter in letters {
        text.push(char::from(letter))?;
    }
    Ok(())
}

/// The program of a job; `faulty` if its statements name none.
fn program_of(alloc: Global, job: &PrintedJob) -> Result<String, AllocError> {
    let mut text = String::new(alloc);
    match job.program {
        Some(name) => push_name(&mut text, name)?,
        None => text.push_str("faulty")?,
    }
    Ok(text)
}

/// What kind of job it is.
fn kind_of(job: &PrintedJob) -> &'static str {
    match job.program {
        Some(_) if job.is_compile => "compile",
        Some(_) => "run",
        None => "faulty",
    }
}

/// The file of a job's report, if it printed.
fn file_of(alloc: Global, level: LevelId, job: &PrintedJob) -> Result<Option<String>, AllocError> {
    if job.lines == 0 {
        return Ok(None);
    }
    let mut name = String::new(alloc);
    push_file(&mut name, Form::Book, level, job)?;
    Ok(Some(name))
}

/// Appends the halts of a level.
fn push_halts(
    alloc: Global,
    halts: &mut Vec<BookHalt>,
    desk: &OwnDesk<'_>,
    level: LevelId,
) -> Result<(), AllocError> {
    for halt in desk.noted_halts(level) {
        halts.push(BookHalt {
            level,
            job: halt.job as u64,
            letters: halt.letters,
            turn: halt.turn,
            replied: halt.replied,
            words: String::from_str(alloc, halt.block.as_str())?,
            reply: reply_of(alloc, halt)?,
        })?;
    }
    Ok(())
}

/// The reply to a halt, and who gave it.
fn reply_of(alloc: Global, halt: &NotedHalt) -> Result<String, AllocError> {
    let mut text = String::new(alloc);
    match halt.reply {
        Some((digit, by)) => {
            let giver = giver_of(by);
            write!(text, "{digit}, {giver}")?;
        }
        None => text.push_str("none")?,
    }
    Ok(text)
}

/// Who gave a reply, in words.
fn giver_of(by: Replier) -> &'static str {
    match by {
        Replier::Rule => "by a rule",
        Replier::Line => "by a line of standard input",
        Replier::Operator => "by the operator",
        Replier::Log => "by the log",
    }
}
