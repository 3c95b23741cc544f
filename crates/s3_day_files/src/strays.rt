//! Jobs of a day that continue over statements of later jobs, since `/*` and `/&` may be missing.

use crate::fault::DayFault;
use crate::order::Order;
use crate::twice::report_twice;
use crate::watch::Watch;
use s3_cards::{Deck, LevelId};
use s3_decks::{JobEntry, jobs_of, push_strays, strays_of};
use s3_desk::ReadDeck;
use s3_host_files::StandardInput;
use s3_operating::{BEFORE_QUESTION, Clock, DayDeck, NEITHER, Questioned};
use s3_replies::{Typed, read_typed};
use std::alloc::AllocError;
use std::io::{Read, Write};

/// The question before the first turn.
const QUESTION: &'static str =
    "begin the day all the same? yes, or no to stop it before its first turn ";

/// Printed after a `no`.
const STOPPED: &'static str =
    "the day is stopped before its first turn: no job has run, and no file is changed\n";

/// An answer that comes within so many milliseconds was typed before its question.
const TOO_SOON: u64 = 200;

/// The most bytes of an answer that are kept.
const LONGEST: usize = 80;

/// The decks of a day, each read once, before its first turn.
#[derive(Drop)]
pub struct ReadDecks {
    /// Level 1's deck.
    pub one: ReadDeck,
    /// Level 2's deck.
    pub two: ReadDeck,
}

/// The decks of a day, and the jobs of each, listed once; none of a deck that can't be read.
#[derive(Drop)]
pub struct ListedDecks {
    /// Both decks.
    pub read: ReadDecks,
    /// Level 1's jobs.
    pub jobs1: Vec<JobEntry>,
    /// Level 2's jobs.
    pub jobs2: Vec<JobEntry>,
}

/// Reads both decks, and lists their jobs.
pub fn list_decks<'a>(
    rt: &HostRuntime,
    one: &DayDeck<'a>,
    two: &DayDeck<'a>,
) -> Result<ListedDecks, AllocError> {
    let one = ReadDeck::read(rt.alloc(), one.text())?;
    let two = ReadDeck::read(rt.alloc(), two.text())?;
    let jobs1 = jobs_of(rt.alloc(), &one.cards)?;
    let jobs2 = jobs_of(rt.alloc(), &two.cards)?;
    Ok(ListedDecks {
        read: ReadDecks { one, two },
        jobs1,
        jobs2,
    })
}

/// Reads both decks, and reports their jobs that continue over statements of later jobs, and files that are given twice, one a line.
/// `None` if the day isn't begun: if there are such jobs or files, a person at a terminal is asked, unless rules are given or the day of a log is done again.
pub fn look_for_strays<'a>(
    rt: &HostRuntime,
    order: &Order<'a>,
    one: &DayDeck<'a>,
    two: &DayDeck<'a>,
) -> Result<Option<ListedDecks>, DayFault<'a>> {
    let decks = list_decks(rt, one, two)?;
    let strays = report_strays(rt, one, two, &decks)?;
    let count = strays.saturating_add(report_twice(rt, order)?);
    if is_begun(rt, order, count)? {
        Ok(Some(decks))
    } else {
        Ok(None)
    }
}

/// Whether a day with so many strays and files that are given twice is begun.
fn is_begun(rt: &HostRuntime, order: &Order<'_>, count: usize) -> Result<bool, AllocError> {
    if count == 0 || !is_person_asked(order) {
        return Ok(true);
    }
    let is_begun = is_confirmed(rt)?;
    if !is_begun {
        let _ = rt.stderr().write_all(STOPPED.as_bytes());
    }
    Ok(is_begun)
}

/// Whether a person is asked before the first turn.
fn is_person_asked(order: &Order<'_>) -> bool {
    matches!(order.questioned, Questioned::Person) && order.rules.is_none() && order.redo.is_none()
}

/// Reports the jobs of both decks that continue over statements of later jobs. How many they are.
pub fn report_strays<'a>(
    rt: &HostRuntime,
    one: &DayDeck<'a>,
    two: &DayDeck<'a>,
    decks: &ListedDecks,
) -> Result<usize, AllocError> {
    let of_one = report_cards(rt, LevelId::One, one, &decks.read.one.cards, &decks.jobs1)?;
    let of_two = report_cards(rt, LevelId::Two, two, &decks.read.two.cards, &decks.jobs2)?;
    Ok(of_one.saturating_add(of_two))
}

/// Reports these jobs of the deck of a level, given its cards and its jobs. How many they are.
fn report_cards<'a>(
    rt: &HostRuntime,
    level: LevelId,
    deck: &DayDeck<'a>,
    cards: &Deck,
    jobs: &[JobEntry],
) -> Result<usize, AllocError> {
    if !have_strays(rt, cards, jobs)? {
        return Ok(0);
    }
    let places = deck.with_places(rt.alloc())?;
    let mut text = String::new(rt.alloc());
    let count = push_strays(&mut text, rt.alloc(), &places, cards, jobs)?;
    let number = level.number();
    let _ = writeln!(rt.stderr(), "level {number}:");
    let _ = rt.stderr().write_all(text.as_bytes());
    Ok(count)
}

/// Whether one of these jobs continues over statements of later jobs.
fn have_strays(rt: &HostRuntime, cards: &Deck, jobs: &[JobEntry]) -> Result<bool, AllocError> {
    for job in jobs {
        if !strays_of(rt.alloc(), cards, job)?.is_empty() {
            return Ok(true);
        }
    }
    Ok(false)
}

/// Asks until the answer is a yes or a no. The end of the input is a no.
fn is_confirmed(rt: &HostRuntime) -> Result<bool, AllocError> {
    let mut watch = Watch::new(rt);
    // more than anyone types: the bound is what shows that it ends
    for _line in 0..u64::MAX {
        let _ = rt.stderr().write_all(QUESTION.as_bytes());
        let asked_at = watch.milliseconds();
        let Some(typed) = read_answer(rt)? else {
            return Ok(false);
        };
        let is_too_soon = watch.milliseconds().saturating_sub(asked_at) < TOO_SOON;
        match typed {
            Typed::No => return Ok(false),
            _ if is_too_soon => report(rt, BEFORE_QUESTION),
            Typed::Yes => return Ok(true),
            Typed::Nothing => {}
            _ => report(rt, NEITHER),
        }
    }
    Ok(false)
}

fn report(rt: &HostRuntime, line: &str) {
    let _ = rt.stderr().write_all(line.as_bytes());
}

/// What the next line of standard input says; `None` if it has ended or fails.
fn read_answer(rt: &HostRuntime) -> Result<Option<Typed>, AllocError> {
    let mut line = Vec::new(rt.alloc());
    let mut is_any = false;
    for _byte in 0..u64::MAX {
        let Some(byte) = next_byte(rt) else {
            break;
        };
        is_any = true;
        if byte == b'\n' {
            break;
        }
        if line.len() < LONGEST {
            line.push(byte)?;
        }
    }
    Ok(if is_any {
        Some(read_typed(&line))
    } else {
        None
    })
}

/// The next byte of standard input; `None` if it has ended or fails.
fn next_byte(rt: &HostRuntime) -> Option<u8> {
    let mut byte = [0u8; 1];
    match StandardInput::new(rt).read(&mut byte) {
        Ok(0) | Err(_) => None,
        Ok(_) => Some(byte[0]),
    }
}
