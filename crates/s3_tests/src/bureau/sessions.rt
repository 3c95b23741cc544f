//! Sessions, and one run of them over a store with a fuse.

use crate::bureau::calls::{finish, step};
use crate::bureau::packs::are_spared;
use s3_bureau::{Bureau, Entry, Refusal, RefusedStore, Stop};
use s3_cards::{Deck, DeckFault, LevelId, PrintLine, host_byte};
use s3_store::{FuseStore, MemoryStore};
use std::alloc::Global;

/// What a level has in a session.
#[derive(Clone, Copy)]
pub struct Part {
    /// Its deck.
    pub deck: &'static [u8],
    /// The texts of the lines that it prints, on page 1 from line 1.
    pub lines: &'static [&'static [u8]],
}

/// How many runs failed in each kind of call.
#[derive(Clone, Copy)]
pub struct Failed {
    pub in_open: u64,
    pub in_steps: u64,
    pub in_finish: u64,
}

/// A session: two decks, and entries that are repeated.
#[derive(Clone, Copy)]
pub struct Session {
    pub one: Part,
    pub two: Part,
    /// The entries of a round.
    pub round: &'static [Entry],
    pub rounds: u8,
    /// Whether no entry is level 2's.
    pub is_alone: bool,
    /// No fewer transfers than these can do.
    pub least: Failed,
}

/// How a run ended.
#[derive(Clone, Copy)]
pub enum End {
    /// Both levels are closed.
    Whole,
    /// The mount was refused for the cause that may stop the run,
    Open,
    /// or an entry was,
    Step,
    /// or the end of both levels.
    Finish,
    /// It was stopped for another cause.
    Otherwise,
}

/// A run over a store with a fuse.
#[derive(Drop)]
struct Run {
    end: End,
    /// Whether each call after the end answered that the bureau is stopped.
    stays_stopped: bool,
    /// Whether the lines of each level are the first expected ones, and all of them, without a halt, if the end is whole.
    has_lines: bool,
    /// The bytes that the store has at its end.
    bytes: Vec<u8>,
}

impl Run {
    /// What is wrong with a session's run on this pack: nothing, if all is as it must be.
    fn wrong(&self, session: &Session, pack: &[u8]) -> &'static str {
        if matches!(self.end, End::Otherwise) {
            "it was stopped for another cause"
        } else if !self.stays_stopped {
            "it wasn't stopped at its end"
        } else if !self.has_lines {
            "it has other lines, or a halt"
        } else if !are_spared(pack, self.bytes.as_slice(), session.is_alone) {
            "it changed sectors that have to stay"
        } else {
            ""
        }
    }
}

type Store = FuseStore<MemoryStore>;

/// How a call ended that was stopped, where `cause` alone may do so.
fn end_by(stop: Stop, cause: Stop, end: End) -> End {
    if stop == cause { end } else { End::Otherwise }
}

/// How an opening ended that was refused, where `cause` alone may do so.
fn end_of_refusal(refusal: Refusal, cause: Stop) -> End {
    match refusal {
        Refusal::Sectors(fault) => end_by(Stop::from(fault), cause, End::Open),
        Refusal::BadPack(_) => End::Otherwise,
    }
}

/// Whether a line has this text, and blanks after it.
fn has_text(line: &PrintLine, text: &[u8]) -> bool {
    let printed = line.text();
    text.len() <= printed.len()
        && printed.iter().enumerate().all(|(at, code)| host_byte(*code)
            == text.get(at).copied().unwrap_or(b' '))
}

/// Whether these lines are the first ones wanted.
fn are_first(lines: &[PrintLine], wanted: &[&[u8]]) -> bool {
    lines.len() <= wanted.len()
        && lines.iter().zip(wanted).zip(1..=66u8).all(|((line, text), number)| {
            line.page() == 1 && line.line() == number && has_text(line, text)
        })
}

/// Whether a level's lines are the first expected ones, and all of them, without a halt, if the run's end is whole.
fn has_lines(bureau: &Bureau<Store>, level: LevelId, wanted: &[&[u8]], is_whole: bool) -> bool {
    let lines = bureau.lines(level);
    let is_done = (lines.len() == wanted.len()) & bureau.halts(level).is_empty();
    are_first(lines, wanted) & (is_done | !is_whole)
}

/// Whether each call answers that the bureau is stopped.
fn stays_stopped(round: &[Entry], bureau: &mut Bureau<Store>) -> bool {
    let mut is_stopped = matches!(finish(bureau), Err(Stop::Stopped));
    for entry in round {
        is_stopped &= matches!(step(bureau, *entry), Err(Stop::Stopped));
    }
    is_stopped & matches!(finish(bureau), Err(Stop::Stopped))
}

/// Does the entries of a round.
fn do_round(round: &[Entry], bureau: &mut Bureau<Store>) -> Result<(), Stop> {
    for entry in round {
        step(bureau, *entry)?;
    }
    Ok(())
}

/// Does all rounds.
fn do_rounds(session: &Session, bureau: &mut Bureau<Store>) -> Result<(), Stop> {
    for _round in 0..session.rounds {
        do_round(session.round, bureau)?;
    }
    Ok(())
}

/// Does all rounds and closes both levels, up to a stop.
fn play(session: &Session, bureau: &mut Bureau<Store>, cause: Stop) -> End {
    match do_rounds(session, bureau) {
        Ok(()) => match finish(bureau) {
            Ok(()) => End::Whole,
            Err(stop) => end_by(stop, cause, End::Finish),
        },
        Err(stop) => end_by(stop, cause, End::Step),
    }
}

/// A session on a bureau before its first entry.
fn run_on(session: &Session, mut bureau: Bureau<Store>, cause: Stop) -> Run {
    let end = play(session, &mut bureau, cause);
    let stays_stopped = stays_stopped(session.round, &mut bureau);
    let is_whole = matches!(end, End::Whole);
    let one = has_lines(&bureau, LevelId::One, session.one.lines, is_whole);
    let two = has_lines(&bureau, LevelId::Two, session.two.lines, is_whole);
    Run {
        end,
        stays_stopped,
        has_lines: one & two,
        bytes: bureau.into_store().into_inner().into_bytes(),
    }
}

/// A session over a store that fails at a call, or if memory may be refused: for this cause alone it may be stopped.
fn run_over(
    alloc: Global,
    session: &Session,
    decks: (Deck, Deck),
    store: Store,
    cause: Stop,
) -> Run {
    let (one, two) = decks;
    match Bureau::open(alloc, store, one, two) {
        Ok(bureau) => run_on(session, bureau, cause),
        Err(RefusedStore { store, fault }) => Run {
            end: end_of_refusal(fault, cause),
            stays_stopped: true,
            has_lines: true,
            bytes: store.into_inner().into_bytes(),
        },
    }
}

/// The decks of both levels.
fn read_decks(alloc: Global, session: &Session) -> Result<(Deck, Deck), DeckFault> {
    Ok((
        Deck::read(alloc, session.one.deck)?,
        Deck::read(alloc, session.two.deck)?,
    ))
}

/// The session on a copy of a pack, over a store that fails at call `k`, if that isn't 0.
fn run_with_fuse(
    alloc: Global,
    session: &Session,
    pack: &[u8],
    k: u64,
    cause: Stop,
) -> Result<Run, DeckFault> {
    let decks = read_decks(alloc, session)?;
    let bytes = Vec::from_slice(alloc, pack)?;
    let store = FuseStore::new(MemoryStore::from_bytes(bytes), k);
    Ok(run_over(alloc, session, decks, store, cause))
}

/// How a run ended, and what is wrong with it: nothing, if all is as it must be.
#[derive(Clone, Copy)]
pub struct Judged {
    pub end: End,
    pub wrong: &'static str,
}

/// The session on a copy of a pack, over a store that fails at call `k`, if that isn't 0; it may be stopped for this cause alone.
/// Refused if memory runs out before its first call.
pub fn judge(
    alloc: Global,
    session: &Session,
    pack: &[u8],
    k: u64,
    cause: Stop,
) -> Result<Judged, DeckFault> {
    let run = run_with_fuse(alloc, session, pack, k, cause)?;
    Ok(Judged {
        end: run.end,
        wrong: run.wrong(session, pack),
    })
}
