//! A day that is taken up at a line.

use crate::fault::DayFault;
use crate::order::Order;
use crate::strays::{list_decks, report_strays};
use s3_cards::{CardFault, Deck, DeckFault, LevelId};
use s3_deck_json::push_jobs_of_deck;
use s3_decks::{
    DeckText, FilePlace, JobEntry, Position, job_cut_at, jobs_of, left_out_from, lost_settings,
    push_cut, push_inherited, push_jobs,
};
use s3_host_files::StandardOutput;
use s3_json_lines::{Value, lines_of};
use s3_operating::{DayDeck, push_unread};
use std::alloc::AllocError;
use std::io::Write;

/// Takes the deck of a level up at the line that the options name for it, if they name one; a deck that can't be read stays whole. It
/// is refused if the deck has no such line, if the line is inside a job that would be left out (unless the day of a log is done again,
/// whose line may be such a one), and as `taken_up_at` refuses it.
pub fn take_up<'a>(
    rt: &HostRuntime,
    order: &Order<'a>,
    level: LevelId,
    deck: &mut DayDeck<'a>,
) -> Result<(), DayFault<'a>> {
    let Some(position) = order.from(level) else {
        return Ok(());
    };
    let text = deck.with_places(rt.alloc())?;
    let Some(card) = text.card_at(&position) else {
        tell_no_line(rt, level);
        return Err(DayFault::NoTakingUp);
    };
    if let Some(cards) = cards_of(rt, text.text())? {
        *deck = taken_up(rt, order, level, &text, &cards, card)?;
    }
    Ok(())
}

/// The deck of a level, taken up at a card.
fn taken_up<'a>(
    rt: &HostRuntime,
    order: &Order<'a>,
    level: LevelId,
    text: &DeckText<'a>,
    cards: &Deck,
    card: usize,
) -> Result<DayDeck<'a>, DayFault<'a>> {
    let jobs = jobs_of(rt.alloc(), cards)?;
    if order.redo.is_none() {
        test_beginning(rt, level, text, &jobs, card)?;
    }
    let deck = taken_up_at(rt, level, text, &jobs, card)?;
    if order.redo.is_none() && !order.is_quiet {
        report_beginning(rt, level, text, &jobs, card)?;
    }
    Ok(deck)
}

/// Reports at which line a level is taken up, and how many jobs before it are left out.
fn report_beginning(
    rt: &HostRuntime,
    level: LevelId,
    text: &DeckText<'_>,
    jobs: &[JobEntry],
    card: usize,
) -> Result<(), AllocError> {
    let (number, count) = (level.number(), left_out_from(rt.alloc(), jobs, card)?.len());
    let _ = match place_of_next(text, jobs, card) {
        Some(place) => writeln!(
            rt.stderr(),
            "level {number} is taken up at {place}; jobs left out: {count}"
        ),
        None => writeln!(
            rt.stderr(),
            "level {number} has no job from this line on; jobs left out: {count}"
        ),
    };
    Ok(())
}

/// The line of the first job that begins at a card or after it, if there is one.
fn place_of_next<'a>(text: &DeckText<'a>, jobs: &[JobEntry], card: usize) -> Option<FilePlace<'a>> {
    let job = jobs.iter().find(|job| job.first_card() >= card)?;
    text.place_of(job.first_card()).place
}

/// Reports that the deck of a level has no such line.
fn tell_no_line(rt: &HostRuntime, level: LevelId) {
    let number = level.number();
    let _ = writeln!(
        rt.stderr(),
        "level {number}: its deck has no line as --from{number} names; --jobs lists the lines at which its jobs begin"
    );
}

/// The cards of a deck's text; `None` if it can't be read.
fn cards_of(rt: &HostRuntime, text: &[u8]) -> Result<Option<Deck>, AllocError> {
    match Deck::read(rt.alloc(), text) {
        Ok(deck) => Ok(Some(deck)),
        Err(DeckFault::At(..)) => Ok(None),
        Err(DeckFault::NoMemory) => Err(AllocError),
    }
}

/// Refuses a card that is inside a job which would be left out, and reports at which cards the day can be taken up.
fn test_beginning<'a>(
    rt: &HostRuntime,
    level: LevelId,
    text: &DeckText<'a>,
    jobs: &[JobEntry],
    card: usize,
) -> Result<(), DayFault<'a>> {
    let Some(place) = job_cut_at(jobs, card) else {
        return Ok(());
    };
    let mut report = String::new(rt.alloc());
    push_cut(&mut report, level, text, jobs, place, card)?;
    let _ = rt.stderr().write_all(report.as_bytes());
    Err(DayFault::NoTakingUp)
}

/// The deck of a level without the jobs before a card; refused if a job that is kept lacks what one of these set, which is reported.
fn taken_up_at<'a>(
    rt: &HostRuntime,
    level: LevelId,
    text: &DeckText<'a>,
    jobs: &[JobEntry],
    card: usize,
) -> Result<DayDeck<'a>, DayFault<'a>> {
    let alloc = rt.alloc();
    if let Some(lost) = lost_settings(jobs, card) {
        let number = level.number();
        let mut told = String::new(alloc);
        writeln!(told, "level {number}:")?;
        push_inherited(&mut told, text, jobs, &lost)?;
        let _ = rt.stderr().write_all(told.as_bytes());
        return Err(DayFault::NoTakingUp);
    }
    let left_out = left_out_from(alloc, jobs, card)?;
    Ok(DayDeck::TakenUp(text.without(alloc, &left_out)?))
}

/// Lists the jobs of both decks on standard output, in words or in JSON, and reports those that continue over statements of later jobs.
pub fn list_jobs<'a>(
    rt: &HostRuntime,
    is_json: bool,
    one: &DayDeck<'a>,
    two: &DayDeck<'a>,
) -> Result<(), DayFault<'a>> {
    let text = if is_json {
        jobs_in_json(rt, one, two)?
    } else {
        jobs_in_words(rt, one, two)?.into_bytes()
    };
    if let Err(error) = StandardOutput::new(rt).write_all(text.as_slice()) {
        return Err(DayFault::of_output(&error));
    }
    let decks = list_decks(rt, one, two)?;
    report_strays(rt, one, two, &decks)?;
    Ok(())
}

/// The jobs of both decks in words.
fn jobs_in_words<'a>(
    rt: &HostRuntime,
    one: &DayDeck<'a>,
    two: &DayDeck<'a>,
) -> Result<String, DayFault<'a>> {
    let mut told = String::new(rt.alloc());
    push_level(rt, &mut told, LevelId::One, one)?;
    one.push_blank_ends(&mut told)?;
    push_level(rt, &mut told, LevelId::Two, two)?;
    two.push_blank_ends(&mut told)?;
    Ok(told)
}

/// The jobs of both decks as lines of JSON. Blank lines at the ends of files are reported.
fn jobs_in_json<'a>(
    rt: &HostRuntime,
    one: &DayDeck<'a>,
    two: &DayDeck<'a>,
) -> Result<Vec<u8>, DayFault<'a>> {
    let mut values = Vec::new(rt.alloc());
    push_level_values(rt, &mut values, LevelId::One, one)?;
    push_level_values(rt, &mut values, LevelId::Two, two)?;
    let mut told = String::new(rt.alloc());
    one.push_blank_ends(&mut told)?;
    two.push_blank_ends(&mut told)?;
    let _ = rt.stderr().write_all(told.as_bytes());
    Ok(lines_of(rt.alloc(), &values)?)
}

/// Appends the jobs of the deck of a level.
fn push_level<'a>(
    rt: &HostRuntime,
    told: &mut String,
    level: LevelId,
    deck: &DayDeck<'a>,
) -> Result<(), DayFault<'a>> {
    told.push_str(match level {
        LevelId::One => "level 1\n",
        LevelId::Two => "level 2\n",
    })?;
    let text = deck.with_places(rt.alloc())?;
    let deck = cards_to_list(rt, level, &text)?;
    let jobs = jobs_of(rt.alloc(), &deck)?;
    push_jobs(told, &text, &jobs)?;
    Ok(())
}

/// Appends an object for each job of the deck of a level.
fn push_level_values<'a>(
    rt: &HostRuntime,
    values: &mut Vec<Value>,
    level: LevelId,
    deck: &DayDeck<'a>,
) -> Result<(), DayFault<'a>> {
    let text = deck.with_places(rt.alloc())?;
    let deck = cards_to_list(rt, level, &text)?;
    push_jobs_of_deck(rt.alloc(), values, level, &text, &deck)?;
    Ok(())
}

/// The cards of the deck of a level; refused if they can't be read, which is reported.
fn cards_to_list<'a>(
    rt: &HostRuntime,
    level: LevelId,
    text: &DeckText<'_>,
) -> Result<Deck, DayFault<'a>> {
    match Deck::read(rt.alloc(), text.text()) {
        Ok(deck) => Ok(deck),
        Err(DeckFault::At(card, fault)) => {
            tell_unread(rt, level, text, (card, fault))?;
            Err(DayFault::Deck(level))
        }
        Err(DeckFault::NoMemory) => Err(DayFault::from(AllocError)),
    }
}

/// Reports why a deck can't be read.
fn tell_unread(
    rt: &HostRuntime,
    level: LevelId,
    text: &DeckText<'_>,
    fault: (u16, CardFault),
) -> Result<(), AllocError> {
    let mut told = String::new(rt.alloc());
    push_unread(&mut told, level, text, fault)?;
    let _ = rt.stderr().write_all(told.as_bytes());
    Ok(())
}
