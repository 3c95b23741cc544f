//! A card at which a day can't be taken up, in words.

use crate::job_list::JobEntry;
use crate::listing::push_lines;
use crate::names::{Quoted, is_shown};
use crate::{DeckText, FilePlace, Position};
use s3_cards::LevelId;
use std::alloc::AllocError;

/// Appends that a day can't be taken up at a card, by its number from 1, since it is one of the job at a place; and at which cards it
/// can, to do this job or to leave it out.
pub fn push_cut(
    text: &mut String,
    level: LevelId,
    deck: &DeckText<'_>,
    jobs: &[JobEntry],
    place: usize,
    card: usize,
) -> Result<(), AllocError> {
    let Some(job) = jobs.get(place) else {
        return Ok(());
    };
    let (number, of_level) = (place.saturating_add(1), level.number());
    let within = deck.place_of(card);
    write!(text, "level {of_level}: {within} is inside job {number} (")?;
    push_lines(
        text,
        deck.place_of(job.first_card()),
        deck.place_of(job.after()),
    )?;
    text.push_str("); give ")?;
    push_option(text, level, deck, job.first_card())?;
    text.push_str(" to do it")?;
    match jobs.get(place.saturating_add(1)) {
        Some(next) => {
            text.push_str(", or ")?;
            push_option(text, level, deck, next.first_card())?;
            text.push_str(" to leave it out\n")
        }
        None => text.push_str("; no job follows it\n"),
    }
}

/// Appends `--from1 day1.job:20`, or `--from1 20` if the file and its line don't name the card.
fn push_option(
    text: &mut String,
    level: LevelId,
    deck: &DeckText<'_>,
    card: usize,
) -> Result<(), AllocError> {
    let number = level.number();
    write!(text, "--from{number} ")?;
    match deck.place_of(card).place {
        Some(place) if names_card(deck, place, card) => {
            let (file, line) = (Quoted(place.file), place.line);
            write!(text, "{file}:{line}")
        }
        _ => write!(text, "{card}"),
    }
}

/// Whether a line of a file can be typed, and means this card: a file that was given twice has the line twice.
fn names_card(deck: &DeckText<'_>, place: FilePlace<'_>, card: usize) -> bool {
    let position = Position {
        file: Some(place.file),
        line: place.line,
    };
    place.file.chars().all(|character| is_shown(character)) && deck.card_at(&position) == Some(card)
}
