//! Sources that the listing of a deck lacks: another program is loaded in place of the compiler, or the job before has no end.

use s3_cards::ebcdic::LETTER_F;
use s3_cards::{Card, Deck, Name, punched};
use s3_decks::{DeckText, JobEntry, Statements, jobs_of, push_stray, strays_of};
use std::alloc::{AllocError, Global};
use std::io::Write;

/// The program that is loaded if the first character of $RPG is missing.
const RPG: [u8; 3] = punched!(3, b"RPG");

/// Reports the jobs of a deck that may have a source among their data, which isn't listed: those that load RPG in place of $RPG, and those
/// with statements of later jobs. Such statements in a source or in a faulty job are listed.
pub(crate) fn report_unlisted(
    rt: &HostRuntime,
    places: &DeckText<'_>,
    deck: &Deck,
) -> Result<(), AllocError> {
    let alloc = rt.alloc();
    let jobs = jobs_of(alloc, deck)?;
    let mut text = String::new(alloc);
    for job in &jobs {
        push_unlisted(&mut text, alloc, places, deck, job)?;
    }
    let _ = rt.stderr().write_all(text.as_bytes());
    Ok(())
}

/// Appends why a source among the data of a job isn't listed, if it may have one.
fn push_unlisted(
    text: &mut String,
    alloc: Global,
    places: &DeckText<'_>,
    deck: &Deck,
    job: &JobEntry,
) -> Result<(), AllocError> {
    let Statements::Sound(cards) = &job.statements else {
        return Ok(());
    };
    if job.is_compile() {
        return Ok(());
    }
    let place = places.place_of(job.first_card());
    let mut data = cards.data_from()..cards.data_to();
    if cards.program() == Name::of(&RPG) && data.any(|place| is_file_card_at(deck, place)) {
        writeln!(
            text,
            "{place}: the job loads the program RPG, so its source isn't compiled. Write // LOAD $RPG,F1."
        )?;
    }
    let strays = strays_of(alloc, deck, job)?;
    if !strays.is_empty() {
        write!(text, "{place}: the job ")?;
        push_stray(text, places, deck, job, &strays)?;
    }
    Ok(())
}

/// Whether the card at a place is one of the File Description specifications.
fn is_file_card_at(deck: &Deck, place: usize) -> bool {
    match deck.card(place) {
        Some(card) => is_file_card(card),
        None => false,
    }
}

fn is_file_card(card: &Card) -> bool {
    card.get(5) == Some(&LETTER_F)
}
