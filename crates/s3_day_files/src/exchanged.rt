//! Decks that another level has run before.

use s3_cards::LevelId;
use s3_journal::{PostedDay, Posting, checksum_of_deck};
use std::alloc::AllocError;
use std::io::Write;

/// Reports each deck that a day of a journal has run at the other level, and no day at its own: the decks may be exchanged.
pub(crate) fn report_exchanged(
    rt: &HostRuntime,
    days: &[PostedDay],
    given: Posting<'_>,
) -> Result<(), AllocError> {
    let empty = checksum_of_deck(rt.alloc(), &[])?;
    for level in [LevelId::One, LevelId::Two] {
        if let Some(deck) = deck_of(given, level)
            && deck != empty.as_str()
            && !days.iter().any(|day| has_run(day, level, deck))
            && let Some(day) = days.iter().find(|day| has_run(day, level.other(), deck))
        {
            report_other(rt, level, day);
        }
    }
    Ok(())
}

/// The checksum of the deck that is posted at a level, if decks are posted.
fn deck_of<'a>(posting: Posting<'a>, level: LevelId) -> Option<&'a str> {
    match (posting, level) {
        (Posting::Decks { one, two: _ }, LevelId::One) => Some(one),
        (Posting::Decks { one: _, two }, LevelId::Two) => Some(two),
        _ => None,
    }
}

/// Whether a day has run the deck with this checksum at a level.
fn has_run(day: &PostedDay, level: LevelId, deck: &str) -> bool {
    match deck_of(day.work.posting(), level) {
        Some(posted) => posted == deck,
        None => false,
    }
}

/// Reports the day that has run a deck at the other level.
fn report_other(rt: &HostRuntime, level: LevelId, day: &PostedDay) {
    let (own, other) = (level.number(), level.other().number());
    let (number, at) = (day.number, day.at.as_str());
    let _ = writeln!(
        rt.stderr(),
        "--deck{own} has the cards that level {other} ran on day {number}, {at}: if --deck1 and --deck2 are exchanged by mistake, stop by Control-C and exchange them"
    );
}
