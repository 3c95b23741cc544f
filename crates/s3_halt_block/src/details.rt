//! The details of faulty statements and of sources with diagnostics.

use crate::cards::DeckCards;
use s3_blame::{FaultyEntry, columns_of, diagnostic_words, entries_of};
use s3_cards::trim_end;
use s3_decks::{Columns, Statements, keyword_columns, push_marks, push_under_ruler};
use s3_evidence::Begun;
use s3_lines::Diagnostic;
use s3_operator::{Halt, HaltCode};
use s3_reasons::{Reasons, reasons_of, statement_reason};
use std::alloc::{AllocError, Global};

/// The most details that are shown.
const MOST: usize = 20;

/// What is to blame for the diagnostics of a halt, and why.
#[derive(Drop)]
struct Blame {
    entries: Vec<FaultyEntry>,
    reasons: Reasons,
}

/// Appends each detail of a halt, by cards: the card, and below it what is wrong there, with marks under the columns to blame. At most
/// twenty are shown, and how many more there are is reported.
pub(crate) fn push_details(
    text: &mut String,
    alloc: Global,
    cards: DeckCards<'_>,
    begun: &Begun,
    halt: &Halt,
) -> Result<(), AllocError> {
    let blame = blame_of(alloc, cards, begun, halt)?;
    let pushed = push_first_details(text, alloc, cards, begun, halt, &blame);
    drop(blame);
    pushed?;
    let more = halt.details.len().saturating_sub(MOST);
    if more > 0 {
        writeln!(text, "  and {more} more")?;
    }
    Ok(())
}

/// Appends the first twenty details of a halt, given what is to blame for them.
fn push_first_details(
    text: &mut String,
    alloc: Global,
    cards: DeckCards<'_>,
    begun: &Begun,
    halt: &Halt,
    blame: &Blame,
) -> Result<(), AllocError> {
    let mut before = 0;
    for (card, number) in halt.details.iter().take(MOST) {
        let place = usize::from(*card);
        if place != before {
            push_card_at_fault(text, cards, place, last_column(&blame.entries, *card))?;
        }
        before = place;
        let diagnostic = Diagnostic {
            card: *card,
            number: *number,
        };
        push_detail(text, alloc, cards, begun, halt.code, blame, &diagnostic)?;
    }
    Ok(())
}

/// Appends a detail of a halt under its card: the marks, the number and the text.
fn push_detail(
    text: &mut String,
    alloc: Global,
    cards: DeckCards<'_>,
    begun: &Begun,
    code: HaltCode,
    blame: &Blame,
    diagnostic: &Diagnostic,
) -> Result<(), AllocError> {
    let marked = marked_for(alloc, cards, begun, code, &blame.entries, diagnostic)?;
    push_marked(text, &marked)?;
    let number = diagnostic.number;
    write!(text, "    {number:02}  ")?;
    match code {
        HaltCode::FaultyJob => push_fault(text, alloc, cards, begun),
        _ => {
            let reason = blame.reasons.of(diagnostic.card, number);
            push_words(text, diagnostic_words(number), reason)
        }
    }
}

/// What is to blame for the diagnostics of a halt; nothing for a halt without diagnostics.
fn blame_of(
    alloc: Global,
    cards: DeckCards<'_>,
    begun: &Begun,
    halt: &Halt,
) -> Result<Blame, AllocError> {
    let found = diagnostics_of(alloc, halt)?;
    let blame = blame_for(alloc, cards, begun, &found);
    drop(found);
    blame
}

/// The diagnostics that a halt has as details.
fn diagnostics_of(alloc: Global, halt: &Halt) -> Result<Vec<Diagnostic>, AllocError> {
    let mut found = Vec::new(alloc);
    for (card, number) in halt.details.iter() {
        found.push(Diagnostic {
            card: *card,
            number: *number,
        })?;
    }
    Ok(found)
}

/// What is to blame for diagnostics of the job that was begun last; nothing if there are none.
fn blame_for(
    alloc: Global,
    cards: DeckCards<'_>,
    begun: &Begun,
    found: &[Diagnostic],
) -> Result<Blame, AllocError> {
    let Some(job) = begun.statements() else {
        return Ok(Blame::nothing(alloc));
    };
    let from = job.data_from();
    let to = job.data_to();
    if found.is_empty() || to > cards.deck.len() {
        return Ok(Blame::nothing(alloc));
    }
    let entries = entries_of(alloc, cards.deck, from, to, found)?;
    let reasons = reasons_of(alloc, cards.deck, from, to, found, &entries)?;
    Ok(Blame { entries, reasons })
}

impl Blame {
    fn nothing(alloc: Global) -> Blame {
        Blame {
            entries: Vec::new(alloc),
            reasons: Reasons::none(alloc),
        }
    }
}

/// The columns to mark for a detail: of a faulty statement all that it has, of a blank one the first, of the RUN card its word, else
/// those to blame.
fn marked_for(
    alloc: Global,
    cards: DeckCards<'_>,
    begun: &Begun,
    code: HaltCode,
    entries: &[FaultyEntry],
    diagnostic: &Diagnostic,
) -> Result<Vec<Columns>, AllocError> {
    let mut marked = Vec::new(alloc);
    if matches!(code, HaltCode::FaultyJob) {
        if let Some(card) = cards.card(usize::from(diagnostic.card)) {
            let to = trim_end(card).len().max(1);
            marked.push(Columns { from: 1, to })?;
        }
    } else if begun
        .statements()
        .is_some_and(|job| job.run_card() == diagnostic.card)
    {
        if let Some(card) = cards.card(usize::from(diagnostic.card)) {
            marked.push(keyword_columns(card))?;
        }
    } else {
        return columns_of(alloc, entries, diagnostic);
    }
    Ok(marked)
}

/// Appends a line with marks, if columns are marked.
fn push_marked(text: &mut String, marked: &[Columns]) -> Result<(), AllocError> {
    if marked.is_empty() {
        return Ok(());
    }
    text.push_str("    ")?;
    push_marks(text, marked)?;
    text.push('\n')
}

/// The last column of a card that is to blame for a diagnostic; 0 if none is.
fn last_column(entries: &[FaultyEntry], card: u16) -> usize {
    let mut last = 0;
    for entry in entries {
        if entry.card == card {
            last = entry.to.max(last);
        }
    }
    last
}

/// Appends a card that has details, under a ruler that has so many columns at least.
fn push_card_at_fault(
    text: &mut String,
    cards: DeckCards<'_>,
    number: usize,
    columns: usize,
) -> Result<(), AllocError> {
    text.push_str("  ")?;
    cards.push_place(text, number)?;
    text.push('\n')?;
    match cards.card(number) {
        Some(card) => push_under_ruler(text, card, columns.max(1)),
        None => Ok(()),
    }
}

/// Appends the text of a detail, and on a line below it the reason, if there is one.
fn push_words(text: &mut String, words: &str, reason: &str) -> Result<(), AllocError> {
    writeln!(text, "{words}")?;
    if reason.is_empty() {
        return Ok(());
    }
    writeln!(text, "        {reason}")
}

/// Appends what is wrong with the statements of the job that was begun last, and why.
fn push_fault(
    text: &mut String,
    alloc: Global,
    cards: DeckCards<'_>,
    begun: &Begun,
) -> Result<(), AllocError> {
    let Some(job) = begun.last() else {
        return text.push('\n');
    };
    let Statements::Faulty(faulty) = &job.statements else {
        return text.push('\n');
    };
    let fault = faulty.fault;
    let mut words = String::new(alloc);
    write!(words, "{fault}")?;
    let reason = statement_reason(alloc, cards.deck, job.first_card(), faulty)?;
    push_words(text, words.as_str(), reason.as_str())
}
