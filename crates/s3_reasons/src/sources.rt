//! The reasons of a source's diagnostics.
ghost use Rattle.std.specs.Prelude.{◌≤◌, length};

use crate::calculations::Misfit;
use crate::entries::entry_words;
use crate::outputs::push_output_reason;
use crate::similar::push_similar;
use indexmap::IndexMap;
use s3_blame::Known;
use s3_cards::ebcdic::{BLANK, SLASH};
use s3_cards::{Card, Deck};
use s3_lines::Diagnostic;
use s3_lines::sheet::{Line, OutputLine, SheetLine};
use s3_sheets::{FaultyEntry, SheetFault, read_sheets};
use std::alloc::{AllocError, Global};

/// The number of a card that is of no sheet.
const OUT_OF_ORDER: u8 = 1;

/// The number of an operation or an edit that doesn't fit.
const MISFIT: u8 = 8;

/// The number of a name that isn't defined.
const UNDEFINED: u8 = 5;

/// The number of a file that can't be so, which the RUN card has if the program doesn't have one primary file.
const WRONG_FILE: u8 = 12;

/// For how many cards similar names are looked for, since each takes a walk over all lines.
const MOST_SEARCHES: usize = 20;

/// The lowest and the highest number of an entry that isn't allowed: 02, 03 and 04.
const ENTRY_NUMBERS: (u8, u8) = (2, 4);

/// Why cards of a source have a diagnostic 01 to 05 or 08, and its RUN card 12, as far as words say more than the diagnostic does; by the
/// cards' numbers.
#[derive(Drop)]
pub struct Reasons {
    /// Those of 01 and 08. A card has one of them at most.
    by_card: IndexMap<u16, String>,
    /// The reasons of 02 to 04, by card and number: what belongs into the first entry that is marked.
    of_entries: IndexMap<u32, String>,
    /// The reasons of 05: similar names.
    similar: IndexMap<u16, String>,
    /// The reason of 12 on the RUN card.
    primary: IndexMap<u16, String>,
}

impl Reasons {
    /// No reasons.
    pub fn none(alloc: Global) -> Reasons {
        Reasons {
            by_card: IndexMap::new(alloc),
            of_entries: IndexMap::new(alloc),
            similar: IndexMap::new(alloc),
            primary: IndexMap::new(alloc),
        }
    }

    /// Why a card has the diagnostic of a number; empty if there is no more to say than the diagnostic.
    pub fn of(&self, card: u16, number: u8) -> &str {
        let found = match number {
            OUT_OF_ORDER | MISFIT => self.by_card.get(&card),
            UNDEFINED => self.similar.get(&card),
            WRONG_FILE => self.primary.get(&card),
            _ if is_of_entry(number) => self.of_entries.get(&entry_key(card, number)),
            _ => None,
        };
        match found {
            Some(text) => text.as_str(),
            None => "",
        }
    }
}

/// The reasons of a source's diagnostics, given the entries to blame for them. The source is in a deck from place `from` up to but
/// without place `to`. It is refused only if memory runs out.
pub fn reasons_of(
    alloc: Global,
    deck: &Deck,
    from: usize,
    to: usize,
    told: &[Diagnostic],
    entries: &[FaultyEntry],
) -> Result<Reasons, AllocError> {
    let mut reasons = Reasons::none(alloc);
    add_reasons(alloc, deck, from, to, told, entries, &mut reasons)?;
    Ok(reasons)
}

/// Adds the reasons of a source's diagnostics. The caller owns the table, so that no early return here drops it.
fn add_reasons(
    alloc: Global,
    deck: &Deck,
    from: usize,
    to: usize,
    told: &[Diagnostic],
    entries: &[FaultyEntry],
    reasons: &mut Reasons,
) -> Result<(), AllocError> {
    add_statements(alloc, deck, told, reasons)?;
    add_entries(alloc, deck, told, entries, reasons)?;
    let is_wanted = told.iter().any(|found| is_explained(found, from));
    if from <= to && to <= deck.len() && is_wanted {
        add_by_lines(alloc, deck, from, to, told, entries, reasons)?;
    }
    Ok(())
}

/// Whether a diagnostic is of an entry that isn't allowed: 02, 03 or 04.
fn is_of_entry(number: u8) -> bool {
    let (lowest, highest) = ENTRY_NUMBERS;
    lowest <= number && number <= highest
}

/// A number for each card with one of its diagnostics.
fn entry_key(card: u16, number: u8) -> u32 {
    u32::from(card) * 256 + u32::from(number)
}

/// Adds what belongs into the first entry that each diagnostic 02, 03 or 04 marks. The diagnostics and the entries are in the order of
/// their cards.
fn add_entries(
    alloc: Global,
    deck: &Deck,
    told: &[Diagnostic],
    entries: &[FaultyEntry],
    reasons: &mut Reasons,
) -> Result<(), AllocError> {
    let mut rest = entries;
    for found in told {
        rest = from_card(rest, found.card);
        if is_of_entry(found.number)
            && let Some(card) = card_of(deck, found.card)
            && let Some(first) = first_marked(rest, found)
        {
            let words = entry_words(alloc, card, &first)?;
            reasons
                .of_entries
                .insert(entry_key(found.card, found.number), words)?;
        }
    }
    Ok(())
}

/// The leftmost entry that a diagnostic marks, in a list that begins with the entries of its card.
fn first_marked(entries: &[FaultyEntry], found: &Diagnostic) -> Option<FaultyEntry> {
    let mut first: Option<FaultyEntry> = None;
    for entry in entries.iter().take_while(|entry| entry.card == found.card) {
        let is_first = match first {
            Some(before) => entry.from < before.from,
            None => true,
        };
        if is_first && entry.number == found.number {
            first = Some(*entry);
        }
    }
    first
}

/// Whether the lines of a source from a place on explain a diagnostic. The place is the number of the RUN card.
fn is_explained(found: &Diagnostic, from: usize) -> bool {
    match found.number {
        MISFIT | UNDEFINED => true,
        WRONG_FILE => is_of_run_card(found, from),
        _ => false,
    }
}

/// Whether a diagnostic is of the card before the source that begins at a place: of the RUN card.
fn is_of_run_card(found: &Diagnostic, from: usize) -> bool {
    usize::from(found.card) == from
}

/// Adds the reason of each statement that is read as a card of the source.
fn add_statements(
    alloc: Global,
    deck: &Deck,
    told: &[Diagnostic],
    reasons: &mut Reasons,
) -> Result<(), AllocError> {
    for found in told {
        if found.number == OUT_OF_ORDER && is_statement_at(deck, found.card) {
            let words = String::from_str(
                alloc,
                "a statement; no /* was found before this card, so it is read as a card of the source",
            )?;
            reasons.by_card.insert(found.card, words)?;
        }
    }
    Ok(())
}

/// Whether the card of a number, from 1, is a statement.
fn is_statement_at(deck: &Deck, number: u16) -> bool {
    match card_of(deck, number) {
        Some(card) => matches!(card, [SLASH, SLASH, BLANK, ..]),
        None => false,
    }
}

/// The card of a number, from 1.
fn card_of(deck: &Deck, number: u16) -> Option<&Card> {
    deck.card(usize::from(number).checked_sub(1)?)
}

/// Adds the reasons of the diagnostics 05 and 08, and of 12 on the RUN card.
fn add_by_lines(
    alloc: Global,
    deck: &Deck,
    from: usize,
    to: usize,
    told: &[Diagnostic],
    entries: &[FaultyEntry],
    reasons: &mut Reasons,
) -> Result<(), AllocError>
    requires order { from ≤ to }
    requires within { to ≤ length deck.now }
{
    match read_sheets(alloc, deck, from, to) {
        Ok(lines) => {
            let added = add_of_lines(alloc, deck, &lines, from, told, entries, reasons);
            drop(lines);
            added
        }
        Err(SheetFault::NoMemory) => Err(AllocError),
        Err(SheetFault::Diagnostics(_)) => Ok(()),
    }
}

/// Adds the reasons of the diagnostics 05 and 08, and of 12 on the RUN card, of a source with these lines that begins at place `from`.
fn add_of_lines(
    alloc: Global,
    deck: &Deck,
    lines: &[Line],
    from: usize,
    told: &[Diagnostic],
    entries: &[FaultyEntry],
    reasons: &mut Reasons,
) -> Result<(), AllocError> {
    add_primary(alloc, told, from, lines, reasons)?;
    let known = Known::of(alloc, lines)?;
    let added = add_of_each_line(alloc, deck, &known, lines, entries, reasons);
    drop(known);
    added
}

/// Adds the reasons of the diagnostics 05 and 08 of each line, given what all of them define.
fn add_of_each_line(
    alloc: Global,
    deck: &Deck,
    known: &Known,
    lines: &[Line],
    entries: &[FaultyEntry],
    reasons: &mut Reasons,
) -> Result<(), AllocError> {
    let mut rest = entries;
    for line in lines {
        rest = from_card(rest, line.card);
        add_misfit(alloc, deck, known, line, rest, reasons)?;
        add_similar(alloc, deck, line, lines, rest, reasons)?;
    }
    Ok(())
}

/// Adds how many primary files the lines of a source have, if its RUN card has 12. The source begins at place `from`.
fn add_primary(
    alloc: Global,
    told: &[Diagnostic],
    from: usize,
    lines: &[Line],
    reasons: &mut Reasons,
) -> Result<(), AllocError> {
    for found in told {
        if found.number == WRONG_FILE && is_of_run_card(found, from) {
            let words = primary_words(alloc, lines)?;
            reasons.primary.insert(found.card, words)?;
        }
    }
    Ok(())
}

/// How many primary files lines have, and how many a program has.
fn primary_words(alloc: Global, lines: &[Line]) -> Result<String, AllocError> {
    match lines.iter().filter(|line| is_primary(line)).count() {
        0 => String::from_str(
            alloc,
            "no F card has P in column 16: one file must be primary",
        ),
        count => format!(in alloc;
            "{count} F cards have P in column 16: only one file may be primary"
        ),
    }
}

fn is_primary(line: &Line) -> bool {
    match &line.sheet {
        SheetLine::File(file) => file.is_primary(),
        _ => false,
    }
}

/// Adds which names are similar to those of a line that aren't defined. The entries to blame begin with those of the line's card.
fn add_similar(
    alloc: Global,
    deck: &Deck,
    line: &Line,
    lines: &[Line],
    entries: &[FaultyEntry],
    reasons: &mut Reasons,
) -> Result<(), AllocError> {
    let Some(card) = card_of(deck, line.card) else {
        return Ok(());
    };
    if reasons.similar.len() >= MOST_SEARCHES {
        return Ok(());
    }
    let found = faulty_of(alloc, entries, line.card, UNDEFINED)?;
    if found.is_empty() {
        return Ok(());
    }
    let text = similar_words(alloc, card, line, lines, &found);
    drop(found);
    reasons.similar.insert(line.card, text?)?;
    Ok(())
}

/// Which names are similar to those of a line that aren't defined, given their entries.
fn similar_words(
    alloc: Global,
    card: &Card,
    line: &Line,
    lines: &[Line],
    found: &[FaultyEntry],
) -> Result<String, AllocError> {
    let mut text = String::new(alloc);
    push_similar(alloc, &mut text, card, line, lines, found)?;
    Ok(text)
}

/// The entries of a card that have a number, of a list that begins with the card's.
fn faulty_of(
    alloc: Global,
    entries: &[FaultyEntry],
    card: u16,
    number: u8,
) -> Result<Vec<FaultyEntry>, AllocError> {
    entries
        .iter()
        .take_while(|entry| entry.card == card)
        .filter(|entry| entry.number == number)
        .copied()
        .collect(alloc)
}

/// The entries of a list from the first on that isn't of a card before this one.
fn from_card(entries: &[FaultyEntry], card: u16) -> &[FaultyEntry] {
    let before = entries.iter().take_while(|entry| entry.card < card).count();
    entries.get(before..).unwrap_or(&[])
}

/// Adds the reason of a line's diagnostic 08, if it has one. The entries to blame begin with those of the line's card.
fn add_misfit(
    alloc: Global,
    deck: &Deck,
    known: &Known,
    line: &Line,
    entries: &[FaultyEntry],
    reasons: &mut Reasons,
) -> Result<(), AllocError> {
    let Some(card) = card_of(deck, line.card) else {
        return Ok(());
    };
    let found = faulty_of(alloc, entries, line.card, MISFIT)?;
    if found.is_empty() {
        return Ok(());
    }
    let text = misfit_words(alloc, card, known, line, &found);
    drop(found);
    let text = text?;
    if !text.is_empty() {
        reasons.by_card.insert(line.card, text)?;
    }
    Ok(())
}

/// Why an operation or an edit doesn't fit, given the entries to blame.
fn misfit_words(
    alloc: Global,
    card: &Card,
    known: &Known,
    line: &Line,
    found: &[FaultyEntry],
) -> Result<String, AllocError> {
    let mut text = String::new(alloc);
    push_misfit(&mut text, card, known, line, found)?;
    Ok(text)
}

/// Appends why an operation or an edit doesn't fit.
fn push_misfit(
    text: &mut String,
    card: &Card,
    known: &Known,
    line: &Line,
    found: &[FaultyEntry],
) -> Result<(), AllocError> {
    match &line.sheet {
        SheetLine::Calculation(line) => Misfit { card, line, known }.push(text, found),
        SheetLine::Output(OutputLine::Field(field)) => {
            push_output_reason(text, known, card, field)
        }
        _ => Ok(()),
    }
}
