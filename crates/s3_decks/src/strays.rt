//! Statements among the cards of a job that has begun: the next job's, if the end of this one is missing.
ghost use Rattle.std.specs.List.{list_any};
ghost use Rattle.std.specs.Prelude.{◌≡◌, IfOk, drop, slice_get};
ghost use Rattle.s3_ocl.specs.Cards.{first_word as first_word_spec, is_statement as is_statement_spec, word_of};
ghost use Rattle.s3_ocl.specs.Jobs.{holds_at};
ghost use Rattle.s3_ocl.specs.Words.{reads};
ghost use Rattle.s3_ocl.specs.declared.words.TheConstants.{LOAD as load_word, RUN as run_word};
ghost use Rattle.s3_decks.specs.Inner.Days.{said};
ghost use Rattle.s3_decks.specs.Inner.Strays.{has_keyword, is_known_statement as is_known_statement_spec, is_load_or_run as is_load_or_run_spec, keywords, later_loads as later_loads_spec, places_of, strays};

use crate::job_list::{JobEntry, Statements};
use s3_cards::ebcdic::{BLANK, SLASH};
use s3_cards::{Card, Deck, blanks_in_front, punched, word_len};
use std::alloc::{AllocError, Global};

/// The keyword of the statement that begins a job.
const LOAD: [u8; 4] = punched!(4, b"LOAD");

/// The keyword of the statement that ends a job's statements.
const RUN: [u8; 3] = punched!(3, b"RUN");

/// The keyword of the statement of a file.
const FILE: [u8; 4] = punched!(4, b"FILE");

/// The keyword of the statement of a date.
const DATE: [u8; 4] = punched!(4, b"DATE");

/// The keyword of the statement of switches.
const SWITCH: [u8; 6] = punched!(6, b"SWITCH");

/// The statements among the data of a job, which the deck has, by their places from 0; of a faulty job the LOAD statements after its
/// first LOAD or RUN. They are the next jobs' if `/*` and `/&` are missing, since a job's data and a faulty job continue up to these
/// (docs/OCL.md, "A job" and "Faulty jobs"). It is refused only if memory runs out.
pub fn strays_of(alloc: Global, deck: &Deck, job: &JobEntry) -> Result<Vec<usize>, AllocError>
    ensures { IfOk result (λ places. places.items ≡ strays deck.now job.now.cards.from (said job.now.statements)) }
{
    match &job.statements {
        Statements::Sound(cards) => known_statements(
            alloc,
            deck,
            cards.data_from(),
            cards.data_to(),
        ),
        Statements::Faulty(faulty) => later_loads(alloc, deck, job.cards.from, faulty.after),
    }
}

/// The places of the statements from one place up to another.
fn known_statements(
    alloc: Global,
    deck: &Deck,
    from: usize,
    to: usize,
) -> Result<Vec<usize>, AllocError>
    ensures { IfOk result (λ places. places.items ≡ places_of is_known_statement_spec deck.now from to) }
{
    (from..to)
        .filter(|place| is_known_statement_at(deck, *place))
        .collect(alloc)
}

/// The places of the LOAD statements after the first LOAD or RUN from one place up to another.
fn later_loads(alloc: Global, deck: &Deck, from: usize, to: usize) -> Result<Vec<usize>, AllocError>
    ensures { IfOk result (λ places. places.items ≡ later_loads_spec deck.now from to) }
{
    (from..to)
        .filter(|place| is_load_or_run_at(deck, *place))
        .skip(1)
        .filter(|place| is_load_at(deck, *place))
        .collect(alloc)
}

/// Whether the card at a place is a statement.
fn is_known_statement_at(deck: &Deck, place: usize) -> bool
    ensures { result ≡ holds_at is_known_statement_spec (slice_get deck.now place) }
{
    match deck.card(place) {
        Some(card) => is_known_statement(card),
        None => false,
    }
}

/// Whether the card at a place is a LOAD statement.
fn is_load_at(deck: &Deck, place: usize) -> bool
    ensures { result ≡ holds_at (has_keyword load_word) (slice_get deck.now place) }
{
    match deck.card(place) {
        Some(card) => is_load(card),
        None => false,
    }
}

/// Whether the card at a place is a LOAD or a RUN statement.
fn is_load_or_run_at(deck: &Deck, place: usize) -> bool
    ensures { result ≡ holds_at is_load_or_run_spec (slice_get deck.now place) }
{
    match deck.card(place) {
        Some(card) => is_load_or_run(card),
        None => false,
    }
}

/// Whether a card is one of the statements, by its keyword.
fn is_known_statement(card: &Card) -> bool
    ensures { result ≡ is_known_statement_spec card.now }
{
    is_statement(card) && is_known_keyword(keyword_of(card))
}

/// Whether a word is the keyword of a statement.
fn is_known_keyword(word: &[u8]) -> bool
    ensures { result ≡ list_any (reads word.now) keywords }
{
    word == LOAD.as_slice()
        || word == FILE.as_slice()
        || word == DATE.as_slice()
        || word == SWITCH.as_slice()
        || word == RUN.as_slice()
}

/// Whether a card is a LOAD or a RUN statement.
fn is_load_or_run(card: &Card) -> bool
    ensures { result ≡ is_load_or_run_spec card.now }
{
    is_load(card) || is_run(card)
}

/// Whether a card is a LOAD statement.
fn is_load(card: &Card) -> bool
    ensures { result ≡ has_keyword load_word card.now }
{
    is_statement(card) && keyword_of(card) == LOAD.as_slice()
}

/// Whether a card is a RUN statement.
fn is_run(card: &Card) -> bool
    ensures { result ≡ has_keyword run_word card.now }
{
    is_statement(card) && keyword_of(card) == RUN.as_slice()
}

/// Whether a card begins with `//` and a blank.
pub(crate) fn is_statement(card: &Card) -> bool
    ensures { result ≡ is_statement_spec card.now }
{
    card.starts_with(&[SLASH, SLASH, BLANK])
}

/// The first word after the first two columns of a card: the keyword of a statement.
pub(crate) fn keyword_of(card: &Card) -> &[u8]
    ensures { result.now ≡ first_word_spec card.now }
{
    first_word(after_slashes(card))
}

/// The columns of a card after the first two.
fn after_slashes(card: &Card) -> &[u8]
    ensures { result.now ≡ drop 2 card.now }
{
    &card[2..]
}

/// The first word of a text.
fn first_word(text: &[u8]) -> &[u8]
    ensures { result.now ≡ word_of text.now }
{
    let from_word = &text[blanks_in_front(text)..];
    &from_word[..word_len(from_word)]
}
