//! The statements on cards.
ghost use Rattle.std.specs.Prelude.{◌≡◌, ◌+◌, ◌<◌, ◌≤◌, ◌∷◌, ◌++◌, OnOk, IfOk, IfSome, MatchOption, length, drop, slice_index_or, []};
ghost use Rattle.s3_ocl.specs.Parameters.{parts_of};
ghost use Rattle.s3_ocl.specs.Statements.{piece_of, pieces_in, texts_behind, is_verb, statement_at};
ghost use Rattle.s3_ocl.specs.Inner.Steps.{pieces_more};

use super::cards::{card_at, first_word, first_words, is_continuation};
use super::parameters::{
    Entry, Verb, behind_comma, entry_of, first_part, goes_on, verb_of, without_comma,
};
use s3_cards::Card;
use std::alloc::AllocError;
use std::marker::Model;

/// What is at the place of a parameter, with the number of its card.
#[derive(Clone, Copy)]
pub struct Piece {
    /// The number of the card, from 1 to 9,999.
    pub card: u16,
    /// The parameter, or what is in its place.
    pub entry: Entry,
}

/// A statement of a job, with all of its continuation cards.
#[derive(Drop)]
pub struct Statement {
    /// The number of the statement's first card, from 1 to 9,999.
    pub number: u16,
    /// What the statement does, or `None` if its keyword is unknown.
    pub verb: Option<Verb>,
    /// The statement's parameters in their order; none if its keyword is unknown.
    pub pieces: Vec<Piece>,
    /// How many cards the statement has, at least 1.
    pub cards: usize,
    /// Whether the statement ends with a comma with nothing after it.
    pub is_open: bool,
}

impl Model for Statement {
    ghost use Rattle.s3_ocl.specs.Statements.{Statement};

    ghost Value = { Statement };

    ghost view = { λ s. record { number = s.number; verb = s.verb; pieces = s.pieces.items; cards = s.cards; is_open = s.is_open } };
}

impl Statement {
    /// Whether the statement's keyword names this verb.
    pub fn does(&self, verb: Verb) -> bool
        ensures { result ≡ is_verb verb self.now.verb }
    {
        self.verb == Some(verb)
    }
}

/// Adds the parameter that a text is.
fn add_piece(
    pieces: &mut Vec<Piece>,
    verb: Verb,
    number: u16,
    text: &[u8],
) -> Result<(), AllocError>
    ensures { OnOk result (pieces.new.items ≡ pieces.old.items ++ piece_of verb number (length pieces.old.items) text.now ∷ []) }
{
    let entry = entry_of(verb, pieces.len(), text);
    pieces.push(Piece {
        card: number,
        entry,
    })?;
    Ok(())
}

/// Adds the parameters on a card to the parameters of a statement.
#[tactic(auto, using(crate::proofs::PieceLemmas::no_parts, crate::proofs::PieceLemmas::one_more_piece, crate::proofs::PieceLemmas::last_piece))]
fn add_pieces(
    pieces: &mut Vec<Piece>,
    verb: Verb,
    number: u16,
    text: &[u8],
) -> Result<(), AllocError>
    ensures { OnOk result (pieces.old.items ++ pieces_in verb number (length pieces.old.items) (parts_of text.now) ≡ pieces.new.items) }
{
    if text.is_empty() {
        return Ok(());
    }
    let mut left = without_comma(text);
    'parts: loop {
        add_piece(pieces, verb, number, first_part(left))?;
        match behind_comma(left) {
            None => return Ok(()),
            Some(text) => left = text,
        }
    }
}

/// Adds the parameters on a card, if the statement is known.
fn add_known_pieces(
    pieces: &mut Vec<Piece>,
    verb: Option<Verb>,
    number: u16,
    text: &[u8],
) -> Result<(), AllocError>
    ensures { OnOk result (pieces.new.items ≡ pieces.old.items ++ pieces_more verb number pieces.old.items text.now) }
{
    match verb {
        None => Ok(()),
        Some(verb) => add_pieces(pieces, verb, number, text),
    }
}

/// The parameter text at a place, if the statement continues there after this text.
#[tactic(auto, using(crate::proofs::PieceLemmas::text_ends, crate::proofs::PieceLemmas::cards_end, crate::proofs::PieceLemmas::other_card, crate::proofs::PieceLemmas::text_goes_on))]
fn next_text<'a>(text: &[u8], cards: &'a [Card], place: usize) -> Option<&'a [u8]>
    ensures texts { MatchOption result (texts_behind text.now (drop place cards.now) ≡ []) (λ next. texts_behind text.now (drop place cards.now) ≡ next.now ∷ texts_behind next.now (drop (place + 1) cards.now)) }
    ensures within { IfSome result (λ _. place < length cards.now) }
{
    if !goes_on(text) {
        return None;
    }
    match card_at(cards, place) {
        None => None,
        Some(card) => if is_continuation(card) {
            Some(first_word(card))
        } else {
            None
        },
    }
}

/// The statement that begins at a place. Its parameters get the space of others, which are dropped.
#[tactic(auto, using(crate::proofs::PieceLemmas::first_card_read, crate::proofs::PieceLemmas::one_more_card, crate::proofs::PieceLemmas::statement_read))]
pub fn read_statement(
    others: Vec<Piece>,
    cards: &[Card],
    place: usize,
) -> Result<Statement, AllocError>
    requires within { place < length cards.now }
    requires short { length cards.now ≤ 9_999 }
    ensures within { IfOk result (λ statement. (0 < statement.cards) × (place + statement.cards ≤ length cards.now)) }
    ensures value { IfOk result (λ statement. statement ≡ statement_at (place + 1) (slice_index_or cards.now place []) (drop (place + 1) cards.now)) }
{
    let (keyword, parameters) = first_words(&cards[place]);
    let verb = verb_of(keyword);
    let mut text = parameters;
    let mut pieces = others;
    pieces.clear();
    add_known_pieces(&mut pieces, verb, place as u16 + 1, text)?;
    let mut end = place + 1;
    while let Some(next) = next_text(text, cards, end) {
        text = next;
        add_known_pieces(&mut pieces, verb, end as u16 + 1, text)?;
        end += 1;
    }
    Ok(Statement {
        number: place as u16 + 1,
        verb,
        pieces,
        cards: end - place,
        is_open: goes_on(text),
    })
}
