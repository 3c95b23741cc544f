//! Decks: a deck is the list of its cards.

ghost use Rattle.std.specs.Prelude.{◌≡◌, ◌≢◌, ◌↔◌, ◌<◌, ◌≤◌, ◌-◌, ◌∷◌, [], ℕ, List, length, IsTrue, IfOk, OnOk, IfErr, MatchOption, IfSome, Ok, Err, Some, None, slice_get, position, ◌==◌};
ghost use Rattle.std.specs.Option.{option_copied};
ghost use Rattle.std.specs.List.{list_any};
ghost use Rattle.std.specs.Str.Lines.{lines, strip_carriage_return};
ghost use Rattle.s3_cards.specs.Deck.{fault_of, card_of, deck_of, fault_code, detail_of};
ghost use Rattle.s3_cards.specs.Inner.Deck.{HasCardNumber, Gives, StartsWithCard, StartsWithFault, codes_and_blanks, codes_to};

use super::characters::code_or_zero;
use super::ebcdic::BLANK;
use memchr::memchr;
use std::alloc::{AllocError, AllocFailed, Global};
use std::marker::Model;

/// The columns of a card.
pub const COLUMNS: usize = 96;

/// A deck gets room at first for a card of each so many bytes of its text.
const SHORT_LINE: usize = 8;

/// A card: the EBCDIC codes of its columns.
pub type Card = [u8; COLUMNS];

/// The most cards of a deck.
const MAX_CARDS: usize = 9_999;

/// What is wrong with a card of a text.
#[derive(Clone, Copy, Debug)]
pub enum CardFault {
    /// The card's line has over 96 bytes.
    TooWide,
    /// The card's line has a byte that is no card character.
    BadCharacter,
    /// The card is the 9,999th one, and the text has more.
    TooMany,
}

impl CardFault {
    /// The number of the fault, 1 to 3.
    pub fn code(self) -> u8
        ensures { result ≡ fault_code self }
    {
        match self {
            CardFault::TooWide => 1,
            CardFault::BadCharacter => 2,
            CardFault::TooMany => 3,
        }
    }
}

/// Why a text is no deck.
#[derive(Debug, Drop)]
pub enum DeckFault {
    /// There is no memory for the cards.
    NoMemory,
    /// The number of the first card in error, from 1, and what is wrong with it. The number is 9,999 if there are too many cards.
    At(u16, CardFault),
}

impl DeckFault {
    /// The number of the card in error and the number of its fault; none if memory ran out.
    pub fn detail(&self) -> Option<(u16, u8)>
        ensures { result ≡ detail_of self.now }
    {
        match self {
            DeckFault::NoMemory => None,
            DeckFault::At(number, fault) => Some((*number, fault.code())),
        }
    }
}

impl From<AllocFailed<Card>> for DeckFault {
    ghost use Rattle.std.specs.Prelude.{◌≡◌};
    ghost use Rattle.s3_cards.specs.declared.deck.DeckFault.TheVariants.{NoMemory};

    ghost from_gives = { λ _ e. e ≡ NoMemory };

    fn from(_: AllocFailed<Card>) -> Self {
        DeckFault::NoMemory
    }
}

impl From<AllocError> for DeckFault {
    ghost use Rattle.std.specs.Prelude.{◌≡◌};
    ghost use Rattle.s3_cards.specs.declared.deck.DeckFault.TheVariants.{NoMemory};

    ghost from_gives = { λ _ e. e ≡ NoMemory };

    fn from(_: AllocError) -> Self {
        DeckFault::NoMemory
    }
}

/// A deck: its cards in order, at most 9,999.
#[derive(Drop)]
pub struct Deck {
    cards: Vec<Card>,
}

impl Model for Deck {
    ghost Value = { List (List ℕ) };

    ghost view = { λ d. d.cards.items };

    ghost invariant = { λ d. length d.cards.items ≤ 9_999 };
}

impl Deck {
    /// A deck without cards.
    pub fn empty(alloc: Global) -> Deck
        ensures { result ≡ [] }
    {
        Deck {
            cards: Vec::new(alloc),
        }
    }

    /// The cards of a text, or its first fault. Lines end with a line feed, and one carriage return before it is dropped; a
    /// last line without line feed is a card unless it is empty. A card is padded with blanks to 96 columns.
    ///
    /// A line over 96 bytes is refused, then one with a byte that is no card character, then the first card past 9,999.
    #[tactic(auto, using(crate::proofs::DeckLemmas::none_read, crate::proofs::DeckLemmas::one_more_at, crate::proofs::DeckLemmas::all_read_at))]
    pub fn read(alloc: Global, text: &[u8]) -> Result<Deck, DeckFault>
        ensures value { Gives result (deck_of text.now) }
        ensures numbered { IfErr result HasCardNumber }
    {
        let mut cards = Vec::with_capacity(alloc, (text.len() / SHORT_LINE).min(MAX_CARDS))?;
        let mut rest = text;
        let mut width = 0;
        while !rest.is_empty() {
            if cards.len() == MAX_CARDS {
                return Err(DeckFault::At(9_999, CardFault::TooMany));
            }
            let mut card: Card = [BLANK; COLUMNS];
            match punch_first(rest, width, &mut card) {
                Ok((columns, after)) => {
                    cards.push(card)?;
                    width = columns;
                    rest = after;
                }
                Err(fault) => return Err(DeckFault::At(cards.len() as u16 + 1, fault)),
            }
        }
        Ok(Deck { cards })
    }

    /// The card at a place, from 0; `None` after the last one.
    pub fn card(&self, place: usize) -> Option<&Card>
        ensures { option_copied result ≡ slice_get self.now place }
    {
        self.cards.get(place)
    }

    /// The cards of the deck in order, at most 9,999.
    pub fn cards(&self) -> &[Card]
        ensures value { result.now ≡ self.now }
        ensures short { length self.now ≤ 9_999 }
    {
        &self.cards
    }

    /// How many cards the deck has, at most 9,999.
    pub fn len(&self) -> usize
        ensures value { result ≡ length self.now }
        ensures short { length self.now ≤ 9_999 }
    {
        self.cards.len()
    }

    /// Whether the deck has no cards.
    pub fn is_empty(&self) -> bool
        ensures { IsTrue result ↔ (self.now ≡ []) }
    {
        self.cards.is_empty()
    }
}

/// Punches the first line of a text that isn't empty into a card, or gives its fault. Answers the width of the line and the text
/// after it. The width of the line before is tried first, so that the end of the line needn't be searched for.
fn punch_first<'a>(
    text: &'a [u8],
    likely: usize,
    card: &mut Card,
) -> Result<(usize, &'a [u8]), CardFault>
    requires { text.now ≢ [] }
    ensures card { IfOk result (λ first. StartsWithCard text.now card.new first.1.now) }
    ensures shorter { IfOk result (λ first. length first.1.now < length text.now) }
    ensures fault { IfErr result (StartsWithFault text.now) }
{
    if let Some(after) = punch_likely(text, likely, card) {
        return Ok((likely, after));
    }
    let Some((line, after)) = first_line(text) else {
        unreachable!();
    };
    punch(line, card)?;
    Ok((line.len(), after))
}

/// Punches the first line of a text into a card if the line has this width and no fault, and answers the text after it. If each
/// byte before a newline is a card character, none of them is a newline or a carriage return.
#[tactic(auto, using(crate::proofs::DeckLemmas::likely_line))]
fn punch_likely<'a>(text: &'a [u8], width: usize, card: &mut Card) -> Option<&'a [u8]>
    ensures card { IfSome result (λ after. StartsWithCard text.now card.new after.now) }
    ensures shorter { IfSome result (λ after. length after.now < length text.now) }
{
    if width >= text.len() || text[width] != b'\n' {
        return None;
    }
    match punch(&text[..width], card) {
        Ok(()) => Some(&text[width + 1..]),
        Err(_) => None,
    }
}

/// Punches a line into a card, or gives its fault. The caller owns the card: a result with a card in it would be copied again and
/// again.
#[tactic(auto, unfolding(crate::specs::Deck::fault_of))]
fn punch(line: &[u8], card: &mut Card) -> Result<(), CardFault>
    ensures ok { OnOk result (card.new ≡ card_of line.now) }
    ensures sound { OnOk result (fault_of line.now ≡ None) }
    ensures fault { IfErr result (λ fault. fault_of line.now ≡ Some fault) }
{
    if line.len() > COLUMNS {
        return Err(CardFault::TooWide);
    }
    translate(line, card);
    if lacks_code(card) {
        return Err(CardFault::BadCharacter);
    }
    Ok(())
}

/// Whether a column has 0, which is no code. All columns are tested, without an early return, so that many are tested at once.
fn lacks_code(card: &Card) -> bool
    ensures { result ≡ list_any (λ code. code == 0) card.now }
{
    let mut lacks = false;
    for code in card {
        lacks |= *code == 0;
    }
    lacks
}

/// Punches the codes of a line's bytes, 0 for each that is no card character, and blanks after them.
fn translate(line: &[u8], card: &mut Card)
    requires { length line.now ≤ 96 }
    ensures { card.new ≡ codes_and_blanks line.now }
{
    *card = [BLANK; COLUMNS];
    let sixteens = translate_groups::<16>(line, 0, card);
    let fours = translate_groups::<4>(line, sixteens, card);
    translate_groups::<1>(line, fours, card);
}

/// Punches the codes of a line's bytes from a column on, in whole groups of a size, and answers the column at which they end.
/// There is no test within a group.
#[tactic(auto, using(crate::proofs::DeckLemmas::byte_more))]
fn translate_groups<const SIZE: usize>(line: &[u8], from: usize, card: &mut Card) -> usize
    requires some { 1 ≤ SIZE }
    requires short { length line.now ≤ 96 }
    requires within { from ≤ length line.now }
    requires before { card.old ≡ codes_to from line.now }
    ensures codes { card.new ≡ codes_to result line.now }
    ensures within { result ≤ length line.now }
    ensures fewer { length line.now - result < SIZE }
{
    let mut end = from;
    'groups: while line.len() - end >= SIZE {
        for place in 0..SIZE {
            card[end + place] = code_or_zero(line[end + place]);
        }
        end += SIZE;
    }
    end
}

/// The place of the first newline.
#[tactic(auto, using(crate::proofs::DeckLemmas::first_place))]
fn newline(text: &[u8]) -> Option<usize>
    ensures { result ≡ position (λ byte. byte == 10) text.now }
{
    memchr(b'\n', text)
}

/// A line less the carriage return at its end, if it has one.
pub fn without_carriage_return(line: &[u8]) -> &[u8]
    ensures { result.now ≡ strip_carriage_return line.now }
{
    match line {
        [front @ .., b'\r'] => front,
        _ => line,
    }
}

/// The first line of a text, and the text after it; `None` for the empty text. Lines end with a line feed, and one carriage
/// return before it is dropped; a last line without a line feed counts as it is.
#[tactic(auto, using(crate::proofs::DeckLemmas::lines_after_newline, crate::proofs::DeckLemmas::lines_last))]
pub fn first_line(text: &[u8]) -> Option<(&[u8], &[u8])>
    ensures line { MatchOption result (lines text.now ≡ []) (λ x. lines text.now ≡ x.0.now ∷ lines x.1.now) }
    ensures shorter { IfSome result (λ x. length x.1.now < length text.now) }
{
    if text.is_empty() {
        return None;
    }
    match newline(text) {
        Some(end) => { Some((without_carriage_return(&text[..end]), &text[end + 1..])) }
        None => Some((text, &[])),
    }
}
