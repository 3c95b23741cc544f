//! What a card is in a job stream, and the punched words on it.
ghost use Rattle.std.specs.Prelude.{◌≡◌, ◌<◌, ◌≤◌, IfSome, drop, length, slice_get};
ghost use Rattle.std.specs.Option.{option_copied};
ghost use Rattle.std.specs.List.{position_or_len};
ghost use Rattle.s3_ocl.specs.Cards.{is_job_end as job_end_spec, is_statement as statement_spec, is_separator as separator_spec, begins_job as begins_job_spec, closes_job as closes_job_spec, next_place, from_word as from_word_spec, word_of, behind_word, first_word as first_word_spec, second_word as second_word_spec, is_continuation as continuation_spec};
ghost use Rattle.s3_ocl.specs.Inner.Cards.{stops_at};

use s3_cards::ebcdic::{AMPERSAND, ASTERISK, BLANK, SLASH};
use s3_cards::{Card, are_same_eight, blanks_in_front, word_len};

/// Whether a card begins `/&`.
pub fn is_job_end(card: &Card) -> bool
    ensures { result ≡ job_end_spec card.now }
{
    card.starts_with(&[SLASH, AMPERSAND])
}

/// Whether a card begins `//` and a blank.
pub fn is_statement(card: &Card) -> bool
    ensures { result ≡ statement_spec card.now }
{
    card.starts_with(&[SLASH, SLASH, BLANK])
}

/// Whether a card is a separator: it ends data, and may be between jobs. Most cards that a search passes have no `/` in column 1, so
/// that is tested first.
#[tactic(auto, using(crate::proofs::WordLemmas::separator_by_columns))]
pub fn is_separator(card: &Card) -> bool
    ensures { result ≡ separator_spec card.now }
{
    card[0] == SLASH && (card[1] == ASTERISK || card[1] == AMPERSAND)
}

/// Whether a job begins at a card between jobs.
pub fn begins_job(card: &Card) -> bool
    ensures { result ≡ begins_job_spec card.now }
{
    !is_separator(card)
}

/// Whether a card ends a job whose data have ended.
pub fn closes_job(card: &Card) -> bool
    ensures { result ≡ closes_job_spec card.now }
{
    is_job_end(card) || is_statement(card)
}

/// What a search among cards stops at.
#[derive(Clone, Copy)]
pub enum Stop {
    /// A card at which a job can begin, which is any but a separator.
    Beginning,
    /// A separator, `/*` or `/&`.
    Separator,
    /// A `/&` card.
    JobEnd,
    /// A card that ends a job whose data have ended.
    Close,
}

impl Stop {
    fn is(self, card: &Card) -> bool
        ensures { result ≡ stops_at self card.now }
    {
        match self {
            Stop::Beginning => begins_job(card),
            Stop::Separator => is_separator(card),
            Stop::JobEnd => is_job_end(card),
            Stop::Close => closes_job(card),
        }
    }

    /// The first such card from a place on, or the place after the last card.
    pub fn next(self, cards: &[Card], from: usize) -> usize
        requires { from ≤ length cards.now }
        ensures value { result ≡ next_place (stops_at self) cards.now from }
        ensures within { result ≤ length cards.now }
    {
        from + cards_before(self, &cards[from..])
    }
}

/// The number of cards before the first one that a search stops at.
fn cards_before(stop: Stop, cards: &[Card]) -> usize
    ensures value { result ≡ position_or_len (stops_at stop) cards.now }
    ensures within { result ≤ length cards.now }
{
    cards.iter().take_while(|card| !stop.is(card)).count()
}

/// A text without whole groups of eight blanks in front, as a card without parameters has them after its keyword.
fn behind_eights(text: &[u8]) -> &[u8]
    ensures { from_word_spec result.now ≡ from_word_spec text.now }
{
    let mut rest = text;
    while let Some((first, after)) = rest.split_first_chunk::<8>() {
        if !are_same_eight(first, &[BLANK; 8]) {
            return rest;
        }
        rest = after;
    }
    rest
}

/// A text from its first nonblank code.
fn from_word(text: &[u8]) -> &[u8]
    ensures { result.now ≡ from_word_spec text.now }
{
    let rest = behind_eights(text);
    &rest[blanks_in_front(rest)..]
}

/// The first word of a text, and the text after it.
fn split_word(text: &[u8]) -> (&[u8], &[u8])
    ensures word { result.0.now ≡ word_of text.now }
    ensures behind { result.1.now ≡ behind_word text.now }
{
    let from_word = from_word(text);
    from_word.split_at(word_len(from_word))
}

/// The text of a card after its `//`.
fn behind_slashes(card: &Card) -> &[u8]
    ensures { result.now ≡ drop 2 card.now }
{
    &card[2..]
}

/// The first word after the `//` of a card.
pub fn first_word(card: &Card) -> &[u8]
    ensures { result.now ≡ first_word_spec card.now }
{
    split_word(behind_slashes(card)).0
}

/// The first and the second word after the `//` of a card.
pub fn first_words(card: &Card) -> (&[u8], &[u8])
    ensures first { result.0.now ≡ first_word_spec card.now }
    ensures second { result.1.now ≡ second_word_spec card.now }
{
    let (first, rest) = split_word(behind_slashes(card));
    (first, split_word(rest).0)
}

/// Whether the parameters of a statement may continue on a card.
pub fn is_continuation(card: &Card) -> bool
    ensures { result ≡ continuation_spec card.now }
{
    is_statement(card) && !first_word(card).is_empty()
}

/// The card at a place, if there is one.
pub fn card_at(cards: &[Card], place: usize) -> Option<&Card>
    ensures card { option_copied result ≡ slice_get cards.now place }
    ensures within { IfSome result (λ _. place < length cards.now) }
{
    cards.get(place)
}
