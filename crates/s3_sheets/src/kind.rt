//! What kind of card of a source each card is.

ghost use Rattle.std.specs.Prelude.{◌≡◌};
ghost use Rattle.s3_sheets.specs.Kinds.{says_and as says_and_spec, says_or as says_or_spec, input_kind as input_kind_spec, output_kind as output_kind_spec, kind_of as kind_of_spec, sheet_of as sheet_of_spec, is_record as is_record_spec, is_output_line as is_output_line_spec};

use crate::columns::{column, columns};
use crate::words::{AND, OR};
use s3_cards::ebcdic::{ASTERISK, LETTER_C, LETTER_F, LETTER_H, LETTER_I, LETTER_O};
use s3_cards::{Card, are_blank};
use s3_entries::{output, shared};

/// What a card of a source is, by its columns 6 to 16.
#[derive(Clone, Copy)]
pub enum CardKind {
    /// A comment: `*` in column 7. It isn't read.
    Comment,
    /// A card of no sheet, by its column 6.
    Unknown,
    /// An H card.
    Header,
    /// An F card.
    File,
    /// A record line: an I card with a file name.
    Record,
    /// An AND line of the I sheet.
    RecordAnd,
    /// An OR line of the I sheet.
    RecordOr,
    /// A field line: any other I card.
    Field,
    /// A C card.
    Calculation,
    /// A line card: an O card with a file name or a type.
    OutputLine,
    /// An AND line of the O sheet.
    OutputAnd,
    /// An OR line of the O sheet.
    OutputOr,
    /// A field card: any other O card.
    OutputField,
}

/// Whether columns 14 to 16 say AND, and the name columns before them are blank.
#[tactic(auto, unfolding(crate::specs::Kinds::says_and, s3_cards::specs::Codes::ebcdic, s3_cards::specs::Codes::code_page))]
fn says_and(card: &Card) -> bool
    ensures { result ≡ says_and_spec card.now }
{
    are_blank(columns(card, shared::BEFORE_GROUP)) && columns(card, shared::GROUP) == AND.as_slice()
}

/// Whether columns 14 to 16 say OR, and the name columns before them are blank.
#[tactic(auto, unfolding(crate::specs::Kinds::says_or, s3_cards::specs::Codes::ebcdic, s3_cards::specs::Codes::code_page))]
fn says_or(card: &Card) -> bool
    ensures { result ≡ says_or_spec card.now }
{
    are_blank(columns(card, shared::BEFORE_GROUP)) && columns(card, shared::GROUP) == OR.as_slice()
}

fn input_kind(card: &Card) -> CardKind
    ensures { result ≡ input_kind_spec card.now }
{
    if says_and(card) {
        CardKind::RecordAnd
    } else if says_or(card) {
        CardKind::RecordOr
    } else if are_blank(columns(card, shared::FILENAME)) {
        CardKind::Field
    } else {
        CardKind::Record
    }
}

fn output_kind(card: &Card) -> CardKind
    ensures { result ≡ output_kind_spec card.now }
{
    if says_and(card) {
        CardKind::OutputAnd
    } else if says_or(card) {
        CardKind::OutputOr
    } else if are_blank(columns(card, output::FILENAME_AND_TYPE)) {
        CardKind::OutputField
    } else {
        CardKind::OutputLine
    }
}

/// The kind of a card. A comment is one whatever its column 6 has.
#[tactic(auto, unfolding(crate::specs::Kinds::kind_of))]
pub fn kind_of(card: &Card) -> CardKind
    ensures { result ≡ kind_of_spec card.now }
{
    if column(card, shared::COMMENT) == ASTERISK {
        return CardKind::Comment;
    }
    match column(card, shared::FORM_TYPE) {
        LETTER_H => CardKind::Header,
        LETTER_F => CardKind::File,
        LETTER_I => input_kind(card),
        LETTER_C => CardKind::Calculation,
        LETTER_O => output_kind(card),
        _ => CardKind::Unknown,
    }
}

impl CardKind {
    /// The number of its sheet: H 1, F 2, I 3, C 4, O 5; 0 for a card that is of none.
    pub fn sheet(self) -> u8
        ensures { result ≡ sheet_of_spec self }
    {
        match self {
            CardKind::Comment | CardKind::Unknown => 0,
            CardKind::Header => 1,
            CardKind::File => 2,
            CardKind::Record | CardKind::RecordAnd | CardKind::RecordOr | CardKind::Field => 3,
            CardKind::Calculation => 4,
            CardKind::OutputLine
            | CardKind::OutputAnd
            | CardKind::OutputOr
            | CardKind::OutputField => 5,
        }
    }

    /// Whether it is a record line.
    pub fn is_record(self) -> bool
        ensures { result ≡ is_record_spec self }
    {
        matches!(self, CardKind::Record)
    }

    /// Whether it is a line card of the O sheet.
    pub fn is_output_line(self) -> bool
        ensures { result ≡ is_output_line_spec self }
    {
        matches!(self, CardKind::OutputLine)
    }
}
