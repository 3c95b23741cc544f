//! The rules of each kind of card, each for some columns alone. Columns without a rule are read together with others, in
//! `combinations`.

ghost use Rattle.std.specs.Prelude.{◌≡◌, map, true};
ghost use Rattle.std.specs.List.{list_all};
ghost use Rattle.s3_sheets.specs.Inner.Rules.{is_on_card};
ghost use Rattle.s3_sheets.specs.Inner.RuleViews.{rule_view};
ghost use Rattle.s3_sheets.specs.Tables.{rules_of as rules_of_spec};

use crate::indicators::IndicatorList;
use crate::kind::CardKind;
use crate::rules::{Entry, Rule};
use crate::words::{DISK, MFCU1, MFCU2, PRINTER};
use s3_cards::ebcdic::{
    BLANK, LETTER_A, LETTER_B, LETTER_C, LETTER_D, LETTER_E, LETTER_F, LETTER_H, LETTER_I,
    LETTER_L, LETTER_M, LETTER_O, LETTER_P, LETTER_R, LETTER_S, LETTER_T, LETTER_U,
};
use s3_entries::{calculation, file, header, input, output, shared, span};

/// A rule for the columns of an entry.
macro_rules! columns {
    ($span:path: $entry:expr) => {
        Rule {
            span: $span,
            entry: $entry,
        }
    };
}

/// A rule for columns that are no entry and must be blank.
macro_rules! blank {
    ($from:literal to $to:literal) => {
        Rule {
            span: span!($from to $to),
            entry: Entry::Blank,
        }
    };
}

static NO_RULES: [Rule; 0] = [];

/// The program identification; nothing else is read on the H card.
static HEADER_RULES: [Rule; 1] = [columns!(header::PROGRAM: Entry::MaybeName)];

static FILE_RULES: [Rule; 20] = [
    columns!(shared::FILENAME: Entry::Name),
    columns!(file::TYPE: Entry::OneOf(&[&[LETTER_I], &[LETTER_O], &[LETTER_U]])),
    columns!(file::DESIGNATION: Entry::OneOf(&[&[BLANK], &[LETTER_P], &[LETTER_S], &[LETTER_C]])),
    columns!(file::END: Entry::OneOf(&[&[BLANK], &[LETTER_E]])),
    columns!(file::SEQUENCE: Entry::OneOf(&[&[BLANK], &[LETTER_A]])), // ascending
    columns!(file::FORMAT: Entry::OneOf(&[&[LETTER_F]])),
    columns!(file::BLOCK_LENGTH: Entry::MaybeNumber(0, 9_999)), // not used
    columns!(file::MODE: Entry::OneOf(&[&[BLANK], &[LETTER_R]])),
    columns!(file::KEY_LENGTH: Entry::MaybeNumber(1, 29)),
    columns!(file::ADDRESS_TYPE: Entry::OneOf(&[&[BLANK], &[LETTER_A]])),
    columns!(file::ORGANIZATION: Entry::OneOf(&[&[BLANK], &[LETTER_I]])),
    columns!(file::OVERFLOW: Entry::MaybeListed(IndicatorList::Overflow)),
    columns!(file::KEY_START: Entry::MaybeNumber(1, 9_999)),
    blank!(39 to 39),
    columns!(file::DEVICE: Entry::OneOf(&[&MFCU1, &MFCU2, &PRINTER, &DISK])),
    blank!(47 to 65),
    columns!(file::ADDITION: Entry::OneOf(&[&[BLANK], &[LETTER_A]])),
    blank!(67 to 70),
    columns!(file::CONDITION: Entry::MaybeListed(IndicatorList::Switch)),
    blank!(73 to 74),
];

static RECORD_RULES: [Rule; 11] = [
    columns!(shared::FILENAME: Entry::Name),
    columns!(input::SEQUENCE: Entry::Letters),
    blank!(17 to 18),
    columns!(input::RECORD_INDICATOR: Entry::Listed(IndicatorList::Record)),
    columns!(input::CODE_1: Entry::CodePosition),
    columns!(input::CODE_1: Entry::CodeTest),
    columns!(input::CODE_2: Entry::CodePosition),
    columns!(input::CODE_2: Entry::CodeTest),
    columns!(input::CODE_3: Entry::CodePosition),
    columns!(input::CODE_3: Entry::CodeTest),
    blank!(42 to 74),
];

static RECORD_AND_RULES: [Rule; 8] = [
    blank!(17 to 20),
    columns!(input::CODE_1: Entry::CodePosition),
    columns!(input::CODE_1: Entry::CodeTest),
    columns!(input::CODE_2: Entry::CodePosition),
    columns!(input::CODE_2: Entry::CodeTest),
    columns!(input::CODE_3: Entry::CodePosition),
    columns!(input::CODE_3: Entry::CodeTest),
    blank!(42 to 74),
];

static RECORD_OR_RULES: [Rule; 9] = [
    blank!(17 to 18),
    columns!(input::RECORD_INDICATOR: Entry::Listed(IndicatorList::Record)),
    columns!(input::CODE_1: Entry::CodePosition),
    columns!(input::CODE_1: Entry::CodeTest),
    columns!(input::CODE_2: Entry::CodePosition),
    columns!(input::CODE_2: Entry::CodeTest),
    columns!(input::CODE_3: Entry::CodePosition),
    columns!(input::CODE_3: Entry::CodeTest),
    blank!(42 to 74),
];

static FIELD_RULES: [Rule; 13] = [
    blank!(7 to 42),
    columns!(input::PACKED: Entry::OneOf(&[&[BLANK], &[LETTER_P]])),
    columns!(input::FROM: Entry::Number(1, 9_999)),
    columns!(input::TO: Entry::Number(1, 9_999)),
    columns!(input::DECIMALS: Entry::MaybeNumber(0, 9)),
    columns!(input::FIELD_NAME: Entry::Name),
    columns!(input::CONTROL_LEVEL: Entry::MaybeLevel(LETTER_L)),
    columns!(input::MATCHING: Entry::MaybeLevel(LETTER_M)),
    columns!(input::RELATION: Entry::MaybeListed(IndicatorList::Record)),
    columns!(input::PLUS: Entry::MaybeListed(IndicatorList::Record)),
    columns!(input::MINUS: Entry::MaybeListed(IndicatorList::Record)),
    columns!(input::ZERO: Entry::MaybeListed(IndicatorList::Record)),
    blank!(71 to 74),
];

static CALCULATION_RULES: [Rule; 12] = [
    columns!(calculation::CONTROL_LEVEL: Entry::Time),
    columns!(calculation::INDICATOR_1: Entry::MaybeCondition),
    columns!(calculation::INDICATOR_2: Entry::MaybeCondition),
    columns!(calculation::INDICATOR_3: Entry::MaybeCondition),
    columns!(calculation::FACTOR_1: Entry::MaybeFactor(6)),
    columns!(calculation::RESULT: Entry::MaybeName),
    columns!(calculation::DECIMALS: Entry::MaybeNumber(0, 9)),
    columns!(calculation::HALF_ADJUST: Entry::OneOf(&[&[BLANK], &[LETTER_H]])),
    columns!(calculation::HIGH: Entry::MaybeListed(IndicatorList::Resulting)),
    columns!(calculation::LOW: Entry::MaybeListed(IndicatorList::Resulting)),
    columns!(calculation::EQUAL: Entry::MaybeListed(IndicatorList::Resulting)),
    columns!(calculation::COMMENTS: Entry::Blank),
];

static OUTPUT_LINE_RULES: [Rule; 8] = [
    columns!(shared::FILENAME: Entry::MaybeName),
    columns!(output::TYPE: Entry::OneOf(&[&[LETTER_H], &[LETTER_D], &[LETTER_T], &[LETTER_E]])),
    columns!(output::SKIP_BEFORE: Entry::MaybeNumber(1, 66)),
    columns!(output::SKIP_AFTER: Entry::MaybeNumber(1, 66)),
    columns!(output::INDICATOR_1: Entry::MaybeCondition),
    columns!(output::INDICATOR_2: Entry::MaybeCondition),
    columns!(output::INDICATOR_3: Entry::MaybeCondition),
    blank!(32 to 74),
];

/// AND and OR lines.
static OUTPUT_GROUP_RULES: [Rule; 5] = [
    blank!(17 to 22), // spaces and skips
    columns!(output::INDICATOR_1: Entry::MaybeCondition),
    columns!(output::INDICATOR_2: Entry::MaybeCondition),
    columns!(output::INDICATOR_3: Entry::MaybeCondition),
    blank!(32 to 74),
];

static OUTPUT_FIELD_RULES: [Rule; 11] = [
    blank!(7 to 22),
    columns!(output::INDICATOR_1: Entry::MaybeCondition),
    columns!(output::INDICATOR_2: Entry::MaybeCondition),
    columns!(output::INDICATOR_3: Entry::MaybeCondition),
    columns!(output::FIELD_NAME: Entry::MaybeName),
    columns!(output::EDIT_CODE: Entry::MaybeEditCode),
    columns!(output::BLANK_AFTER: Entry::OneOf(&[&[BLANK], &[LETTER_B]])),
    columns!(output::END_POSITION: Entry::Number(1, 9_999)),
    columns!(output::PACKED: Entry::OneOf(&[&[BLANK], &[LETTER_P]])),
    columns!(output::CONSTANT: Entry::MaybeConstant),
    blank!(71 to 74),
];

/// The rules of a kind of card, each for some of its columns alone; a comment and a card of no sheet have none.
#[tactic(auto, unfolding(crate::specs::Tables::header_rules, crate::specs::Tables::file_rules, crate::specs::Tables::record_rules, crate::specs::Tables::record_and_rules, crate::specs::Tables::record_or_rules, crate::specs::Tables::field_rules, crate::specs::Tables::calculation_rules, crate::specs::Tables::output_line_rules, crate::specs::Tables::output_group_rules, crate::specs::Tables::output_field_rules, s3_cards::specs::Codes::ebcdic, s3_cards::specs::Codes::code_page))]
pub fn rules_of(kind: CardKind) -> &'static [Rule]
    ensures list { map rule_view result.now ≡ rules_of_spec kind }
    ensures on_card { list_all is_on_card (map rule_view result.now) ≡ true }
{
    match kind {
        CardKind::Comment | CardKind::Unknown => &NO_RULES,
        CardKind::Header => &HEADER_RULES,
        CardKind::File => &FILE_RULES,
        CardKind::Record => &RECORD_RULES,
        CardKind::RecordAnd => &RECORD_AND_RULES,
        CardKind::RecordOr => &RECORD_OR_RULES,
        CardKind::Field => &FIELD_RULES,
        CardKind::Calculation => &CALCULATION_RULES,
        CardKind::OutputLine => &OUTPUT_LINE_RULES,
        CardKind::OutputAnd | CardKind::OutputOr => &OUTPUT_GROUP_RULES,
        CardKind::OutputField => &OUTPUT_FIELD_RULES,
    }
}
