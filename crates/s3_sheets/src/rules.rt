//! What is allowed in the columns of a card, and which error anything else is.

ghost use Rattle.std.specs.Prelude.{◌≡◌, map, length, true};
ghost use Rattle.std.specs.List.{list_all, list_any};
ghost use Rattle.s3_cards.specs.Names.{is_letter as letter_spec};
ghost use Rattle.s3_sheets.specs.Columns.{same_codes};
ghost use Rattle.s3_sheets.specs.Rules.{allows as allows_spec, fault_of, rule_faults as rule_faults_spec, CodeTest, CodePosition};
ghost use Rattle.s3_sheets.specs.Inner.Rules.{is_on_card, fits};
ghost use Rattle.s3_sheets.specs.Inner.RuleViews.{rule_view, entry_view};

use crate::columns::{columns, number_between};
use crate::entries::{constant, factor, part_of, time};
use crate::faults::{Fault, Faults};
use crate::indicators::{IndicatorList, condition, level_behind, listed};
use s3_cards::ebcdic::{BLANK, LETTER_N};
use s3_cards::{Card, are_blank, is_letter, is_name};
use s3_edit::EditCode;
use s3_entries::Span;

/// What is allowed in the columns of a rule.
#[derive(Clone, Copy)]
pub enum Entry {
    /// Nothing.
    Blank,
    /// One of these texts.
    OneOf(&'static [&'static [u8]]),
    /// Letters alone.
    Letters,
    /// An indicator of a list.
    Listed(IndicatorList),
    /// An indicator of a list, or blank.
    MaybeListed(IndicatorList),
    /// A letter and then 1 to 9, or blank.
    MaybeLevel(u8),
    /// Blank or N and then an indicator, or all blank.
    MaybeCondition,
    /// A level entry of the C sheet: blank, L0 to L9, LR, SR, AN or OR.
    Time,
    /// A code of seven columns: after the position, blank or N and then C, Z or D; or all of it blank.
    CodeTest,
    /// An edit code, or blank.
    MaybeEditCode,
    /// A name of at most as many characters as there are columns.
    Name,
    /// A name, or blank.
    MaybeName,
    /// A text in apostrophes, or blank.
    MaybeConstant,
    /// A literal or a name of at most so many characters, or blank.
    MaybeFactor(usize),
    /// A number in a range.
    Number(u16, u16),
    /// A number in a range, or blank.
    MaybeNumber(u16, u16),
    /// A code of seven columns, its position first, or blank.
    CodePosition,
}

/// Some columns, and what is allowed there.
#[derive(Clone, Copy)]
pub struct Rule {
    /// The columns.
    pub span: Span,
    /// What is allowed there.
    pub entry: Entry,
}

fn is_one_of(columns: &[u8], texts: &[&[u8]]) -> bool
    ensures { result ≡ list_any (same_codes columns.now) (map (λ text. text.now) texts.now) }
{
    for text in texts {
        if columns == *text {
            return true;
        }
    }
    false
}

fn are_letters(columns: &[u8]) -> bool
    ensures { result ≡ list_all letter_spec columns.now }
{
    columns.iter().all(|code| is_letter(*code))
}

fn is_code_test(columns: &[u8]) -> bool
    requires { length columns.now ≡ 7 }
    ensures { result ≡ allows_spec CodeTest columns.now }
{
    are_blank(columns)
        || ((columns[4] == BLANK || columns[4] == LETTER_N) && part_of(columns[5]).is_some())
}

fn is_code_position(columns: &[u8]) -> bool
    requires { length columns.now ≡ 7 }
    ensures { result ≡ allows_spec CodePosition columns.now }
{
    are_blank(columns) || number_between(&columns[..4], 1, 9_999).is_some()
}

impl Entry {
    /// Whether these columns have such an entry.
    pub fn allows(&self, columns: &[u8]) -> bool
        requires { fits (entry_view self.now) (length columns.now) ≡ true }
        ensures { result ≡ allows_spec (entry_view self.now) columns.now }
    {
        match *self {
            Entry::Blank => are_blank(columns),
            Entry::OneOf(texts) => is_one_of(columns, texts),
            Entry::Letters => are_letters(columns),
            Entry::Listed(list) => listed(list, columns).is_some(),
            Entry::MaybeListed(list) => are_blank(columns) || listed(list, columns).is_some(),
            Entry::MaybeLevel(letter) => {
                are_blank(columns) || level_behind(letter, columns).is_some()
            }
            Entry::MaybeCondition => are_blank(columns) || condition(columns).is_some(),
            Entry::Time => time(columns).is_some(),
            Entry::CodeTest => is_code_test(columns),
            Entry::MaybeEditCode => are_blank(columns) || EditCode::of(columns[0]).is_some(),
            Entry::Name => is_name(columns),
            Entry::MaybeName => are_blank(columns) || is_name(columns),
            Entry::MaybeConstant => are_blank(columns) || constant(columns).is_some(),
            Entry::MaybeFactor(longest) => {
                are_blank(columns) || factor(longest, columns).is_some()
            }
            Entry::Number(low, high) => number_between(columns, low, high).is_some(),
            Entry::MaybeNumber(low, high) => {
                are_blank(columns) || number_between(columns, low, high).is_some()
            }
            Entry::CodePosition => is_code_position(columns),
        }
    }

    /// The error of anything else.
    pub fn fault(&self) -> Fault
        ensures { result ≡ fault_of (entry_view self.now) }
    {
        match self {
            Entry::Blank
            | Entry::OneOf(_)
            | Entry::Letters
            | Entry::Listed(_)
            | Entry::MaybeListed(_)
            | Entry::MaybeLevel(_)
            | Entry::MaybeCondition
            | Entry::Time
            | Entry::CodeTest
            | Entry::MaybeEditCode => Fault::WrongEntry,
            Entry::Name | Entry::MaybeName | Entry::MaybeConstant | Entry::MaybeFactor(_) => {
                Fault::WrongName
            }
            Entry::Number(..) | Entry::MaybeNumber(..) | Entry::CodePosition => Fault::WrongNumber,
        }
    }
}

/// What is wrong with a card by one rule: nothing if its columns have what the rule allows.
#[tactic(auto, unfolding(crate::specs::Rules::rule_faults))]
pub fn rule_faults(rule: &Rule, card: &Card) -> Faults
    requires { is_on_card (rule_view rule.now) ≡ true }
    ensures { result ≡ rule_faults_spec card.now (rule_view rule.now) }
{
    if rule.entry.allows(columns(card, rule.span)) {
        Faults::NONE
    } else {
        Faults::of(rule.entry.fault())
    }
}
