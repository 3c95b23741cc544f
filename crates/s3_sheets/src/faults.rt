//! What is wrong with a card by its own columns.

ghost use Rattle.std.specs.Prelude.{◌≡◌, map, true};
ghost use Rattle.std.specs.List.{list_all};
ghost use Rattle.s3_sheets.specs.Inner.Rules.{is_on_card};
ghost use Rattle.s3_sheets.specs.Rules.{broken_by, one_fault, both_faults};
ghost use Rattle.s3_sheets.specs.Inner.RuleViews.{rule_view};
ghost use Rattle.s3_sheets.specs.Sheets.{has_fault as has_fault_spec, faults_of as faults_of_spec};

use crate::combinations::combined_faults;
use crate::kind::kind_of;
use crate::rules::{Rule, rule_faults};
use crate::tables::rules_of;
use s3_cards::Card;

/// What is wrong with an entry of a card, by the diagnostic that it gets.
#[derive(Clone, Copy)]
pub enum Fault {
    /// Diagnostic 2: the entry isn't allowed.
    WrongEntry,
    /// Diagnostic 3: a name or literal is missing or malformed.
    WrongName,
    /// Diagnostic 4: a number is missing, malformed or out of its range.
    WrongNumber,
}

/// Which of the diagnostics 2 to 4 a card's own columns show.
#[derive(Clone, Copy)]
pub struct Faults {
    /// Whether diagnostic 2 shows: an entry that isn't allowed.
    pub entry: bool,
    /// Whether diagnostic 3 shows: a name or literal that is missing or malformed.
    pub name: bool,
    /// Whether diagnostic 4 shows: a number that is missing, malformed or out of its range.
    pub number: bool,
}

impl Faults {
    /// No fault at all.
    pub const NONE: Faults = Faults {
        entry: false,
        name: false,
        number: false,
    };

    /// This one fault, and no other.
    pub fn of(fault: Fault) -> Faults
        ensures { result ≡ one_fault fault }
    {
        match fault {
            Fault::WrongEntry => Faults {
                entry: true,
                name: false,
                number: false,
            },
            Fault::WrongName => Faults {
                entry: false,
                name: true,
                number: false,
            },
            Fault::WrongNumber => Faults {
                entry: false,
                name: false,
                number: true,
            },
        }
    }

    /// The faults that are here, in the other set, or in both.
    fn and(self, other: Faults) -> Faults
        ensures { result ≡ both_faults self other }
    {
        Faults {
            entry: self.entry || other.entry,
            name: self.name || other.name,
            number: self.number || other.number,
        }
    }

    /// Whether there is any fault.
    pub fn any(self) -> bool
        ensures { result ≡ has_fault_spec self }
    {
        self.entry || self.name || self.number
    }
}

/// What is wrong with a card by the rules for its columns.
fn broken(rules: &[Rule], card: &Card) -> Faults
    requires { list_all is_on_card (map rule_view rules.now) ≡ true }
    ensures { result ≡ broken_by (map rule_view rules.now) card.now }
{
    let mut faults = Faults::NONE;
    for rule in rules {
        faults = faults.and(rule_faults(rule, card));
    }
    faults
}

/// The faults of a card by its own columns, without those of positions in its record.
#[tactic(auto, unfolding(crate::specs::Sheets::faults_of))]
pub fn faults_of(card: &Card) -> Faults
    ensures { result ≡ faults_of_spec card.now }
{
    let kind = kind_of(card);
    broken(rules_of(kind), card).and(combined_faults(kind, card))
}
