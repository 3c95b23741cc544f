//! A rule, and the line that says it.
ghost use Rattle.std.specs.Prelude.{◌≡◌, ◌≤◌, length, map};
ghost use Rattle.std.specs.List.{list_all};
ghost use Rattle.s3_replies.specs.Inner.Rules.{IsHaltOf, NamesHalt, WordsAreRead, code_or_blank, digit_fault as digit_fault_spec, has_name_code as has_name_code_spec, level_named as level_named_spec, may_be_name as may_be_name_spec, name_code as name_code_spec, name_in as name_in_spec, names_halt as names_halt_spec, names_level as names_level_spec, names_program as names_program_spec, program_named as program_named_spec, program_said, rule_for as rule_for_spec, rule_from as rule_from_spec};
ghost use Rattle.s3_replies.specs.Inner.Words.{words};

use crate::line_fault::LineFault;
use crate::line_words::first_word;
use crate::typed::digit_of;
use s3_cards::ebcdic::BLANK;
use s3_cards::{LevelId, Name, code_of_byte, is_word};
use s3_operator::{HaltCode, allowed, code_of, letters};

/// The most characters of a program's name.
const PROGRAM_NAME: usize = 6;

/// A rule: which halts it answers, and how.
#[derive(Clone, Copy)]
pub struct Rule {
    /// The level whose halts it answers; `None` for either.
    pub level: Option<LevelId>,
    /// The halt that it answers; `None` for each that allows the digit.
    pub code: Option<HaltCode>,
    /// The reply: 0, 2 or 3.
    pub digit: u8,
    /// The program whose jobs it is for; `None` for every job.
    pub program: Option<Name>,
    /// The number of its line, from 1.
    pub line: usize,
}

impl Rule {
    ghost use Rattle.std.specs.Prelude.{◌≡◌};
    ghost use Rattle.s3_replies.specs.Inner.Rules.{fits as fits_spec};

    /// Whether the rule answers a halt of a level, in a job of that program, if it is known. It never gives a digit that the
    /// halt doesn't allow.
    pub fn fits(&self, level: LevelId, code: HaltCode, program: Option<Name>) -> bool
        ensures { result ≡ fits_spec level code program self.now }
    {
        names_level(self.level, level)
            && names_halt(self.code, code)
            && names_program(self.program, program)
            && allowed(code, self.digit)
    }
}

/// Whether a rule's level is this one.
pub(crate) fn names_level(own: Option<LevelId>, level: LevelId) -> bool
    ensures { result ≡ names_level_spec own level }
{
    match (own, level) {
        (None, _) | (Some(LevelId::One), LevelId::One) | (Some(LevelId::Two), LevelId::Two) => true,
        (Some(LevelId::One), LevelId::Two) | (Some(LevelId::Two), LevelId::One) => false,
    }
}

/// Whether a rule's halt is this one.
fn names_halt(own: Option<HaltCode>, code: HaltCode) -> bool
    ensures { result ≡ names_halt_spec own code }
{
    match own {
        None => true,
        Some(own) => letters(own) == letters(code),
    }
}

/// Whether a rule's program is this one.
fn names_program(own: Option<Name>, program: Option<Name>) -> bool
    ensures { result ≡ names_program_spec own program }
{
    match (own, program) {
        (None, _) => true,
        (Some(_), None) => false,
        (Some(own), Some(program)) => own == program,
    }
}

/// The rule of a line, `None` for an empty one or a comment; or its first fault.
pub(crate) fn read_rule(line: &[u8], number: usize) -> Result<Option<Rule>, LineFault>
    ensures { WordsAreRead number (words line.now) result }
{
    let Some((level, rest)) = first_word(line) else {
        return Ok(None);
    };
    let Some((letters, rest)) = first_word(rest) else {
        return Err(LineFault::TooShort);
    };
    let Some((digit, rest)) = first_word(rest) else {
        return Err(LineFault::TooShort);
    };
    rule_from(
        number,
        level_named(level),
        halt_named(letters),
        digit_of(digit),
        read_program(rest),
    )
}

/// The rule of these parts, or the first fault.
fn rule_from(
    number: usize,
    level: Option<Option<LevelId>>,
    code: Option<Option<HaltCode>>,
    digit: Option<u8>,
    program: Result<Option<Name>, LineFault>,
) -> Result<Option<Rule>, LineFault>
    ensures { result ≡ rule_from_spec number level code digit program }
{
    let Some(level) = level else {
        return Err(LineFault::Level);
    };
    let Some(code) = code else {
        return Err(LineFault::Letters);
    };
    let Some(digit) = digit else {
        return Err(LineFault::Digit);
    };
    match digit_fault(code, digit) {
        Some(fault) => Err(fault),
        None => rule_for(number, level, code, digit, program),
    }
}

/// The rule, if its program is one.
fn rule_for(
    line: usize,
    level: Option<LevelId>,
    code: Option<HaltCode>,
    digit: u8,
    program: Result<Option<Name>, LineFault>,
) -> Result<Option<Rule>, LineFault>
    ensures { result ≡ rule_for_spec line level code digit program }
{
    match program {
        Ok(program) => Ok(Some(Rule {
            level,
            code,
            digit,
            program,
            line,
        })),
        Err(fault) => Err(fault),
    }
}

/// The level that a word names: inside it is `None` for `*`.
fn level_named(word: &[u8]) -> Option<Option<LevelId>>
    ensures { result ≡ level_named_spec word.now }
{
    if word == b"1".as_slice() {
        Some(Some(LevelId::One))
    } else if word == b"2".as_slice() {
        Some(Some(LevelId::Two))
    } else if word == b"*".as_slice() {
        Some(None)
    } else {
        None
    }
}

/// The halt that a word names: inside it is `None` for `*`.
fn halt_named(word: &[u8]) -> Option<Option<HaltCode>>
    ensures { NamesHalt word.now result }
{
    if word == b"*".as_slice() {
        return Some(None);
    }
    match halt_of(word) {
        Some(code) => Some(Some(code)),
        None => None,
    }
}

/// The halt whose letters a word is, in capitals or small letters.
#[tactic(auto, using(crate::proofs::LetterLemmas::too_short, crate::proofs::LetterLemmas::too_long))]
fn halt_of(word: &[u8]) -> Option<HaltCode>
    ensures { IsHaltOf word.now result }
{
    match word {
        [first, second] => code_of([first.to_ascii_uppercase(), second.to_ascii_uppercase()]),
        _ => None,
    }
}

/// Why a rule can't have this digit: the halt, or each halt, never allows it.
fn digit_fault(code: Option<HaltCode>, digit: u8) -> Option<LineFault>
    ensures { result ≡ digit_fault_spec code digit }
{
    let Some(code) = code else {
        return if matches!(digit, 0 | 2 | 3) {
            None
        } else {
            Some(LineFault::NotOfThree)
        };
    };
    if allowed(code, digit) {
        None
    } else if allowed(code, 0) {
        Some(LineFault::NotOfThree)
    } else {
        Some(LineFault::NotOfTwo)
    }
}

/// The program that the rest of a line names, if it names one.
fn read_program(rest: &[u8]) -> Result<Option<Name>, LineFault>
    ensures { result ≡ program_said (words rest.now) }
{
    let Some((word, rest)) = first_word(rest) else {
        return Ok(None);
    };
    let Some(name) = program_named(word) else {
        return Err(LineFault::Program);
    };
    match first_word(rest) {
        None => Ok(Some(name)),
        Some(_) => Err(LineFault::TooLong),
    }
}

/// The program's name that a word is, in capitals or small letters.
fn program_named(word: &[u8]) -> Option<Name>
    ensures { result ≡ program_named_spec word.now }
{
    if may_be_name(word) {
        name_in(word)
    } else {
        None
    }
}

/// Whether a word is short enough for a name, and has no characters but those of cards.
fn may_be_name(word: &[u8]) -> bool
    ensures { result ≡ may_be_name_spec word.now }
{
    word.len() <= PROGRAM_NAME && have_name_codes(word)
}

/// Whether each byte of a word is a character of cards, as a capital letter if it is a small one.
fn have_name_codes(word: &[u8]) -> bool
    ensures { result ≡ list_all has_name_code_spec word.now }
{
    word.iter().all(|byte| has_name_code(*byte))
}

/// The name that a word is, if its characters make one.
fn name_in(word: &[u8]) -> Option<Name>
    requires { length word.now ≤ 6 }
    ensures { result ≡ name_in_spec word.now }
{
    let mut codes = [BLANK; PROGRAM_NAME];
    let (name, _blanks) = codes.split_at_mut(word.len());
    fill_codes(name, word);
    if is_word(name) {
        Some(Name::of(name))
    } else {
        None
    }
}

/// Whether a byte is a character of cards, as a capital letter if it is a small one.
fn has_name_code(byte: u8) -> bool
    ensures { result ≡ has_name_code_spec byte }
{
    name_code(byte).is_some()
}

/// The code of a byte, as a capital letter if it is a small one.
#[tactic(auto, unfolding(crate::specs::Inner::Rules::name_code))]
fn name_code(byte: u8) -> Option<u8>
    ensures { result ≡ name_code_spec byte }
{
    code_of_byte(byte.to_ascii_uppercase())
}

/// Puts the codes of a word's characters into a text of its length.
fn fill_codes(codes: &mut [u8], word: &[u8])
    requires { length codes.old ≡ length word.now }
    ensures { codes.new ≡ map code_or_blank word.now }
{
    for (place, byte) in word.iter().enumerate() {
        codes[place] = name_code(*byte).unwrap_or(BLANK);
    }
}
