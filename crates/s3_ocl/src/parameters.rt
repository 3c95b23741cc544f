//! What a parameter of a statement says.
ghost use Rattle.std.specs.Prelude.{◌≡◌, ◌<◌, ◌≤◌, IfSome, MatchOption, length, [], ◌∷◌};
ghost use Rattle.std.specs.List.{before_first, position_or_len, slice_split};
ghost use Rattle.s3_ocl.specs.Signs.{is_hyphen, is_comma};
ghost use Rattle.s3_ocl.specs.Parameters.{verb_of as verb_spec, parameter_of as parameter_spec, value_of as value_spec, given as given_spec, keyed as keyed_spec, entry_at as entry_at_spec, entry_of as entry_spec, goes_on as goes_on_spec, without_comma as without_comma_spec};

use super::values::{
    Value, count_value, date_value, name_value, pack_value, retention_value, switches_value,
    unit_value,
};
use super::words::{
    DATE, FILE, LABEL, LOAD, NAME, PACK, RECORDS, RETAIN, RUN, SWITCH, TRACKS, UNIT, reads,
};
use s3_cards::ebcdic::{COMMA, MINUS};

/// What a statement does.
#[derive(Clone, Copy, PartialEq, Eq)]
pub enum Verb {
    /// LOAD names the program.
    Load,
    /// FILE describes a file.
    File,
    /// DATE sets the date.
    Date,
    /// SWITCH sets the switches.
    Switch,
    /// RUN ends the statements.
    Run,
}

/// A parameter of a statement.
#[derive(Clone, Copy, PartialEq, Eq)]
pub enum Parameter {
    /// The first parameter of LOAD, the program.
    Program,
    /// The second parameter of LOAD, and UNIT of FILE: a unit.
    Unit,
    /// NAME of FILE.
    FileName,
    /// PACK of FILE.
    Pack,
    /// LABEL of FILE.
    Label,
    /// RECORDS of FILE.
    Records,
    /// TRACKS of FILE.
    Tracks,
    /// RETAIN of FILE.
    Retain,
    /// The only parameter of DATE.
    Date,
    /// The only parameter of SWITCH.
    Switches,
}

/// What is at the place of a parameter.
#[derive(Clone, Copy)]
pub enum Entry {
    /// Nothing is there.
    Empty,
    /// A text that is no parameter of the statement.
    Unknown,
    /// A text after the last parameter that the statement can have.
    Surplus,
    /// A parameter with nothing as its value.
    Missing(Parameter),
    /// A parameter with a value that it can't have.
    Wrong(Parameter),
    /// A parameter and its value.
    Right(Parameter, Value),
}

/// The statement that a keyword names.
pub fn verb_of(keyword: &[u8]) -> Option<Verb>
    ensures { result ≡ verb_spec keyword.now }
{
    if reads(keyword, &LOAD) {
        Some(Verb::Load)
    } else if reads(keyword, &FILE) {
        Some(Verb::File)
    } else if reads(keyword, &DATE) {
        Some(Verb::Date)
    } else if reads(keyword, &SWITCH) {
        Some(Verb::Switch)
    } else if reads(keyword, &RUN) {
        Some(Verb::Run)
    } else {
        None
    }
}

/// The parameter of a FILE statement that a keyword names.
fn parameter_of(key: &[u8]) -> Option<Parameter>
    ensures { result ≡ parameter_spec key.now }
{
    if reads(key, &NAME) {
        Some(Parameter::FileName)
    } else if reads(key, &UNIT) {
        Some(Parameter::Unit)
    } else if reads(key, &PACK) {
        Some(Parameter::Pack)
    } else if reads(key, &LABEL) {
        Some(Parameter::Label)
    } else if reads(key, &RECORDS) {
        Some(Parameter::Records)
    } else if reads(key, &TRACKS) {
        Some(Parameter::Tracks)
    } else if reads(key, &RETAIN) {
        Some(Parameter::Retain)
    } else {
        None
    }
}

/// The value that a text gives a parameter, if it can have it.
fn value_of(parameter: Parameter, text: &[u8]) -> Option<Value>
    ensures { result ≡ value_spec parameter text.now }
{
    match parameter {
        Parameter::Program => name_value(6, text),
        Parameter::Unit => unit_value(text),
        Parameter::FileName => name_value(8, text),
        Parameter::Pack => pack_value(text),
        Parameter::Label => name_value(8, text),
        Parameter::Records => count_value(6, text),
        Parameter::Tracks => count_value(3, text),
        Parameter::Retain => retention_value(text),
        Parameter::Date => date_value(text),
        Parameter::Switches => switches_value(text),
    }
}

/// A parameter with the value of a text.
fn given(parameter: Parameter, text: &[u8]) -> Entry
    ensures { result ≡ given_spec parameter text.now }
{
    if text.is_empty() {
        return Entry::Missing(parameter);
    }
    match value_of(parameter, text) {
        None => Entry::Wrong(parameter),
        Some(value) => Entry::Right(parameter, value),
    }
}

/// The number of codes before the first hyphen.
fn key_len(text: &[u8]) -> usize
    ensures value { result ≡ position_or_len is_hyphen text.now }
    ensures within { result ≤ length text.now }
{
    text.iter().take_while(|code| **code != MINUS).count()
}

/// What a text is as a parameter of a FILE statement: its keyword, a hyphen and its value.
fn keyed(text: &[u8]) -> Entry
    ensures { result ≡ keyed_spec text.now }
{
    let end = key_len(text);
    if end == text.len() {
        return Entry::Unknown;
    }
    match parameter_of(&text[..end]) {
        None => Entry::Unknown,
        Some(parameter) => given(parameter, &text[end + 1..]),
    }
}

/// The entry at a place of a statement's parameters, from 0.
fn entry_at(verb: Verb, place: usize, text: &[u8]) -> Entry
    ensures { result ≡ entry_at_spec verb place text.now }
{
    match verb {
        Verb::Load => {
            if place == 0 {
                given(Parameter::Program, text)
            } else if place == 1 {
                given(Parameter::Unit, text)
            } else {
                Entry::Surplus
            }
        }
        Verb::File => keyed(text),
        Verb::Date => if place == 0 {
            given(Parameter::Date, text)
        } else {
            Entry::Surplus
        },
        Verb::Switch => if place == 0 {
            given(Parameter::Switches, text)
        } else {
            Entry::Surplus
        },
        Verb::Run => Entry::Surplus,
    }
}

/// The entry at a place of a statement's parameters, from 0. Nothing between two commas is a missing value.
pub fn entry_of(verb: Verb, place: usize, text: &[u8]) -> Entry
    ensures { result ≡ entry_spec verb place text.now }
{
    if text.is_empty() {
        return Entry::Empty;
    }
    entry_at(verb, place, text)
}

/// Whether a text of parameters continues on the next card.
pub fn goes_on(text: &[u8]) -> bool
    ensures { result ≡ goes_on_spec text.now }
{
    matches!(text, [.., COMMA])
}

/// A text without the comma at its end, if it has one.
pub fn without_comma(text: &[u8]) -> &[u8]
    ensures { result.now ≡ without_comma_spec text.now }
{
    match text {
        [front @ .., COMMA] => front,
        _ => text,
    }
}

/// The number of codes before the first comma.
fn comma_place(text: &[u8]) -> usize
    ensures value { result ≡ position_or_len is_comma text.now }
    ensures within { result ≤ length text.now }
{
    text.iter().take_while(|code| **code != COMMA).count()
}

/// The text before the first comma.
pub fn first_part(text: &[u8]) -> &[u8]
    ensures { result.now ≡ before_first is_comma text.now }
{
    &text[..comma_place(text)]
}

/// The text after the first comma, if there is one.
#[tactic(auto, using(crate::proofs::PartLemmas::last_part))]
pub fn behind_comma(text: &[u8]) -> Option<&[u8]>
    ensures parts { MatchOption result (slice_split is_comma text.now ≡ before_first is_comma text.now ∷ []) (λ after. slice_split is_comma text.now ≡ before_first is_comma text.now ∷ slice_split is_comma after.now) }
    ensures shorter { IfSome result (λ after. length after.now < length text.now) }
{
    let end = comma_place(text);
    if end == text.len() {
        return None;
    }
    Some(&text[end + 1..])
}
