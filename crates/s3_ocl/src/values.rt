//! What the text of a value says.
ghost use Rattle.std.specs.Prelude.{◌≡◌, ◌<◌, ◌≤◌, ◌+◌, ◌-◌, IsTrue, length, map};
ghost use Rattle.std.specs.List.{list_all};
ghost use Rattle.s3_cards.specs.Names.{is_digit as digit_spec};
ghost use Rattle.s3_ocl.specs.Values.{name_value as name_value_spec, unit_value as unit_value_spec, pack_value as pack_value_spec, count_value as count_value_spec, retention_value as retention_value_spec, two_digits as two_digits_spec, is_date as date_spec, dated as dated_spec, date_value as date_value_spec, without_slashes as without_slashes_spec, is_switch as switch_spec, switch_of, switches_value as switches_value_spec};

use super::words::{F1, F2, R1, R2, reads};
use s3_cards::ebcdic::{BLANK, DIGIT_0, DIGIT_1, LETTER_P, LETTER_S, LETTER_T, LETTER_X, SLASH};
use s3_cards::{Name, Retention, go_on_in_name, is_digit, is_word, number_spelled};

/// What a SWITCH statement does with one switch.
#[derive(Clone, Copy)]
pub enum Switch {
    /// 1: the switch is turned on.
    On,
    /// 0: the switch goes off.
    Off,
    /// X: the switch stays as it is.
    Leave,
}

/// The value of a parameter.
#[derive(Clone, Copy)]
pub enum Value {
    /// A name of a program, a file or a label.
    Named(Name),
    /// A number of records, 1 to 999,999, or of tracks, 1 to 999.
    Count(u32),
    /// How long a file is kept.
    Kept(Retention),
    /// The digits mmddyy of a date, in EBCDIC.
    Dated([u8; 6]),
    /// What is done with each of U1 to U8.
    Set([Switch; 8]),
    /// A unit or a pack, which are tested for their form and not used.
    Checked,
}

/// A name of at most so many codes.
pub fn name_value(limit: usize, text: &[u8]) -> Option<Value>
    requires { limit ≤ 8 }
    ensures { result ≡ name_value_spec limit text.now }
{
    if text.len() <= limit && is_word(text) {
        Some(Value::Named(Name::of(text)))
    } else {
        None
    }
}

/// A unit: R1, R2, F1 or F2.
pub fn unit_value(text: &[u8]) -> Option<Value>
    ensures { result ≡ unit_value_spec text.now }
{
    if reads(text, &R1) || reads(text, &R2) || reads(text, &F1) || reads(text, &F2) {
        Some(Value::Checked)
    } else {
        None
    }
}

/// The name of a pack: at most 6 letters, digits, `$`, `#` and `@`.
pub fn pack_value(text: &[u8]) -> Option<Value>
    ensures { result ≡ pack_value_spec text.now }
{
    if text.len() <= 6 && go_on_in_name(text) {
        Some(Value::Checked)
    } else {
        None
    }
}

fn are_digits(text: &[u8]) -> bool
    ensures { result ≡ list_all digit_spec text.now }
{
    text.iter().all(|code| is_digit(*code))
}

/// A number of at most so many digits that isn't 0.
#[tactic(auto, unfolding(crate::specs::Values::count_value))]
pub fn count_value(limit: usize, text: &[u8]) -> Option<Value>
    requires { limit ≤ 6 }
    ensures { result ≡ count_value_spec limit text.now }
{
    if text.len() > limit {
        return None;
    }
    match number_spelled(DIGIT_0, text)? {
        0 => None,
        count => Some(Value::Count(count)),
    }
}

/// How long a file is kept: T, S or P.
pub fn retention_value(text: &[u8]) -> Option<Value>
    ensures { result ≡ retention_value_spec text.now }
{
    if text == [LETTER_T].as_slice() {
        Some(Value::Kept(Retention::Temporary))
    } else if text == [LETTER_S].as_slice() {
        Some(Value::Kept(Retention::Scratch))
    } else if text == [LETTER_P].as_slice() {
        Some(Value::Kept(Retention::Permanent))
    } else {
        None
    }
}

/// Six codes as an array.
fn six_codes(text: &[u8]) -> [u8; 6]
    requires { length text.now ≡ 6 }
    ensures { result ≡ text.now }
{
    let mut codes = [BLANK; 6];
    codes.copy_from_slice(text);
    codes
}

/// Eight codes without the third and the sixth one.
#[tactic(auto, using(crate::proofs::DateLemmas::six_of_eight))]
fn without_slashes(text: &[u8]) -> [u8; 6]
    requires { length text.now ≡ 8 }
    ensures { result ≡ without_slashes_spec text.now }
{
    [text[0], text[1], text[3], text[4], text[6], text[7]]
}

/// The number of the two digits at a place.
fn two_digits(digits: &[u8; 6], place: usize) -> u32
    requires digits { IsTrue (list_all digit_spec digits.now) }
    requires within { place < 5 }
    ensures { result ≡ two_digits_spec digits.now place }
{
    10 * u32::from(digits[place] - DIGIT_0) + u32::from(digits[place + 1] - DIGIT_0)
}

/// Whether six codes are digits, a month and a day among them.
fn is_date(digits: &[u8; 6]) -> bool
    ensures { result ≡ date_spec digits.now }
{
    if !are_digits(digits) {
        return false;
    }
    let month = two_digits(digits, 0);
    let day = two_digits(digits, 2);
    1 <= month && month <= 12 && 1 <= day && day <= 31
}

/// The date that six codes are, if they are one.
fn dated(digits: [u8; 6]) -> Option<Value>
    ensures { result ≡ dated_spec digits }
{
    if is_date(&digits) {
        Some(Value::Dated(digits))
    } else {
        None
    }
}

/// A date: mmddyy or mm/dd/yy.
#[tactic(auto, unfolding(crate::specs::Values::date_value))]
pub fn date_value(text: &[u8]) -> Option<Value>
    ensures { result ≡ date_value_spec text.now }
{
    if text.len() == 6 {
        dated(six_codes(text))
    } else if text.len() == 8 && text[2] == SLASH && text[5] == SLASH {
        dated(without_slashes(text))
    } else {
        None
    }
}

fn is_switch(code: u8) -> bool
    ensures { result ≡ switch_spec code }
{
    code == DIGIT_0 || code == DIGIT_1 || code == LETTER_X
}

fn switch_state(code: u8) -> Switch
    ensures { result ≡ switch_of code }
{
    if code == DIGIT_1 {
        Switch::On
    } else if code == DIGIT_0 {
        Switch::Off
    } else {
        Switch::Leave
    }
}

/// Whether each code is one of a switch.
fn are_switches(text: &[u8]) -> bool
    ensures { result ≡ list_all switch_spec text.now }
{
    text.iter().all(|code| is_switch(*code))
}

/// The switches that eight codes say.
#[tactic(auto, using(crate::proofs::SwitchLemmas::switch_more, crate::proofs::SwitchLemmas::all_switches))]
fn switch_states(text: &[u8]) -> [Switch; 8]
    requires { length text.now ≡ 8 }
    ensures { result ≡ map switch_of text.now }
{
    let mut switches = [Switch::Leave; 8];
    for (place, code) in text.iter().enumerate() {
        switches[place] = switch_state(*code);
    }
    switches
}

/// Eight switches, each 0, 1 or X.
#[tactic(auto, unfolding(crate::specs::Values::switches_value))]
pub fn switches_value(text: &[u8]) -> Option<Value>
    ensures { result ≡ switches_value_spec text.now }
{
    if text.len() == 8 && are_switches(text) {
        Some(Value::Set(switch_states(text)))
    } else {
        None
    }
}
