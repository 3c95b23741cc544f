//! Parameters of statements, and what they take.

/// What a statement does, by its keyword.
#[derive(Clone, Copy, PartialEq, Eq)]
pub enum Keyword {
    /// LOAD.
    Load,
    /// FILE.
    File,
    /// DATE.
    Date,
    /// SWITCH.
    Switch,
    /// RUN.
    Run,
}

impl Keyword {
    /// The keyword of a word, if it is one.
    pub fn of(word: &str) -> Option<Keyword> {
        match word {
            "LOAD" => Some(Keyword::Load),
            "FILE" => Some(Keyword::File),
            "DATE" => Some(Keyword::Date),
            "SWITCH" => Some(Keyword::Switch),
            "RUN" => Some(Keyword::Run),
            _ => None,
        }
    }

    /// The keyword as it is punched.
    pub fn word(self) -> &'static str {
        match self {
            Keyword::Load => "LOAD",
            Keyword::File => "FILE",
            Keyword::Date => "DATE",
            Keyword::Switch => "SWITCH",
            Keyword::Run => "RUN",
        }
    }

    /// What the statement takes as parameters.
    pub fn takes(self) -> &'static str {
        match self {
            Keyword::Load => "a program and a unit, as in // LOAD LIST,F1",
            Keyword::File => "NAME- and other parameters, as in // FILE NAME-STOCK",
            Keyword::Date => "a date, MMDDYY or MM/DD/YY",
            Keyword::Switch => "eight of 0, 1 and X without commas",
            Keyword::Run => "no parameters",
        }
    }
}

/// What is wrong with a parameter at a place, from 0, of a LOAD, DATE, SWITCH or RUN statement.
#[derive(Clone, Copy, PartialEq, Eq)]
pub enum PlaceFault {
    /// It is no name that a program can have.
    Program,
    /// It is no unit.
    Unit,
    /// It is no date.
    Date,
    /// It isn't eight switches.
    Switches,
    /// The statement has no parameter at this place.
    Surplus,
}

/// What is wrong with a parameter at a place, from 0; none if nothing is. The parameters of FILE aren't known by their places.
pub fn place_fault(keyword: Keyword, place: usize, text: &str) -> Option<PlaceFault> {
    let (is_right, fault) = match (keyword, place) {
        (Keyword::File, _) => (true, PlaceFault::Surplus),
        (Keyword::Load, 0) => (is_name(text) && text.len() <= 6, PlaceFault::Program),
        (Keyword::Load, 1) => (is_unit(text), PlaceFault::Unit),
        (Keyword::Date, 0) => (is_date(text.as_bytes()), PlaceFault::Date),
        (Keyword::Switch, 0) => (are_switches(text), PlaceFault::Switches),
        _ => (false, PlaceFault::Surplus),
    };
    if is_right { None } else { Some(fault) }
}

/// Whether a text is a unit.
fn is_unit(text: &str) -> bool {
    matches!(text, "R1" | "R2" | "F1" | "F2")
}

/// Whether a text is eight switches.
fn are_switches(text: &str) -> bool {
    text.len() == 8 && text.bytes().all(|byte| matches!(byte, b'0' | b'1' | b'X'))
}

/// What a parameter of FILE takes, by its name; nothing for a name that FILE doesn't have.
pub fn file_parameter(name: &str) -> Option<&'static str> {
    match name {
        "NAME" | "LABEL" => Some(
            "a name of 1 to 8 letters, digits, $, # and @, which begins with no digit",
        ),
        "UNIT" => Some("R1, R2, F1 or F2"),
        "PACK" => Some("1 to 6 letters, digits, $, # and @"),
        "RECORDS" => Some("a number from 1 to 999999"),
        "TRACKS" => Some("a number from 1 to 999"),
        "RETAIN" => Some("T, S or P"),
        _ => None,
    }
}

/// Whether a parameter of FILE can have a value.
pub fn is_right(name: &str, value: &str) -> bool {
    match name {
        "NAME" | "LABEL" => is_name(value) && value.len() <= 8,
        "UNIT" => is_unit(value),
        "PACK" => !value.is_empty() && value.len() <= 6 && value.bytes().all(|byte| is_mark(byte)),
        "RECORDS" => is_count(value, 6),
        "TRACKS" => is_count(value, 3),
        _ => matches!(value, "T" | "S" | "P"),
    }
}

/// Whether a character may be in a name.
fn is_mark(byte: u8) -> bool {
    matches!(byte, b'A'..=b'Z' | b'0'..=b'9' | b'$' | b'#' | b'@')
}

/// Whether a text is a name of any length.
fn is_name(text: &str) -> bool {
    let begins = match text.bytes().next() {
        Some(first) => !first.is_ascii_digit(),
        None => false,
    };
    begins && text.bytes().all(|byte| is_mark(byte))
}

/// Whether a text is a number above 0 in so many digits at most.
fn is_count(text: &str, most: usize) -> bool {
    let is_number = text.bytes().all(|byte| byte.is_ascii_digit());
    is_number && text.len() <= most && text.bytes().any(|byte| byte != b'0')
}

/// What a date has in place of a month or a day.
#[derive(Clone, Copy, PartialEq, Eq)]
pub enum DateFault {
    /// This month.
    Month(u8),
    /// This day.
    Day(u8),
    /// It has eight digits.
    EightDigits,
    /// It isn't six digits.
    Form,
}

/// The number of two digits at a place of a text.
fn number_at(text: &[u8], place: usize) -> Option<u8> {
    match text.get(place..place.saturating_add(2)) {
        Some([tens @ b'0'..=b'9', ones @ b'0'..=b'9']) => Some(
            tens.saturating_sub(b'0')
                .saturating_mul(10)
                .saturating_add(ones.saturating_sub(b'0')),
        ),
        _ => None,
    }
}

/// What is wrong with a date.
pub fn date_fault(text: &[u8]) -> DateFault {
    if text.len() == 8 && text.iter().all(|byte| byte.is_ascii_digit()) {
        return DateFault::EightDigits;
    }
    let numbers = match text.len() {
        6 => (number_at(text, 0), number_at(text, 2)),
        8 => (number_at(text, 0), number_at(text, 3)),
        _ => (None, None),
    };
    match numbers {
        (Some(month), Some(_)) if month == 0 || month > 12 => DateFault::Month(month),
        (Some(_), Some(day)) if day == 0 || day > 31 => DateFault::Day(day),
        _ => DateFault::Form,
    }
}

/// Whether a text is a date: six digits, or with the slashes eight characters.
fn is_date(text: &[u8]) -> bool {
    let has_form = match text {
        [_, _, _, _, _, _] => number_at(text, 4).is_some(),
        [_, _, b'/', _, _, b'/', _, _] => number_at(text, 6).is_some(),
        _ => false,
    };
    let numbers = (
        number_at(text, 0),
        number_at(text, if text.len() == 6 { 2 } else { 3 }),
    );
    has_form && is_day(numbers)
}

/// Whether two numbers are a month and a day.
fn is_day(numbers: (Option<u8>, Option<u8>)) -> bool {
    match numbers {
        (Some(month), Some(day)) => (1..=12).contains(&month) && (1..=31).contains(&day),
        _ => false,
    }
}
