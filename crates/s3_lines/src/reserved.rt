//! Names that the language has itself.

ghost use Rattle.std.specs.Prelude.{◌≡◌};
ghost use Rattle.s3_lines.specs.Reserved.{reserved_names as reserved_names_spec, is_reserved as reserved_spec};

use s3_cards::Name;
use s3_cards::ebcdic::{
    BLANK, LETTER_A, LETTER_B, LETTER_D, LETTER_E, LETTER_G, LETTER_H, LETTER_J, LETTER_M,
    LETTER_N, LETTER_O, LETTER_P, LETTER_R, LETTER_T, LETTER_U, LETTER_Y,
};

/// UDATE, the field with the date of a job: 6 digits, mmddyy.
pub const UDATE: Name = Name {
    codes: [
        LETTER_U, LETTER_D, LETTER_A, LETTER_T, LETTER_E, BLANK, BLANK, BLANK,
    ],
};

/// UMONTH, the field with the month of a job's date: 2 digits.
pub const UMONTH: Name = Name {
    codes: [
        LETTER_U, LETTER_M, LETTER_O, LETTER_N, LETTER_T, LETTER_H, BLANK, BLANK,
    ],
};

/// UDAY, the field with the day of a job's date: 2 digits.
pub const UDAY: Name = Name {
    codes: [
        LETTER_U, LETTER_D, LETTER_A, LETTER_Y, BLANK, BLANK, BLANK, BLANK,
    ],
};

/// UYEAR, the field with the year of a job's date: 2 digits.
pub const UYEAR: Name = Name {
    codes: [
        LETTER_U, LETTER_Y, LETTER_E, LETTER_A, LETTER_R, BLANK, BLANK, BLANK,
    ],
};

/// PAGE, the field that counts pages, 4 digits: it grows by 1 each time that it is written.
pub const PAGE: Name = Name {
    codes: [
        LETTER_P, LETTER_A, LETTER_G, LETTER_E, BLANK, BLANK, BLANK, BLANK,
    ],
};

/// RPGOBJ, the name of a program whose source has no H card with a name.
pub const RPGOBJ: Name = Name {
    codes: [
        LETTER_R, LETTER_P, LETTER_G, LETTER_O, LETTER_B, LETTER_J, BLANK, BLANK,
    ],
};

/// The fields that no sheet defines.
static RESERVED_NAMES: [Name; 5] = [UDATE, UMONTH, UDAY, UYEAR, PAGE];

#[tactic(auto, unfolding(crate::specs::Reserved::reserved_names))]
fn reserved_names() -> &'static [Name]
    ensures { result.now ≡ reserved_names_spec }
{
    &RESERVED_NAMES
}

/// Whether a name is reserved for a field that the language has itself: UDATE, UMONTH, UDAY, UYEAR or PAGE.
pub fn is_reserved(name: &Name) -> bool
    ensures { result ≡ reserved_spec name.now }
{
    reserved_names().iter().any(|other| other == name)
}
