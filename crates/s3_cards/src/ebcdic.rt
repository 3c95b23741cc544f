//! The EBCDIC codes of the card characters, by name.
ghost use Rattle.std.specs.Prelude.{◌≡◌, map};
ghost use Rattle.s3_cards.specs.Codes.{ebcdic};
ghost use Rattle.s3_cards.specs.Inner.NamedCodes.{named_runs};

/// The code of a blank.
pub const BLANK: u8 = 0x40;
/// The code of `.`.
pub const PERIOD: u8 = 0x4b;
/// The code of `<`.
pub const LESS_THAN: u8 = 0x4c;
/// The code of `(`.
pub const LEFT_PARENTHESIS: u8 = 0x4d;
/// The code of `+`.
pub const PLUS: u8 = 0x4e;
/// The code of `|`.
pub const VERTICAL_BAR: u8 = 0x4f;
/// The code of `&`.
pub const AMPERSAND: u8 = 0x50;
/// The code of `!`.
pub const EXCLAMATION_MARK: u8 = 0x5a;
/// The code of `$`.
pub const DOLLAR: u8 = 0x5b;
/// The code of `*`.
pub const ASTERISK: u8 = 0x5c;
/// The code of `)`.
pub const RIGHT_PARENTHESIS: u8 = 0x5d;
/// The code of `;`.
pub const SEMICOLON: u8 = 0x5e;
/// The code of `-`.
pub const MINUS: u8 = 0x60;
/// The code of `/`.
pub const SLASH: u8 = 0x61;
/// The code of `,`.
pub const COMMA: u8 = 0x6b;
/// The code of `%`.
pub const PERCENT: u8 = 0x6c;
/// The code of `_`.
pub const UNDERSCORE: u8 = 0x6d;
/// The code of `>`.
pub const GREATER_THAN: u8 = 0x6e;
/// The code of `?`.
pub const QUESTION_MARK: u8 = 0x6f;
/// The code of `:`.
pub const COLON: u8 = 0x7a;
/// The code of `#`.
pub const NUMBER_SIGN: u8 = 0x7b;
/// The code of `@`.
pub const AT_SIGN: u8 = 0x7c;
/// The code of `'`.
pub const APOSTROPHE: u8 = 0x7d;
/// The code of `=`.
pub const EQUALS: u8 = 0x7e;
/// The code of `"`.
pub const QUOTATION_MARK: u8 = 0x7f;
/// The code of `{`.
pub const LEFT_BRACE: u8 = 0xc0;
/// The code of `A`.
pub const LETTER_A: u8 = 0xc1;
/// The code of `B`.
pub const LETTER_B: u8 = 0xc2;
/// The code of `C`.
pub const LETTER_C: u8 = 0xc3;
/// The code of `D`.
pub const LETTER_D: u8 = 0xc4;
/// The code of `E`.
pub const LETTER_E: u8 = 0xc5;
/// The code of `F`.
pub const LETTER_F: u8 = 0xc6;
/// The code of `G`.
pub const LETTER_G: u8 = 0xc7;
/// The code of `H`.
pub const LETTER_H: u8 = 0xc8;
/// The code of `I`.
pub const LETTER_I: u8 = 0xc9;
/// The code of `}`.
pub const RIGHT_BRACE: u8 = 0xd0;
/// The code of `J`.
pub const LETTER_J: u8 = 0xd1;
/// The code of `K`.
pub const LETTER_K: u8 = 0xd2;
/// The code of `L`.
pub const LETTER_L: u8 = 0xd3;
/// The code of `M`.
pub const LETTER_M: u8 = 0xd4;
/// The code of `N`.
pub const LETTER_N: u8 = 0xd5;
/// The code of `O`.
pub const LETTER_O: u8 = 0xd6;
/// The code of `P`.
pub const LETTER_P: u8 = 0xd7;
/// The code of `Q`.
pub const LETTER_Q: u8 = 0xd8;
/// The code of `R`.
pub const LETTER_R: u8 = 0xd9;
/// The code of `S`.
pub const LETTER_S: u8 = 0xe2;
/// The code of `T`.
pub const LETTER_T: u8 = 0xe3;
/// The code of `U`.
pub const LETTER_U: u8 = 0xe4;
/// The code of `V`.
pub const LETTER_V: u8 = 0xe5;
/// The code of `W`.
pub const LETTER_W: u8 = 0xe6;
/// The code of `X`.
pub const LETTER_X: u8 = 0xe7;
/// The code of `Y`.
pub const LETTER_Y: u8 = 0xe8;
/// The code of `Z`.
pub const LETTER_Z: u8 = 0xe9;
/// The code of `0`.
pub const DIGIT_0: u8 = 0xf0;
/// The code of `1`.
pub const DIGIT_1: u8 = 0xf1;
/// The code of `2`.
pub const DIGIT_2: u8 = 0xf2;
/// The code of `3`.
pub const DIGIT_3: u8 = 0xf3;
/// The code of `4`.
pub const DIGIT_4: u8 = 0xf4;
/// The code of `5`.
pub const DIGIT_5: u8 = 0xf5;
/// The code of `6`.
pub const DIGIT_6: u8 = 0xf6;
/// The code of `7`.
pub const DIGIT_7: u8 = 0xf7;
/// The code of `8`.
pub const DIGIT_8: u8 = 0xf8;
/// The code of `9`.
pub const DIGIT_9: u8 = 0xf9;

/// Each named code is the code of the character in its name.
#[tactic(auto, unfolding(crate::specs::Codes::ebcdic, crate::specs::Codes::code_page))]
pub fn codes_as_named()
    ensures { map (λ run. run.0) named_runs ≡ map (λ run. ebcdic run.1) named_runs }
{}
