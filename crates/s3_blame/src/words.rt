//! Diagnostics in words.
ghost use Rattle.std.specs.Prelude.{◌≡◌};
ghost use Rattle.s3_blame.specs.Inner.Words.{words_of};

/// What a diagnostic means, by its number, 1 to 13. docs/MESSAGES.md has the same words, with causes and cures.
pub fn diagnostic_words(number: u8) -> &'static str
    ensures { result.now ≡ words_of number }
{
    match number {
        1 => "the card is of no sheet, or out of order",
        2 => "an entry that isn't in the tables",
        3 => "a name or literal is ill formed",
        4 => "a number is wrong, or a position is outside its record",
        5 => "a name that isn't defined",
        6 => "defined twice",
        7 => "an indicator that may not stand there",
        8 => "an operation or an edit that doesn't fit",
        9 => "a line out of its place",
        10 => "a jump or a call that isn't allowed",
        11 => "match or control fields that disagree",
        12 => "a file that can't be so, or a line that its file doesn't allow",
        _ => "too many",
    }
}
