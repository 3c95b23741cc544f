//! What is wrong with a line of the rules.

use thiserror::Error;

/// What is wrong with a line of the rules.
#[derive(Clone, Copy, Debug, Error)]
pub enum LineFault {
    /// There are fewer than three words on it.
    #[error("a rule is LEVEL LETTERS DIGIT, and a PROGRAM if it is for one alone")]
    TooShort,
    /// The first word is no level.
    #[error("the level is 1, 2, or * for either")]
    Level,
    /// The second word has the letters of no halt.
    #[error("no halt has these letters; * stands for any")]
    Letters,
    /// The third word is no digit.
    #[error("the reply is one digit")]
    Digit,
    /// The halt, or each of them, never allows the digit; it allows 0, 2 and 3.
    #[error("the digit is never allowed here: it may be 0, 2 or 3")]
    NotOfThree,
    /// The halt never allows the digit; it allows 2 and 3.
    #[error("the digit is never allowed here: it may be 2 or 3")]
    NotOfTwo,
    /// The fourth word is no name of a program.
    #[error("a program's name begins with a letter, $ or @, and has at most 6 of these, # and digits")]
    Program,
    /// There are more than four words.
    #[error("there is more after the program's name")]
    TooLong,
}

/// A line of the rules that is malformed.
#[derive(Clone, Copy, Debug, Error)]
#[error("line {number}: {fault}")]
pub struct IllFormedLine {
    /// The number of the line, from 1; empty lines and comments count.
    pub number: usize,
    /// What is wrong with it: the first fault, from left to right.
    pub fault: LineFault,
}
