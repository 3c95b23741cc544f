//! What every part of the job shop shares: the card characters, decks of cards, words, numbers and names, the two levels and
//! printed lines.
//!
//! The code page is proved for every byte: its two directions undo each other (`codes_and_characters`), and each constant of
//! `ebcdic` is the code that its name says (`codes_as_named`). `Deck::read` is proved to give the cards of a text, or its first
//! fault with the number of the card, 1 to 9,999. The tests of words and names, the numbers and the helpers for texts are proved
//! exactly. The texts of the faults are only tested. So is that `NoMemory` comes only if memory was refused.
#![tactic(auto)]

mod characters;
mod deck;
pub mod ebcdic;
mod levels;
mod name;
mod numbers;
mod print_line;
mod punched;
mod retention;
mod texts;

pub use characters::{
    CODES_OF_BYTES, code_of_byte, codes_and_characters, host_byte, to_ebcdic, to_host,
};
pub use deck::{COLUMNS, Card, CardFault, Deck, DeckFault, first_line, without_carriage_return};
pub use levels::LevelId;
pub use name::{
    Name, begins_name, go_on_in_name, goes_on_in_name, is_digit, is_letter, is_name, is_word,
};
pub use numbers::{number_spelled, push_number};
pub use print_line::{PRINT_POSITIONS, PrintLine};
pub use retention::Retention;
pub use texts::{are_blank, are_same_eight, blanks_in_front, push_characters, trim_end, word_len};
