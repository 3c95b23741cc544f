//! Words as they are punched.

/// A word's EBCDIC codes, for a constant: `punched!(4, b"LOAD")` is the `[u8; 4]` of `LOAD`. The number is the word's
/// length, at most 8.
///
/// Each code is looked up in `CODES_OF_BYTES`, so a character that no card can have gets 0; and a number below the word's
/// length cuts it off. Hence a module with such words has a law that they are the code page's translation of their
/// characters.
#[macro_export]
macro_rules! punched {
    (1, $word:literal) => { $crate::punched!($word at 0) };
    (2, $word:literal) => { $crate::punched!($word at 0 1) };
    (3, $word:literal) => { $crate::punched!($word at 0 1 2) };
    (4, $word:literal) => { $crate::punched!($word at 0 1 2 3) };
    (5, $word:literal) => { $crate::punched!($word at 0 1 2 3 4) };
    (6, $word:literal) => { $crate::punched!($word at 0 1 2 3 4 5) };
    (7, $word:literal) => { $crate::punched!($word at 0 1 2 3 4 5 6) };
    (8, $word:literal) => { $crate::punched!($word at 0 1 2 3 4 5 6 7) };
    ($word:literal at $($place:literal)*) => { [$($crate::CODES_OF_BYTES[$word[$place] as usize]),*] };
}
