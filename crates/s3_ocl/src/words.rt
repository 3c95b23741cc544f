//! The words of the statements.
ghost use Rattle.std.specs.Prelude.{◌≡◌};
ghost use Rattle.s3_ocl.specs.Words.{reads as reads_spec};
ghost use Rattle.s3_ocl.specs.Inner.Words.{words as words_spec, punched_words};

use s3_cards::punched;

/// The keyword `LOAD`.
pub const LOAD: [u8; 4] = punched!(4, b"LOAD");

/// The keyword `FILE`.
pub const FILE: [u8; 4] = punched!(4, b"FILE");

/// The keyword `DATE`.
pub const DATE: [u8; 4] = punched!(4, b"DATE");

/// The keyword `SWITCH`.
pub const SWITCH: [u8; 6] = punched!(6, b"SWITCH");

/// The keyword `RUN`.
pub const RUN: [u8; 3] = punched!(3, b"RUN");

/// The parameter `NAME` of FILE.
pub const NAME: [u8; 4] = punched!(4, b"NAME");

/// The parameter `UNIT` of FILE.
pub const UNIT: [u8; 4] = punched!(4, b"UNIT");

/// The parameter `PACK` of FILE.
pub const PACK: [u8; 4] = punched!(4, b"PACK");

/// The parameter `LABEL` of FILE.
pub const LABEL: [u8; 5] = punched!(5, b"LABEL");

/// The parameter `RECORDS` of FILE.
pub const RECORDS: [u8; 7] = punched!(7, b"RECORDS");

/// The parameter `TRACKS` of FILE.
pub const TRACKS: [u8; 6] = punched!(6, b"TRACKS");

/// The parameter `RETAIN` of FILE.
pub const RETAIN: [u8; 6] = punched!(6, b"RETAIN");

/// The unit `R1`.
pub const R1: [u8; 2] = punched!(2, b"R1");

/// The unit `R2`.
pub const R2: [u8; 2] = punched!(2, b"R2");

/// The unit `F1`.
pub const F1: [u8; 2] = punched!(2, b"F1");

/// The unit `F2`.
pub const F2: [u8; 2] = punched!(2, b"F2");

/// `$RPG`, the name of the compiler.
pub const COMPILER: [u8; 8] = punched!(8, b"$RPG    ");

/// Whether a text is this word.
#[tactic(auto, using(crate::proofs::WordLemmas::reads_as_long, crate::proofs::WordLemmas::reads_no_other_length))]
pub fn reads(text: &[u8], word: &[u8]) -> bool
    ensures { result ≡ reads_spec text.now word.now }
{
    text.len() == word.len() && text.starts_with(word)
}

/// Each word that the definitions name is its text as it is punched, in EBCDIC.
#[tactic(auto, unfolding(s3_cards::specs::Codes::ebcdic, s3_cards::specs::Codes::code_page))]
pub fn words_as_punched()
    ensures { words_spec ≡ punched_words }
{}
