//! What is known of each halt, in one table: its letters, what it means, and what replies do.
ghost use Rattle.std.specs.Prelude.{◌≡◌};
ghost use Rattle.s3_operator.specs.Inner.Codes.{IsCodeOf, has_letters};
ghost use Rattle.s3_operator.specs.Table.{kind_of, letters_of};

use crate::halt_code::{HALTS, HaltCode};
use crate::halt_kind::HaltKind;

/// What is known of a halt.
#[derive(Drop)]
pub(crate) struct HaltRow {
    /// Its two letters, in ASCII.
    pub letters: [u8; 2],
    /// The point at which its job halts, which decides what replies do.
    pub kind: HaltKind,
    /// What it means, as it is shown after its letters.
    pub meaning: &'static str,
    /// What reply 0 does; `None` if it isn't allowed.
    pub reply_0: Option<&'static str>,
}

/// A halt after which the job can continue; the last argument says what reply 0 does.
fn goes_on(letters: [u8; 2], meaning: &'static str, reply_0: &'static str) -> HaltRow
    ensures letters { result.letters ≡ letters }
    ensures kind { result.kind ≡ HaltKind.GoesOn }
{
    HaltRow {
        letters,
        kind: HaltKind::GoesOn,
        meaning,
        reply_0: Some(reply_0),
    }
}

/// A halt that ends a job at work.
fn ends(letters: [u8; 2], meaning: &'static str) -> HaltRow
    ensures letters { result.letters ≡ letters }
    ensures kind { result.kind ≡ HaltKind.Ends }
{
    HaltRow {
        letters,
        kind: HaltKind::Ends,
        meaning,
        reply_0: None,
    }
}

/// A halt of a job that can't be started.
fn not_started(letters: [u8; 2], meaning: &'static str) -> HaltRow
    ensures letters { result.letters ≡ letters }
    ensures kind { result.kind ≡ HaltKind.NotStarted }
{
    HaltRow {
        letters,
        kind: HaltKind::NotStarted,
        meaning,
        reply_0: None,
    }
}

/// The row of a halt.
pub(crate) fn row(code: HaltCode) -> HaltRow
    ensures letters { result.letters ≡ letters_of code }
    ensures kind { result.kind ≡ kind_of code }
{
    match code {
        HaltCode::HaltIndicator(number) => goes_on(
            [b'H', b'0' + number % 10],
            "the program turned on a halt indicator",
            "goes on; the halt indicator goes off",
        ),
        HaltCode::UnidentifiedRecord => goes_on(
            *b"UR",
            "a record of none of its file's types",
            "passes the record over",
        ),
        HaltCode::ZeroDivisor => goes_on(
            *b"DZ",
            "a division by zero",
            "goes on with 0 as the result",
        ),
        HaltCode::BadDigit => goes_on(
            *b"DE",
            "a bad digit in a number",
            "goes on with 0 in place of each bad digit",
        ),
        HaltCode::NoRecordFound => goes_on(
            *b"NF",
            "CHAIN found no record",
            "goes on without a record",
        ),
        HaltCode::DuplicateKey => goes_on(
            *b"DK",
            "a record would be added under a key that its file has",
            "goes on; the record isn't added",
        ),
        HaltCode::OutOfSequence => goes_on(
            *b"SQ",
            "a record out of sequence by its match fields",
            "passes the record over and reads the next",
        ),
        HaltCode::KeyChanged => goes_on(
            *b"KC",
            "an update would change the key of its record",
            "goes on; nothing is updated",
        ),
        HaltCode::NothingToUpdate => goes_on(
            *b"NU",
            "there is no record to update",
            "goes on; nothing is updated",
        ),
        HaltCode::FileFull => ends(*b"EX", "a file is full"),
        HaltCode::KeyNotAscending => ends(*b"KA", "the keys of a load don't ascend"),
        HaltCode::FaultyJob => not_started(*b"OC", "the job's statements are faulty"),
        HaltCode::NoProgram => not_started(*b"PG", "no program of that name was compiled"),
        HaltCode::FaultySource => not_started(
            *b"CE",
            "the source has diagnostics, so nothing was compiled",
        ),
        HaltCode::NoLabel => not_started(
            *b"LB",
            "a file has no FILE statement, or there is no file of its label",
        ),
        HaltCode::DamagedLabel => not_started(
            *b"LD",
            "damage in the label area blocks a file's label",
        ),
        HaltCode::MasterForUpdate => not_started(
            *b"MU",
            "a master would be changed, or a file made under its label",
        ),
        HaltCode::NoSpace => not_started(*b"NS", "there is no room for a file that the job makes"),
        HaltCode::RetainedFile => not_started(
            *b"RT",
            "a file that the job makes anew is kept for good (RETAIN-P)",
        ),
        HaltCode::DuplicateLabel => not_started(*b"DU", "two files of the job have one label"),
        HaltCode::LabelMismatch => not_started(
            *b"LN",
            "a file's record length, organization or key isn't that of its label",
        ),
        HaltCode::BadIndex => not_started(*b"IX", "a file's index is bad"),
    }
}

/// The two letters of a halt, in ASCII, as `UR`; those of H1 to H9 are a letter and a digit. docs/RUNNING.md has them all.
pub fn letters(code: HaltCode) -> [u8; 2]
    ensures { result ≡ letters_of code }
{
    row(code).letters
}

/// The halt that has these two letters, in ASCII; `None` if no halt has them.
pub fn code_of(letters: [u8; 2]) -> Option<HaltCode>
    ensures { IsCodeOf letters result }
{
    HALTS
        .iter()
        .find(|code| has_letters(**code, letters))
        .copied()
}

/// Whether a halt has these letters.
fn has_letters(code: HaltCode, letters: [u8; 2]) -> bool
    ensures { result ≡ has_letters letters code }
{
    row(code).letters == letters
}
