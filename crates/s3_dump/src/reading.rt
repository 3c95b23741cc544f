//! Dumps read: the bytes that a text represents.
ghost use Rattle.std.specs.Prelude.{◌≡◌, ◌≢◌, ◌<◌, ℕ, List, Some, None, IfOk, IfErr, IfSome, IfNone};
ghost use Rattle.s3_dump.specs.Inner.Dumps.{IsRestoreFault, hex_value as hex_value_spec, is_start as is_start_spec, line_after as line_after_spec, restored, step_by};

use crate::fault::RestoreFault;
use crate::index::{IndexLine, index_of};
use s3_cards::code_of_byte;
use std::alloc::{AllocError, Global};

/// The longest run of zeros of one line.
pub const MOST_ZEROS: u64 = 99_999_999;

/// The highest number in the line of an index.
pub const MOST_NUMBER: u32 = 99_999_999;

/// How many blanks the line of an index has, each of them between two numbers.
pub const BLANKS: u8 = 4;

/// No number of an index is read.
const NO_NUMBERS: IndexLine = IndexLine {
    count: 0,
    record_length: 0,
    sectors: 0,
    key_start: 0,
    key_length: 0,
};

/// What the next character of a dump belongs to.
#[derive(Clone, Copy)]
pub enum Mode {
    /// It is the first of a line.
    Start,
    /// It belongs to a note.
    Note,
    /// It belongs to a number of zeros, which is this so far.
    Zeros(u64),
    /// It is the next among codes.
    Codes,
    /// It is the first hexadecimal digit of a byte.
    High,
    /// It is the second hexadecimal digit of a byte, after one of this value.
    Low(u8),
    /// It is the end of a line of codes.
    End,
    /// It belongs to the numbers of an index, of which the last is the key length here, after so many blanks.
    Index(u8, IndexLine),
}

/// The bytes that a dump represents. Refused with `NoDump`, which has the first wrong line, if the text represents none, and with
/// `NoMemory`.
#[tactic(auto, using(crate::proofs::DumpLemmas::one_more_read, crate::proofs::DumpLemmas::whole_read, crate::proofs::DumpLemmas::not_whole))]
pub fn restore(alloc: Global, text: &[u8]) -> Result<Vec<u8>, RestoreFault>
    ensures bytes { IfOk result (λ bytes. restored text.now ≡ Some bytes.items) }
    ensures refused { IfErr result (IsRestoreFault text.now) }
{
    let mut bytes = Vec::new(alloc);
    let mut mode = Mode::Start;
    for (place, character) in text.iter().enumerate() {
        match read(alloc, mode, *character, &mut bytes)? {
            Some(next) => mode = next,
            None => return Err(RestoreFault::NoDump(line_after(&text[..place]))),
        }
    }
    if is_start(mode) {
        Ok(bytes)
    } else {
        Err(RestoreFault::NoDump(line_after(text)))
    }
}

/// Whether the next character is the first of a line.
fn is_start(mode: Mode) -> bool
    ensures { result ≡ is_start_spec mode }
{
    matches!(mode, Mode::Start)
}

/// The line, from 1, in which the next character after a text is.
#[tactic(auto, using(crate::proofs::DumpLemmas::no_line_more, crate::proofs::DumpLemmas::one_line_more))]
fn line_after(text: &[u8]) -> u64
    ensures { result ≡ line_after_spec text.now }
{
    let mut line = 1u64;
    for character in text {
        if *character == b'\n' {
            line += 1;
        }
    }
    line
}

/// Reads a character, and adds the bytes that it ends. Returns what the next one belongs to; none if no dump has the character there.
fn read(
    alloc: Global,
    mode: Mode,
    character: u8,
    bytes: &mut Vec<u8>,
) -> Result<Option<Mode>, AllocError>
    ensures next { IfOk result (λ next. IfSome next (λ next. step_by mode character bytes.old.items ≡ Some (record { mode = next; bytes = bytes.new.items }))) }
    ensures none { IfOk result (λ next. IfNone next (step_by mode character bytes.old.items ≡ None)) }
{
    match mode {
        Mode::Start => Ok(begun_by(character)),
        Mode::Note => Ok(Some(if character == b'\n' {
            Mode::Start
        } else {
            Mode::Note
        })),
        Mode::Zeros(count) => read_zeros(alloc, count, character, bytes),
        Mode::Codes => read_code(character, bytes),
        Mode::High => Ok(high_of(character)),
        Mode::Low(high) => read_low(high, character, bytes),
        Mode::End => Ok(if character == b'\n' {
            Some(Mode::Start)
        } else {
            None
        }),
        Mode::Index(blanks, line) => read_index(alloc, blanks, &line, character, bytes),
    }
}

/// What a line is that begins with a character.
fn begun_by(character: u8) -> Option<Mode>
    ensures next { (bytes : List ℕ) → IfSome result (λ next. step_by Mode.Start character bytes ≡ Some (record { mode = next; bytes = bytes })) }
    ensures none { (bytes : List ℕ) → IfNone result (step_by Mode.Start character bytes ≡ None) }
{
    match character {
        b'\n' => Some(Mode::Start),
        b'#' => Some(Mode::Note),
        b'[' => Some(Mode::Codes),
        b'*' => Some(Mode::Zeros(0)),
        b'=' => Some(Mode::Index(0, NO_NUMBERS)),
        _ => None,
    }
}

/// Reads a character of a number of zeros.
fn read_zeros(
    alloc: Global,
    count: u64,
    character: u8,
    bytes: &mut Vec<u8>,
) -> Result<Option<Mode>, AllocError>
    ensures next { IfOk result (λ next. IfSome next (λ next. step_by (Mode.Zeros count) character bytes.old.items ≡ Some (record { mode = next; bytes = bytes.new.items }))) }
    ensures none { IfOk result (λ next. IfNone next (step_by (Mode.Zeros count) character bytes.old.items ≡ None)) }
{
    if character == b'\n' {
        let zeros = vec![in alloc; 0u8; count as usize]?;
        bytes.extend_from_slice(&zeros)?;
        return Ok(Some(Mode::Start));
    }
    if !character.is_ascii_digit() || count > MOST_ZEROS {
        return Ok(None);
    }
    let more = count * 10 + u64::from(character - b'0');
    Ok(if more <= MOST_ZEROS {
        Some(Mode::Zeros(more))
    } else {
        None
    })
}

/// Reads a character of the numbers of an index.
fn read_index(
    alloc: Global,
    blanks: u8,
    line: &IndexLine,
    character: u8,
    bytes: &mut Vec<u8>,
) -> Result<Option<Mode>, AllocError>
    ensures next { IfOk result (λ next. IfSome next (λ next. step_by (Mode.Index blanks line.now) character bytes.old.items ≡ Some (record { mode = next; bytes = bytes.new.items }))) }
    ensures none { IfOk result (λ next. IfNone next (step_by (Mode.Index blanks line.now) character bytes.old.items ≡ None)) }
{
    match character {
        b'\n' => end_index(alloc, blanks, line, bytes),
        b' ' => Ok(next_number(blanks, line)),
        _ => Ok(with_digit(blanks, line, character)),
    }
}

/// Reads the end of the line of an index.
fn end_index(
    alloc: Global,
    blanks: u8,
    line: &IndexLine,
    bytes: &mut Vec<u8>,
) -> Result<Option<Mode>, AllocError>
    ensures next { IfOk result (λ next. IfSome next (λ next. step_by (Mode.Index blanks line.now) 10 bytes.old.items ≡ Some (record { mode = next; bytes = bytes.new.items }))) }
    ensures none { IfOk result (λ next. IfNone next (step_by (Mode.Index blanks line.now) 10 bytes.old.items ≡ None)) }
{
    if blanks != BLANKS {
        return Ok(None);
    }
    match index_of(alloc, line, bytes)? {
        Some(index) => {
            bytes.extend_from_slice(&index)?;
            Ok(Some(Mode::Start))
        }
        None => Ok(None),
    }
}

/// Reads the blank before the next number of an index.
fn next_number(blanks: u8, line: &IndexLine) -> Option<Mode>
    ensures next { (bytes : List ℕ) → IfSome result (λ next. step_by (Mode.Index blanks line.now) 32 bytes ≡ Some (record { mode = next; bytes = bytes })) }
    ensures none { (bytes : List ℕ) → IfNone result (step_by (Mode.Index blanks line.now) 32 bytes ≡ None) }
{
    if blanks >= BLANKS {
        return None;
    }
    let moved = IndexLine {
        count: line.record_length,
        record_length: line.sectors,
        sectors: line.key_start,
        key_start: line.key_length,
        key_length: 0,
    };
    Some(Mode::Index(blanks + 1, moved))
}

/// Reads a digit of a number of an index.
fn with_digit(blanks: u8, line: &IndexLine, character: u8) -> Option<Mode>
    requires other { character ≢ 10 }
    requires no_blank { character ≢ 32 }
    ensures next { (bytes : List ℕ) → IfSome result (λ next. step_by (Mode.Index blanks line.now) character bytes ≡ Some (record { mode = next; bytes = bytes })) }
    ensures none { (bytes : List ℕ) → IfNone result (step_by (Mode.Index blanks line.now) character bytes ≡ None) }
{
    if !character.is_ascii_digit() || line.key_length > MOST_NUMBER {
        return None;
    }
    let more = line.key_length * 10 + u32::from(character - b'0');
    if more > MOST_NUMBER {
        return None;
    }
    Some(Mode::Index(
        blanks,
        IndexLine {
            count: line.count,
            record_length: line.record_length,
            sectors: line.sectors,
            key_start: line.key_start,
            key_length: more,
        },
    ))
}

/// Reads a character among codes.
fn read_code(character: u8, bytes: &mut Vec<u8>) -> Result<Option<Mode>, AllocError>
    ensures next { IfOk result (λ next. IfSome next (λ next. step_by Mode.Codes character bytes.old.items ≡ Some (record { mode = next; bytes = bytes.new.items }))) }
    ensures none { IfOk result (λ next. IfNone next (step_by Mode.Codes character bytes.old.items ≡ None)) }
{
    if character == b']' {
        return Ok(Some(Mode::End));
    }
    if character == b'\\' {
        return Ok(Some(Mode::High));
    }
    match code_of_byte(character) {
        Some(code) => {
            bytes.push(code)?;
            Ok(Some(Mode::Codes))
        }
        None => Ok(None),
    }
}

/// Reads the first digit of a byte.
fn high_of(character: u8) -> Option<Mode>
    ensures next { (bytes : List ℕ) → IfSome result (λ next. step_by Mode.High character bytes ≡ Some (record { mode = next; bytes = bytes })) }
    ensures none { (bytes : List ℕ) → IfNone result (step_by Mode.High character bytes ≡ None) }
{
    match hex_value(character) {
        Some(high) => Some(Mode::Low(high)),
        None => None,
    }
}

/// Reads the second digit of a byte.
fn read_low(high: u8, character: u8, bytes: &mut Vec<u8>) -> Result<Option<Mode>, AllocError>
    ensures next { IfOk result (λ next. IfSome next (λ next. step_by (Mode.Low high) character bytes.old.items ≡ Some (record { mode = next; bytes = bytes.new.items }))) }
    ensures none { IfOk result (λ next. IfNone next (step_by (Mode.Low high) character bytes.old.items ≡ None)) }
{
    match hex_value(character) {
        Some(low) if high < 16 => {
            bytes.push(high * 16 + low)?;
            Ok(Some(Mode::Codes))
        }
        _ => Ok(None),
    }
}

/// The value of a hexadecimal digit.
fn hex_value(character: u8) -> Option<u8>
    ensures value { result ≡ hex_value_spec character }
    ensures small { IfSome result (λ value. value < 16) }
{
    match character {
        b'0'..=b'9' => Some(character - b'0'),
        b'A'..=b'F' => Some(character - b'A' + 10),
        _ => None,
    }
}
