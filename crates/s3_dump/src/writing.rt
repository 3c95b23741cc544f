//! The lines of a dump as they are written: codes, runs of zeros, and notes before them.
ghost use Rattle.std.specs.Prelude.{◌≡◌, ◌≤◌, ◌<◌, ◌+◌, ◌-◌, ◌^◌, ◌++◌, ◌∷◌, ℕ, List, [], decimal, drop, filter, length, replicate, take, Some, true, IfOk, IfSome, OnOk};
ghost use Rattle.s3_dump.specs.Inner.Dumps.{hex_value, most_number, most_zeros, restored};
ghost use Rattle.s3_dump.specs.Inner.Notes.{AddsNotes, digit_of, is_noted, note_line};
ghost use Rattle.s3_dump.specs.Inner.Writing.{AddsBytes, AddsFirst, AddsIndex, AddsLines, AddsNext, IsIndexAt, IsUpTo, Keeps, is_small as is_small_spec, reads};

use crate::index::{IndexLine, index_of};
use crate::reading::{MOST_NUMBER, MOST_ZEROS, Mode};
use s3_cards::{code_of_byte, host_byte};
use std::alloc::{AllocError, Global};

/// A dump as it is written, up to a place of its pack.
#[derive(Drop)]
pub struct Writer<'a> {
    pack: &'a [u8],
    place: usize,
    /// Zeros before the place for which there is no line yet.
    zeros: u64,
    /// The lines.
    pub text: Vec<u8>,
}

impl<'a> Writer<'a> {
    /// At the beginning of a pack.
    #[tactic(auto, using(crate::proofs::WriterLemmas::nothing_yet))]
    pub fn new(alloc: Global, pack: &'a [u8]) -> Writer<'a>
        ensures { IsUpTo pack.now result }
    {
        Writer {
            pack,
            place: 0,
            zeros: 0,
            text: Vec::new(alloc),
        }
    }

    /// The place of the next byte.
    pub fn place(&self) -> usize {
        self.place
    }

    /// The bytes of the pack from a place up to another one; the pack may end before.
    pub fn bytes(&self, from: usize, to: usize) -> &'a [u8] {
        taken(self.pack, from, to)
    }

    /// Writes the bytes up to a place: a note, if there is one, and a line of codes, unless all of them are zeros.
    /// Zeros at their end are joined with those that follow.
    pub fn write_part(&mut self, to: usize, note: &str) -> Result<(), AllocError>
        ensures { OnOk result (Keeps self.old self.new) }
    {
        let bytes = taken(self.pack, self.place, to);
        let used = used_in(bytes);
        self.put_codes(note, &bytes[..used])?;
        self.add_zeros(bytes.len() - used);
        self.place = self.place.saturating_add(bytes.len());
        Ok(())
    }

    /// Writes the bytes up to a place as a line of codes.
    pub fn write_record(&mut self, to: usize) -> Result<(), AllocError>
        ensures { OnOk result (Keeps self.old self.new) }
    {
        let bytes = taken(self.pack, self.place, to);
        self.put_codes("", bytes)?;
        self.place = self.place.saturating_add(bytes.len());
        Ok(())
    }

    /// Writes the bytes after the place as the index of the records before it, with a note, if they are that. Else writes nothing.
    #[tactic(auto, using(crate::proofs::WriterLemmas::keeps_all, crate::proofs::WriterLemmas::keeps_at))]
    pub fn write_index(
        &mut self,
        alloc: Global,
        line: &IndexLine,
        note: &str,
    ) -> Result<(), AllocError>
        ensures { OnOk result (Keeps self.old self.new) }
    {
        match index_at(alloc, self.pack, self.place, line)? {
            Some(long) => self.put_index(line, note, long),
            None => Ok(()),
        }
    }

    /// Writes the line of an index of so many bytes.
    fn put_index(&mut self, line: &IndexLine, note: &str, long: usize) -> Result<(), AllocError>
        requires small { is_small_spec line.now ≡ true }
        ensures { OnOk result (IsIndexAt self.old.pack.now self.old.place line.now long → Keeps self.old self.new) }
    {
        push_zeros(&mut self.text, self.zeros)?;
        push_note(&mut self.text, note.as_bytes())?;
        push_index(&mut self.text, line)?;
        self.zeros = 0;
        self.place = self.place.saturating_add(long);
        Ok(())
    }

    /// Writes a note, after the zeros that have no line yet.
    #[tactic(auto, using(crate::proofs::WriterLemmas::note_kept))]
    pub fn note(&mut self, note: &[u8]) -> Result<(), AllocError>
        ensures keeps { OnOk result (Keeps self.old self.new) }
        ensures note { OnOk result (AddsNotes self.old self.new (note_line note.now)) }
    {
        push_zeros(&mut self.text, self.zeros)?;
        push_note(&mut self.text, note)?;
        self.zeros = 0;
        Ok(())
    }

    /// The lines, with one more for the bytes that have none yet.
    #[tactic(auto, using(crate::proofs::WriterLemmas::all_written))]
    pub fn ended(self) -> Result<Vec<u8>, AllocError>
        ensures { IfOk result (λ text. (pack : List ℕ) → IsUpTo pack self.entry → restored text.items ≡ Some pack) }
    {
        let Writer {
            pack,
            place,
            zeros,
            mut text,
        } = self;
        push_zeros(&mut text, zeros)?;
        push_codes(&mut text, taken(pack, place, pack.len()))?;
        Ok(text)
    }

    /// Writes codes: the zeros that have no line yet, a note, and the codes. Nothing if there are no codes.
    #[tactic(auto, using(crate::proofs::WriterLemmas::no_codes_added, crate::proofs::WriterLemmas::codes_added))]
    fn put_codes(&mut self, note: &str, codes: &[u8]) -> Result<(), AllocError>
        ensures { OnOk result (AddsBytes self.old self.new codes.now) }
    {
        if codes.is_empty() {
            return Ok(());
        }
        push_zeros(&mut self.text, self.zeros)?;
        push_note(&mut self.text, note.as_bytes())?;
        push_codes(&mut self.text, codes)?;
        self.zeros = 0;
        Ok(())
    }

    /// Adds zeros to those that have no line yet.
    #[tactic(auto, using(crate::proofs::WriterLemmas::zeros_added))]
    fn add_zeros(&mut self, count: usize)
        ensures { AddsBytes self.old self.new (replicate count 0) }
    {
        self.zeros = self.zeros.saturating_add(count as u64);
    }
}

/// The bytes of a pack from a place up to another one; none if the other one isn't after it. The pack may end before.
#[tactic(auto, using(crate::proofs::WriterLemmas::none_taken, crate::proofs::WriterLemmas::part_taken))]
fn taken<'a>(pack: &'a [u8], place: usize, to: usize) -> &'a [u8]
    ensures bytes { take (place + length result.now) pack.now ≡ take place pack.now ++ result.now }
    ensures within { place ≤ length pack.now → place + length result.now ≤ length pack.now }
    ensures whole { place ≤ length pack.now → length pack.now ≤ to → place + length result.now ≡ length pack.now }
    ensures short { length pack.now < 2 ^ 64 }
{
    let end = to.min(pack.len());
    if end <= place {
        return &[];
    }
    &pack[place..end]
}

/// How many bytes the index of the records before a place of a pack has; none if the pack has other bytes at the place, if no bytes are
/// the index, or if a number is too high for its line.
#[tactic(auto, using(crate::proofs::WriterLemmas::index_here))]
fn index_at(
    alloc: Global,
    pack: &[u8],
    place: usize,
    line: &IndexLine,
) -> Result<Option<usize>, AllocError>
    ensures small { IfOk result (λ long. IfSome long (λ _. is_small_spec line.now ≡ true)) }
    ensures index { IfOk result (λ long. IfSome long (IsIndexAt pack.now place line.now)) }
{
    if !is_small(line) {
        return Ok(None);
    }
    let Some(index) = index_of(alloc, line, &pack[..place.min(pack.len())])? else {
        return Ok(None);
    };
    let there = taken(pack, place, place.saturating_add(index.len()));
    if !index.is_empty() && index.as_slice() == there {
        Ok(Some(there.len()))
    } else {
        Ok(None)
    }
}

/// Whether no number of a line is too high.
fn is_small(line: &IndexLine) -> bool
    ensures { result ≡ is_small_spec line.now }
{
    line.count <= MOST_NUMBER
        && line.record_length <= MOST_NUMBER
        && line.sectors <= MOST_NUMBER
        && line.key_start <= MOST_NUMBER
        && line.key_length <= MOST_NUMBER
}

/// How many bytes there are up to the last that isn't zero.
#[tactic(auto, using(crate::proofs::WriterLemmas::no_zeros, crate::proofs::WriterLemmas::one_more_zero))]
fn used_in(bytes: &[u8]) -> usize
    ensures within { result ≤ length bytes.now }
    ensures zeros { drop result bytes.now ≡ replicate (length bytes.now - result) 0 }
{
    let mut used = bytes.len();
    while used > 0 && bytes[used - 1] == 0 {
        used -= 1;
    }
    used
}

/// Appends a line for a note; none for an empty text.
#[tactic(auto, using(crate::proofs::WriterLemmas::adds_nothing, crate::proofs::WriterLemmas::note_read, crate::proofs::WriterLemmas::note_begun))]
fn push_note(text: &mut Vec<u8>, note: &[u8]) -> Result<(), AllocError>
    ensures lines { OnOk result (AddsLines text.old.items text.new.items []) }
    ensures note { OnOk result (text.new.items ≡ text.old.items ++ note_line note.now) }
{
    if note.is_empty() {
        return Ok(());
    }
    push(text, b'#')?;
    push(text, b' ')?;
    for byte in note {
        push_noted(text, *byte)?;
    }
    push(text, b'\n')?;
    Ok(())
}

/// Appends a byte of a note; not the end of a line, after which the note would end.
#[tactic(auto, using(crate::proofs::WriterLemmas::one_more_noted))]
fn push_noted(text: &mut Vec<u8>, byte: u8) -> Result<(), AllocError>
    ensures read { OnOk result ((before : List ℕ) → reads text.old.items Mode.Note before → reads text.new.items Mode.Note before) }
    ensures noted { OnOk result (text.new.items ≡ text.old.items ++ filter is_noted (byte ∷ [])) }
{
    if byte == b'\n' {
        return Ok(());
    }
    push(text, byte)?;
    Ok(())
}

/// Appends lines for so many zeros.
#[tactic(auto, using(crate::proofs::WriterLemmas::no_run, crate::proofs::WriterLemmas::one_more_run, crate::proofs::WriterLemmas::all_runs))]
fn push_zeros(text: &mut Vec<u8>, zeros: u64) -> Result<(), AllocError>
    ensures lines { OnOk result (AddsLines text.old.items text.new.items (replicate zeros 0)) }
    ensures none { OnOk result (zeros ≡ 0 → text.new.items ≡ text.old.items) }
{
    let mut left = zeros;
    while left > 0 {
        let count = left.min(MOST_ZEROS);
        push_run(text, count)?;
        left -= count;
    }
    Ok(())
}

/// Appends the line of so many zeros.
#[tactic(auto, using(crate::proofs::WriterLemmas::run_read))]
fn push_run(text: &mut Vec<u8>, count: u64) -> Result<(), AllocError>
    requires { count ≤ most_zeros }
    ensures { OnOk result (AddsLines text.old.items text.new.items (replicate count 0)) }
{
    push(text, b'*')?;
    push_number(text, count)?;
    push(text, b'\n')?;
    Ok(())
}

/// Appends the line of an index.
#[tactic(auto, using(crate::proofs::WriterLemmas::index_read))]
fn push_index(text: &mut Vec<u8>, line: &IndexLine) -> Result<(), AllocError>
    requires small { is_small_spec line.now ≡ true }
    ensures { OnOk result (AddsIndex line.now text.old.items text.new.items) }
{
    push_first(text, line.count)?;
    push_next(text, line.record_length)?;
    push_next(text, line.sectors)?;
    push_next(text, line.key_start)?;
    push_next(text, line.key_length)?;
    push(text, b'\n')
}

/// Appends the beginning of the line of an index, and its first number.
fn push_first(text: &mut Vec<u8>, number: u32) -> Result<(), AllocError>
    requires { number ≤ most_number }
    ensures { OnOk result (AddsFirst number text.old.items text.new.items) }
{
    push(text, b'=')?;
    push_number(text, u64::from(number))?;
    Ok(())
}

/// Appends a blank and the next number of an index.
fn push_next(text: &mut Vec<u8>, number: u32) -> Result<(), AllocError>
    requires { number ≤ most_number }
    ensures { OnOk result (AddsNext number text.old.items text.new.items) }
{
    push(text, b' ')?;
    push_number(text, u64::from(number))?;
    Ok(())
}

/// Appends the decimal digits of a number.
fn push_number(text: &mut Vec<u8>, number: u64) -> Result<(), AllocError>
    ensures { OnOk result (text.new.items ≡ text.old.items ++ decimal number) }
{
    let mut digits = itoa::Buffer::new();
    text.extend_from_slice(digits.format(number).as_bytes())
}

/// Appends a line of codes; none for no bytes.
#[tactic(auto, using(crate::proofs::WriterLemmas::adds_nothing, crate::proofs::WriterLemmas::codes_begun, crate::proofs::WriterLemmas::one_more_code, crate::proofs::WriterLemmas::codes_ended))]
fn push_codes(text: &mut Vec<u8>, bytes: &[u8]) -> Result<(), AllocError>
    ensures { OnOk result (AddsLines text.old.items text.new.items bytes.now) }
{
    if bytes.is_empty() {
        return Ok(());
    }
    push(text, b'[')?;
    for code in bytes {
        push_code(text, *code)?;
    }
    push(text, b']')?;
    push(text, b'\n')?;
    Ok(())
}

/// Appends the character of a code, or its hexadecimal digits after a backslash.
#[tactic(auto, using(crate::proofs::WriterLemmas::character_read, crate::proofs::WriterLemmas::digits_read))]
fn push_code(text: &mut Vec<u8>, code: u8) -> Result<(), AllocError>
    ensures { OnOk result ((before : List ℕ) → reads text.old.items Mode.Codes before → reads text.new.items Mode.Codes (before ++ code ∷ [])) }
{
    let shown = host_byte(code);
    match code_of_byte(shown) {
        Some(same) if same == code => {
            push(text, shown)?;
            Ok(())
        }
        _ => push_digits(text, code),
    }
}

/// Appends the hexadecimal digits of a byte after a backslash.
#[tactic(auto, using(crate::proofs::WriterLemmas::digits_read))]
fn push_digits(text: &mut Vec<u8>, byte: u8) -> Result<(), AllocError>
    ensures { OnOk result ((before : List ℕ) → reads text.old.items Mode.Codes before → reads text.new.items Mode.Codes (before ++ byte ∷ [])) }
{
    push(text, b'\\')?;
    push(text, digit(byte / 16))?;
    push(text, digit(byte % 16))
}

fn push(text: &mut Vec<u8>, byte: u8) -> Result<(), AllocError>
    ensures { OnOk result (text.new.items ≡ text.old.items ++ byte ∷ []) }
{
    text.push(byte)?;
    Ok(())
}

/// The hexadecimal digit of a number below 16.
#[tactic(auto, using(crate::proofs::WriterLemmas::low_digit, crate::proofs::WriterLemmas::high_digit))]
pub fn digit(number: u8) -> u8
    requires { number < 16 }
    ensures value { hex_value result ≡ Some number }
    ensures digit { result ≡ digit_of number }
{
    if number < 10 {
        b'0' + number
    } else {
        b'A' + (number - 10)
    }
}
