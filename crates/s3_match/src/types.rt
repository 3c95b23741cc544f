//! Finds the type of a record by its codes.

ghost use Rattle.std.specs.Prelude.{ℕ, List, ◌≡◌, ◌-◌, ◌<◌, ◌≤◌, length, drop, slice_index, option_map, None, IsTrue, IfSome};
ghost use Rattle.std.specs.List.{list_all};
ghost use Rattle.s3_meaning.specs.Selection as meaning;
ghost use Rattle.s3_program.specs.Inner.Stands.{source_named};
ghost use Rattle.s3_program.specs.Inner.Starts.{types_of_file, type_starts};
ghost use Rattle.s3_match.specs.Inner.Types as spec;

use s3_cards::ebcdic::{AMPERSAND, BLANK, MINUS};
use s3_lines::sheet::{CodePart, InputLine, RecordCode};
use s3_program::program::{Program, Reference};
use s3_program::starts::TypeStart;

/// The zone of a code's character.
fn zone_of(character: u8) -> u8
    ensures { result ≡ meaning.zone_of character }
{
    if character == AMPERSAND {
        0xc
    } else if character == MINUS {
        0xd
    } else if character == BLANK {
        0xf
    } else {
        character / 16
    }
}

/// Whether a record's byte has the zone, by itself or as the character that it represents.
fn has_zone(byte: u8, zone: u8) -> bool
    ensures { result ≡ meaning.has_zone byte zone }
{
    byte / 16 == zone || zone_of(byte) == zone
}

fn part_holds(part: CodePart, character: u8, byte: u8) -> bool
    ensures { result ≡ meaning.part_holds part character byte }
{
    match part {
        CodePart::Character => byte == character,
        CodePart::Zone => has_zone(byte, zone_of(character)),
        CodePart::Digit => byte % 16 == character % 16,
    }
}

/// The byte at a position, counted from 1.
fn byte_at(bytes: &[u8], position: u16) -> u8
    ensures { result ≡ slice_index bytes.now (position - 1) }
{
    let place = position.saturating_sub(1) as usize;
    if place < bytes.len() { bytes[place] } else { 0 }
}

fn code_holds(bytes: &[u8], code: &RecordCode) -> bool
    ensures { result ≡ meaning.code_holds bytes.now code.now }
{
    let is_same = part_holds(code.part, code.character, byte_at(bytes, code.position));
    if code.negated { !is_same } else { is_same }
}

/// A blank entry holds.
fn entry_holds(bytes: &[u8], entry: &Option<RecordCode>) -> bool
    ensures { result ≡ spec.entry_holds bytes.now entry.now }
{
    match entry {
        Some(code) => code_holds(bytes, code),
        None => true,
    }
}

#[inline(always)]
fn entries_hold(bytes: &[u8], entries: &[Option<RecordCode>]) -> bool
    ensures { result ≡ list_all (spec.entry_holds bytes.now) entries.now }
{
    entries.iter().all(|entry| entry_holds(bytes, entry))
}

/// Whether the codes of an AND line hold; any other line has none of the type above.
fn further_codes_hold(bytes: &[u8], line: &InputLine<Reference>) -> Option<bool>
    ensures { result ≡ spec.further_codes_hold bytes.now line.now }
{
    match line {
        InputLine::And(codes) => Some(entries_hold(bytes, codes)),
        InputLine::Record(..) | InputLine::Or(..) | InputLine::Field(_) => None,
    }
}

/// Whether the codes of the AND lines from there on hold.
#[inline(never)]
fn and_lines_hold(inputs: &[InputLine<Reference>], from: usize, bytes: &[u8]) -> bool
    requires { from ≤ length inputs.now }
    ensures { result ≡ spec.further_hold bytes.now (drop from inputs.now) }
{
    for place in from..inputs.len() {
        let Some(holds) = further_codes_hold(bytes, &inputs[place]) else {
            return true;
        };
        if !holds {
            return false;
        }
    }
    true
}

/// Whether a type starts at the line, and its codes there hold.
fn first_codes_hold(bytes: &[u8], line: &InputLine<Reference>) -> bool
    ensures { result ≡ spec.first_codes_hold bytes.now line.now }
{
    match line {
        InputLine::Record(_, _, codes) => entries_hold(bytes, codes),
        InputLine::Or(_, codes) => entries_hold(bytes, codes),
        InputLine::And(_) | InputLine::Field(_) => false,
    }
}

/// Whether the codes of a type end before the line.
fn ends_codes(line: &InputLine<Reference>) -> bool
    ensures { (bytes : List ℕ) → IsTrue result → spec.further_codes_hold bytes line.now ≡ None }
{
    match line {
        InputLine::And(_) => false,
        InputLine::Record(..) | InputLine::Or(..) | InputLine::Field(_) => true,
    }
}

/// Whether there is no AND line.
#[inline(always)]
fn has_no_further(inputs: &[InputLine<Reference>], place: usize) -> bool
    ensures { (bytes : List ℕ) → IsTrue result → IsTrue (spec.further_hold bytes (drop place inputs.now)) }
{
    if place >= inputs.len() {
        return true;
    }
    ends_codes(&inputs[place])
}

/// Whether the codes of the AND lines from there on hold; mostly there are none.
fn further_hold(inputs: &[InputLine<Reference>], from: usize, bytes: &[u8]) -> bool
    requires { from ≤ length inputs.now }
    ensures { result ≡ spec.further_hold bytes.now (drop from inputs.now) }
{
    has_no_further(inputs, from) || and_lines_hold(inputs, from, bytes)
}

/// Whether a type starts there all of whose codes hold.
fn type_holds(inputs: &[InputLine<Reference>], place: usize, bytes: &[u8]) -> bool
    ensures { result ≡ spec.type_holds bytes.now (drop place inputs.now) }
{
    if place >= inputs.len() {
        return false;
    }
    first_codes_hold(bytes, &inputs[place]) && further_hold(inputs, place + 1, bytes)
}

fn first_that_holds(
    starts: &[TypeStart],
    inputs: &[InputLine<Reference>],
    bytes: &[u8],
) -> Option<TypeStart>
    ensures { result ≡ spec.first_that_holds bytes.now inputs.now starts.now }
{
    for start in starts {
        if type_holds(inputs, start.place, bytes) {
            return Some(*start);
        }
    }
    None
}

/// Whether none of a line's entries has a code.
fn are_blank(entries: &[Option<RecordCode>; 3]) -> bool
    ensures { (bytes : List ℕ) → IsTrue result → IsTrue (list_all (spec.entry_holds bytes) entries.now) }
{
    matches!(entries, [None, None, None])
}

/// Whether the line is a record line without a code.
fn starts_without_codes(line: &InputLine<Reference>) -> bool
    ensures { (bytes : List ℕ) → IsTrue result → IsTrue (spec.first_codes_hold bytes line.now) }
{
    match line {
        InputLine::Record(_, _, codes) => are_blank(codes),
        InputLine::And(_) | InputLine::Or(..) | InputLine::Field(_) => false,
    }
}

/// Whether a type without codes starts there, so that any record is of it.
fn has_no_codes(inputs: &[InputLine<Reference>], place: usize) -> bool
    ensures { (bytes : List ℕ) → IsTrue result → IsTrue (spec.type_holds bytes (drop place inputs.now)) }
{
    if place >= inputs.len() {
        return false;
    }
    starts_without_codes(&inputs[place]) && has_no_further(inputs, place + 1)
}

/// The first type of a file all of whose codes hold, by a look at the codes of each.
#[inline(never)]
fn type_by_codes(program: &Program, file: usize, bytes: &[u8]) -> Option<TypeStart>
    requires { file < length program.now.files.items }
    ensures { result ≡ spec.first_that_holds bytes.now program.now.inputs.items (types_of_file (type_starts program.now.files.items program.now.inputs.items) file) }
{
    first_that_holds(&program.starts.types[file], &program.inputs, bytes)
}

/// The type of each record of a file, if its first type has no codes.
pub(crate) fn only_type(program: &Program, file: usize) -> Option<TypeStart>
    requires { file < length program.now.files.items }
    ensures { spec.IsOnlyType program.now file result }
{
    let starts: &[TypeStart] = &program.starts.types[file];
    if !starts.is_empty() && has_no_codes(&program.inputs, starts[0].place) {
        Some(starts[0])
    } else {
        None
    }
}

/// The first type of a file all of whose codes hold of a record.
pub(crate) fn type_of(program: &Program, file: usize, bytes: &[u8]) -> Option<TypeStart>
    requires { file < length program.now.files.items }
    ensures found { option_map (spec.kind_at program.now) result ≡ meaning.type_of (source_named program.now) (spec.name_of_file program.now file) bytes.now }
    ensures starts { IfSome result (λ start. IsTrue (spec.is_type_start program.now start)) }
{
    type_by_codes(program, file, bytes)
}
