//! Record identification codes: tested on the bytes of a record, and put into them.
ghost use Rattle.std.specs.Prelude.{◌≡◌, ◌-◌, ◌<◌, ◌^◌, length, slice_index};
ghost use Rattle.std.specs.List.{list_all};
ghost use Rattle.s3_meaning.specs.Selection as meaning;
ghost use Rattle.s3_record_types.specs.Inner.Codes.{byte_with, with_code, with_codes};

use s3_cards::ebcdic::{AMPERSAND, BLANK, MINUS};
use s3_lines::sheet::{CodePart, RecordCode};

/// The zone of a code's character.
fn zone_of(character: u8) -> u8
    ensures zone { result ≡ meaning.zone_of character }
    ensures within { result < 16 }
{
    if character == AMPERSAND {
        0xc
    } else if character == MINUS {
        0xd
    } else if character == BLANK {
        0xf
    } else {
        character / 16
    }
}

/// Whether a byte has the zone: its own, or the zone that it has as a character of a code.
fn has_zone(byte: u8, zone: u8) -> bool
    ensures { result ≡ meaning.has_zone byte zone }
{
    byte / 16 == zone || zone_of(byte) == zone
}

fn part_holds(part: CodePart, character: u8, byte: u8) -> bool
    ensures { result ≡ meaning.part_holds part character byte }
{
    match part {
        CodePart::Character => byte == character,
        CodePart::Zone => has_zone(byte, zone_of(character)),
        CodePart::Digit => byte % 16 == character % 16,
    }
}

/// The byte at a position, from 1; 0 outside of the record.
pub fn byte_at(bytes: &[u8], position: u16) -> u8
    ensures { result ≡ slice_index bytes.now (position - 1) }
{
    let place = usize::from(position.saturating_sub(1));
    if place < bytes.len() { bytes[place] } else { 0 }
}

/// Whether a record has a code.
pub fn code_holds(bytes: &[u8], code: &RecordCode) -> bool
    ensures { result ≡ meaning.code_holds bytes.now code.now }
{
    let is_same = part_holds(code.part, code.character, byte_at(bytes, code.position));
    if code.negated { !is_same } else { is_same }
}

/// Whether a record has all of some codes.
pub fn codes_hold(bytes: &[u8], codes: &[RecordCode]) -> bool
    ensures { result ≡ list_all (meaning.code_holds bytes.now) codes.now }
{
    codes.iter().all(|code| code_holds(bytes, code))
}

/// A byte that gets the part of a character; a blank becomes the character.
#[tactic(auto, using(crate::proofs::PutLemmas::kept_byte, crate::proofs::PutLemmas::kept_zone))]
fn with_part_of(part: CodePart, character: u8, byte: u8) -> u8
    ensures { result ≡ byte_with part character byte }
{
    if byte == BLANK {
        return character;
    }
    match part {
        CodePart::Character => character,
        CodePart::Zone => zone_of(character) * 16 + byte % 16,
        CodePart::Digit => byte / 16 * 16 + character % 16,
    }
}

/// Puts a code into a record. One that is negated, or lies outside of the record, changes nothing.
fn put_code(bytes: &mut [u8], code: &RecordCode)
    ensures { bytes.new ≡ with_code bytes.old code.now }
{
    let place = usize::from(code.position.saturating_sub(1));
    if !code.negated && place < bytes.len() {
        bytes[place] = with_part_of(code.part, code.character, bytes[place]);
    }
}

/// Puts codes into a record, one after another.
#[tactic(auto, using(crate::proofs::PutLemmas::one_more_code))]
pub fn put_codes(bytes: &mut [u8], codes: &[RecordCode])
    ensures { bytes.new ≡ with_codes bytes.old codes.now }
{
    for code in codes {
        put_code(bytes, code);
    }
}
