//! The 64 bytes of a slot, put together from its fields.
ghost use Rattle.std.specs.Prelude.{◌≡◌, ◌≤◌, ◌+◌, ◌++◌, ℕ, List, [], length, take};
ghost use Rattle.byteorder.specs.Endian.{big_bytes};
ghost use Rattle.s3_slots.specs.Inner.Labels.{organization_code as organization_code_spec, retention_code as retention_code_spec, extent_bytes, extent_at as extent_at_spec, label_bytes};

use crate::label::{FileLabel, Organization};
use byteorder::{BigEndian, ByteOrder};
use s3_cards::Retention;
use s3_cards::ebcdic::{LETTER_D, LETTER_I, LETTER_P, LETTER_S, LETTER_T};
use s3_store::{Extents, Stretch};
use std::marker::Model;

/// The bytes of a slot as far as they have been put together.
#[derive(Drop)]
struct SlotBytes {
    bytes: [u8; 64],
    count: usize,
}

impl Model for SlotBytes {
    ghost Value = { List ℕ };

    ghost view = { λ s. take s.count s.bytes };

    ghost invariant = { λ s. s.count ≤ 64 };
}

impl SlotBytes {
    /// A slot of which no byte is put yet.
    fn new() -> Self
        ensures { result ≡ [] }
    {
        SlotBytes {
            bytes: [0; 64],
            count: 0,
        }
    }

    /// Puts these bytes after the others.
    fn push(&mut self, part: &[u8])
        requires { length self.old + length part.now ≤ 64 }
        ensures bytes { self.new ≡ self.old ++ part.now }
        ensures count { length self.new ≡ length self.old + length part.now }
    {
        self.bytes[self.count..self.count + part.len()].copy_from_slice(part);
        self.count += part.len();
    }

    /// Puts a number of two bytes after the others.
    fn push_u16(&mut self, n: u16)
        requires { length self.old + 2 ≤ 64 }
        ensures bytes { self.new ≡ self.old ++ big_bytes 2 n }
        ensures count { length self.new ≡ length self.old + 2 }
    {
        let mut bytes = [0; 2];
        BigEndian::write_u16(&mut bytes, n);
        self.push(&bytes);
    }

    /// Puts a number of four bytes after the others.
    fn push_u32(&mut self, n: u32)
        requires { length self.old + 4 ≤ 64 }
        ensures bytes { self.new ≡ self.old ++ big_bytes 4 n }
        ensures count { length self.new ≡ length self.old + 4 }
    {
        let mut bytes = [0; 4];
        BigEndian::write_u32(&mut bytes, n);
        self.push(&bytes);
    }

    /// Puts start and length of a run of sectors after the other bytes.
    #[tactic(auto, using(std::proofs::Common::append_assoc))]
    fn push_stretch(&mut self, stretch: Stretch)
        requires { length self.old + 4 ≤ 64 }
        ensures bytes { self.new ≡ self.old ++ extent_bytes stretch }
        ensures count { length self.new ≡ length self.old + 4 }
    {
        self.push_u16(stretch.start);
        self.push_u16(stretch.sectors);
    }

    /// The 64 bytes of the slot.
    fn finish(self) -> [u8; 64]
        requires { length self ≡ 64 }
        ensures { result ≡ self }
    {
        let SlotBytes { bytes, count: _ } = self;
        bytes
    }
}

/// The code of an organization.
fn organization_code(organization: Organization) -> u8
    ensures { result ≡ organization_code_spec organization }
{
    match organization {
        Organization::Sequential => LETTER_S,
        Organization::Indexed => LETTER_I,
        Organization::Direct => LETTER_D,
    }
}

/// The code of a retention.
fn retention_code(retention: Retention) -> u8
    ensures { result ≡ retention_code_spec retention }
{
    match retention {
        Retention::Temporary => LETTER_T,
        Retention::Scratch => LETTER_S,
        Retention::Permanent => LETTER_P,
    }
}

/// An extent of a file, by its place among them; nothing after the last one.
fn extent_at(extents: &Extents, i: usize) -> Stretch
    ensures { result ≡ extent_at_spec extents.now i }
{
    match extents.as_slice().get(i) {
        Some(extent) => *extent,
        None => Stretch {
            start: 0,
            sectors: 0,
        },
    }
}

/// The 64 bytes of the slot of a label (docs/PACK.md, "Its sectors").
#[tactic(auto, unfolding(crate::specs::Inner::Labels::label_bytes))]
pub fn bytes_of(label: &FileLabel) -> [u8; 64]
    ensures { result ≡ label_bytes label.now }
{
    let mut slot = SlotBytes::new();
    slot.push(&[1]);
    slot.push(&label.name.codes);
    slot.push(&[
        organization_code(label.organization),
        retention_code(label.retention),
    ]);
    slot.push_u16(label.record_length);
    slot.push(&[label.key_length]);
    slot.push_u16(label.key_start);
    slot.push_stretch(extent_at(&label.extents, 0));
    slot.push_u32(label.capacity);
    slot.push_u32(label.count);
    slot.push(&label.date);
    slot.push_stretch(extent_at(&label.extents, 1));
    slot.push_stretch(extent_at(&label.extents, 2));
    slot.push_stretch(extent_at(&label.extents, 3));
    slot.push(&[0; 18]);
    slot.finish()
}
