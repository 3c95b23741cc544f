//! Why a slot is damaged.
ghost use Rattle.std.specs.Prelude.{◌≡◌, ◌≤◌, ◌&&◌, drop, nat_le};
ghost use Rattle.byteorder.specs.Endian.{big_number};
ghost use Rattle.std.specs.Prelude.{is_some};
ghost use Rattle.s3_slots.specs.Labels.{retention_by as retention_spec};
ghost use Rattle.s3_pack_check.specs.Inner.Damages.{damage_of as damage_spec, field_damage as field_spec, number_damage as number_spec, room_damage as room_spec, is_damaged as is_damaged_spec, unless as unless_spec};

use byteorder::{BigEndian, ByteOrder};
use s3_cards::{Name, is_name};
use s3_labels::{Format, Organization, Slot};
use s3_slots::{is_count_of, is_key_of, judge, organization_by, place_of, retention_by};
use s3_store::Stretch;
use thiserror::Error;

/// Why the label of a slot can't be used: the first of these reasons that applies.
#[derive(Clone, Copy, Debug, Error)]
pub enum Damage {
    /// The slot's first byte isn't 0 or 1.
    #[error("its first byte is neither 0, for a free slot, nor 1, for a used one")]
    Mark,
    /// The label isn't a name.
    #[error("its label isn't a name")]
    Name,
    /// The organization is none.
    #[error("its organization is none of S, I and D")]
    Organization,
    /// The retention is none.
    #[error("its retention is none of T, S and P")]
    Retention,
    /// The record length isn't 1 to 1,024.
    #[error("its record length isn't 1 to 1024")]
    RecordLength,
    /// The key isn't 1 to 29 bytes of the record, or there is one if there is no index.
    #[error("its key isn't 1 to 29 bytes of the record, or it has one without an index")]
    Key,
    /// The capacity is 0.
    #[error("it has room for no record")]
    Capacity,
    /// The count is above the capacity, or of a direct file another one.
    #[error("its count of records doesn't fit the room that it has")]
    Count,
    /// The extents aren't one to four runs of whole tracks of the area's region, apart from one another, with room for the records.
    #[error("its extents aren't whole tracks of its area with room for its records")]
    Extents,
    /// A sound slot before it has the same label.
    #[error("a slot before it has the same label")]
    SameLabel,
    /// A sound slot before it has sectors of its extents.
    #[error("it overlaps the file of a slot before it")]
    Overlap,
}

/// Whether a code is the code of a retention.
fn is_retention(code: u8) -> bool
    ensures { result ≡ is_some (retention_spec code) }
{
    retention_by(code).is_some()
}

/// Whether records may be so long.
fn is_record_length(length: u16) -> bool
    ensures { result ≡ (nat_le 1 length && nat_le length 1024) }
{
    1 <= length && length <= 1024
}

/// Whether a file may have room for so many records.
fn is_capacity(capacity: u32) -> bool
    ensures { result ≡ nat_le 1 capacity }
{
    1 <= capacity
}

/// The damage of a test that isn't passed, else `behind`.
fn unless(passed: bool, damage: Damage, behind: Option<Damage>) -> Option<Damage>
    ensures { result ≡ unless_spec passed damage behind }
{
    if passed { behind } else { Some(damage) }
}

/// The number in two bytes of a slot.
fn half_at(bytes: &[u8; 64], at: usize) -> u16
    requires { at ≤ 62 }
    ensures { result ≡ big_number 2 (drop at bytes.now) }
{
    BigEndian::read_u16(&bytes[at..])
}

/// The number in four bytes of a slot.
fn word_at(bytes: &[u8; 64], at: usize) -> u32
    requires { at ≤ 60 }
    ensures { result ≡ big_number 4 (drop at bytes.now) }
{
    BigEndian::read_u32(&bytes[at..])
}

/// What is wrong with the numbers of a label, except for its extents.
fn number_damage(organization: Organization, bytes: &[u8; 64]) -> Option<Damage>
    ensures { result ≡ number_spec organization bytes.now }
{
    let record_length = half_at(bytes, 11);
    let key_start = half_at(bytes, 14);
    let capacity = word_at(bytes, 20);
    let count = word_at(bytes, 24);
    let is_key = is_key_of(organization, record_length, bytes[13], key_start);
    let is_count = is_count_of(organization, capacity, count);
    let by_count = unless(is_count, Damage::Count, None);
    let by_capacity = unless(is_capacity(capacity), Damage::Capacity, by_count);
    let by_key = unless(is_key, Damage::Key, by_capacity);
    unless(
        is_record_length(record_length),
        Damage::RecordLength,
        by_key,
    )
}

/// What is wrong with the fields of a label, except for its extents.
fn field_damage(bytes: &[u8; 64]) -> Option<Damage>
    ensures { result ≡ field_spec bytes.now }
{
    if bytes[0] != 1 {
        return Some(Damage::Mark);
    }
    if !is_name(&bytes[1..9]) {
        return Some(Damage::Name);
    }
    let Some(organization) = organization_by(bytes[9]) else {
        return Some(Damage::Organization);
    };
    if !is_retention(bytes[10]) {
        return Some(Damage::Retention);
    }
    number_damage(organization, bytes)
}

/// Whether a slot is damaged.
pub fn is_damaged(slot: &Slot) -> bool
    ensures { result ≡ is_damaged_spec slot.now }
{
    match slot {
        Slot::Damaged(_) => true,
        Slot::Free | Slot::Sound(_) => false,
    }
}

/// What is wrong with a label whose fields are in range.
fn room_damage(
    format: Format,
    region: Stretch,
    name: Option<Name>,
    earlier: &[Slot],
    bytes: &[u8; 64],
) -> Damage
    ensures { result ≡ room_spec format region name earlier.now bytes.now }
{
    if is_damaged(&judge(format, region, &[], bytes)) {
        return Damage::Extents;
    }
    match name {
        Some(name) if place_of(name, earlier).is_some() => Damage::SameLabel,
        _ => Damage::Overlap,
    }
}

/// The reason of a damaged slot of an area, by its 64 bytes and the slots before it (docs/PACK_CARE.md, "What is damaged and
/// why").
#[tactic(auto, unfolding(crate::specs::Inner::Damages::damage_of))]
pub fn damage_of(
    format: Format,
    region: Stretch,
    name: Option<Name>,
    earlier: &[Slot],
    bytes: &[u8; 64],
) -> Damage
    ensures { result ≡ damage_spec format region name earlier.now bytes.now }
{
    match field_damage(bytes) {
        Some(damage) => damage,
        None => room_damage(format, region, name, earlier, bytes),
    }
}
