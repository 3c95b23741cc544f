//! The label of a file.
ghost use Rattle.std.specs.Prelude.{◌≡◌, ◌≤◌, length};
ghost use Rattle.s3_slots.specs.Labels.{organization_by as organization_spec, retention_by as retention_spec, name_in as name_spec, is_unused as is_unused_spec, used_count as used_count_spec, extents_in as extents_spec, label_in as label_spec};

use crate::header::{Format, stretch_at};
use byteorder::{BigEndian, ByteOrder};
use s3_cards::ebcdic::{LETTER_D, LETTER_I, LETTER_P, LETTER_S, LETTER_T};
use s3_cards::{Name, Retention, is_name};
use s3_store::{Extents, Stretch};

/// How the records of a file are found.
#[derive(Clone, Copy)]
pub enum Organization {
    /// Sequential, S: one after another.
    Sequential,
    /// Indexed, I: by their keys.
    Indexed,
    /// Direct, D: by their numbers.
    Direct,
}

/// The label of a file on a pack (docs/PACK.md, "Its sectors").
#[derive(Drop)]
pub struct FileLabel {
    /// The label itself, by which OCL names the file.
    pub name: Name,
    /// How the file's records are found.
    pub organization: Organization,
    /// How long the file is kept.
    pub retention: Retention,
    /// The length of each record in bytes, 1 to 1,024 in a sound label.
    pub record_length: u16,
    /// The length of a key in bytes, 1 to 29 in a sound label; 0 if the file has no index.
    pub key_length: u8,
    /// The first byte of the key in a record, from 1; 0 if the file has no index.
    pub key_start: u16,
    /// The runs of sectors of the file, one to four.
    pub extents: Extents,
    /// The number of records for which the file has space, at least 1 in a sound label.
    pub capacity: u32,
    /// How many records the file has, as the last job that closed it left it.
    pub count: u32,
    /// The date of the file's making, mmddyy, in EBCDIC.
    pub date: [u8; 6],
}

impl FileLabel {
    /// A copy of the label.
    pub fn copied(&self) -> Self
        ensures { result ≡ self.now }
    {
        FileLabel {
            name: self.name,
            organization: self.organization,
            retention: self.retention,
            record_length: self.record_length,
            key_length: self.key_length,
            key_start: self.key_start,
            extents: self.extents.copied(),
            capacity: self.capacity,
            count: self.count,
            date: self.date,
        }
    }
}

/// The organization of a code.
pub fn organization_by(code: u8) -> Option<Organization>
    ensures { result ≡ organization_spec code }
{
    if code == LETTER_S {
        Some(Organization::Sequential)
    } else if code == LETTER_I {
        Some(Organization::Indexed)
    } else if code == LETTER_D {
        Some(Organization::Direct)
    } else {
        None
    }
}

/// The retention of a code.
pub fn retention_by(code: u8) -> Option<Retention>
    ensures { result ≡ retention_spec code }
{
    if code == LETTER_T {
        Some(Retention::Temporary)
    } else if code == LETTER_S {
        Some(Retention::Scratch)
    } else if code == LETTER_P {
        Some(Retention::Permanent)
    } else {
        None
    }
}

/// The name in the bytes of a slot.
pub fn name_in(bytes: &[u8]) -> Option<Name>
    requires { 64 ≤ length bytes.now }
    ensures { result ≡ name_spec bytes.now }
{
    let mut codes = [0; 8];
    codes.copy_from_slice(&bytes[1..9]);
    if is_name(&codes) {
        Some(Name { codes })
    } else {
        None
    }
}

/// Whether an extent isn't used.
fn is_unused(stretch: Stretch) -> bool
    ensures { result ≡ is_unused_spec stretch }
{
    stretch.start == 0 && stretch.sectors == 0
}

/// How many extents there are up to the last one that is used.
fn used_count(stretches: &[Stretch]) -> usize
    ensures value { result ≡ used_count_spec stretches.now }
    ensures within { result ≤ length stretches.now }
{
    match stretches.split_first() {
        None => 0,
        Some((first, rest)) => {
            let count = used_count(rest);
            if count == 0 && is_unused(*first) {
                0
            } else {
                count + 1
            }
        }
    }
}

/// The extents in the bytes of a slot.
fn extents_in(format: Format, bytes: &[u8]) -> Extents
    requires { 64 ≤ length bytes.now }
    ensures { result ≡ extents_spec format bytes.now }
{
    match format {
        Format::First => {
            let all = [stretch_at(16, bytes)];
            Extents::of(&all[..used_count(&all)])
        }
        Format::Second => {
            let all = [
                stretch_at(16, bytes),
                stretch_at(34, bytes),
                stretch_at(38, bytes),
                stretch_at(42, bytes),
            ];
            Extents::of(&all[..used_count(&all)])
        }
    }
}

/// The label in the bytes of a slot.
pub fn label_in(format: Format, bytes: &[u8]) -> Option<FileLabel>
    requires { 64 ≤ length bytes.now }
    ensures { result ≡ label_spec format bytes.now }
{
    let name = name_in(bytes)?;
    let organization = organization_by(bytes[9])?;
    let retention = retention_by(bytes[10])?;
    let mut date = [0; 6];
    date.copy_from_slice(&bytes[28..34]);
    Some(FileLabel {
        name,
        organization,
        retention,
        record_length: BigEndian::read_u16(&bytes[11..]),
        key_length: bytes[13],
        key_start: BigEndian::read_u16(&bytes[14..]),
        extents: extents_in(format, bytes),
        capacity: BigEndian::read_u32(&bytes[20..]),
        count: BigEndian::read_u32(&bytes[24..]),
        date,
    })
}
