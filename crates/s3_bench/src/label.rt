//! The label of a file over the whole store.
ghost use Rattle.std.specs.Prelude.{◌≡◌, ◌≤◌, ℕ, List, length};
ghost use Rattle.s3_slots.specs.Labels.{sectors_of};
ghost use Rattle.s3_files.specs.Inner.Files.{HasRoom, AreStored};
ghost use Rattle.s3_keyed.specs.Inner.Index.{HasIndex};

use s3_cards::ebcdic::BLANK;
use s3_cards::{Name, Retention};
use s3_slots::{FileLabel, Organization};
use s3_store::{Extents, Stretch};

/// How many sectors the store has.
pub const SECTORS: u16 = 24_000;
/// How long a record is, in bytes.
pub const LENGTH: usize = 96;

/// The label of a file of records of 96 bytes, with a key in the first 6, over the whole store.
pub fn label_of(organization: Organization, capacity: u32, count: u32) -> FileLabel
    requires few { capacity ≤ 60000 }
    requires counted { count ≤ capacity }
    ensures room { HasRoom result }
    ensures index { capacity ≤ 55000 → HasIndex result }
    ensures stored { (contents : List (List ℕ)) → 24000 ≤ length contents → AreStored (sectors_of result) contents }
    ensures record_length { result.record_length ≡ 96 }
    ensures key_length { result.key_length ≡ 6 }
    ensures capacity { result.capacity ≡ capacity }
    ensures count { result.count ≡ count }
{
    FileLabel {
        name: Name::of(&[0xc1]),
        organization,
        retention: Retention::Temporary,
        record_length: LENGTH as u16,
        key_length: 6,
        key_start: 1,
        extents: Extents::of(&[Stretch {
            start: 0,
            sectors: SECTORS,
        }]),
        capacity,
        count,
        date: [BLANK; 6],
    }
}
