//! The label of a small file.
ghost use Rattle.std.specs.Prelude.{◌≡◌, ◌≤◌, ℕ, List, length};
ghost use Rattle.s3_slots.specs.Labels.{sectors_of};
ghost use Rattle.s3_files.specs.Inner.Files.{AreStored, HasRoom};
ghost use Rattle.s3_keyed.specs.Inner.Index.{HasIndex};

use s3_cards::ebcdic::BLANK;
use s3_cards::{Name, Retention};
use s3_slots::{FileLabel, Organization};
use s3_store::{Extents, Stretch};

/// How many sectors the file has.
pub const SECTORS: u16 = 2;
/// How long a record is, in bytes.
pub const LENGTH: usize = 16;
/// How many records fit.
pub const ROOM: u32 = 4;

/// The label of a file with room for four records of 16 bytes, of which it has so many. The key is the first two bytes of each.
#[tactic(auto, using(crate::proofs::SmallFile::run_index, crate::proofs::SmallFile::run_stored))]
pub fn label_of(organization: Organization, count: u32) -> FileLabel
    requires { count ≤ 4 }
    ensures room { HasRoom result }
    ensures index { HasIndex result }
    ensures stored { (contents : List (List ℕ)) → 2 ≤ length contents → AreStored (sectors_of result) contents }
    ensures record_length { result.record_length ≡ 16 }
    ensures key_length { result.key_length ≡ 2 }
    ensures capacity { result.capacity ≡ 4 }
    ensures count { result.count ≡ count }
{
    FileLabel {
        name: Name::of(&[0xc1]),
        organization,
        retention: Retention::Temporary,
        record_length: LENGTH as u16,
        key_length: 2,
        key_start: 1,
        extents: Extents::of(&[Stretch {
            start: 0,
            sectors: SECTORS,
        }]),
        capacity: ROOM,
        count,
        date: [BLANK; 6],
    }
}
