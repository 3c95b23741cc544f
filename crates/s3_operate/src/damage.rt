//! Damaged labels of a day's pack.

use s3_cards::LevelId;
use s3_host_files::shown_name;
use s3_labels::{Area, AreaSlots};
use s3_pack_check::first_damaged;
use s3_refusals::{Quoted, Shown};
use std::io::Write;

/// Reports the first damaged label of each level of a day's pack: a job that makes a file may write over the records of that label's
/// file.
pub fn report_damage(rt: &HostRuntime, pack: &str, areas: &AreaSlots) {
    for level in [LevelId::One, LevelId::Two] {
        if let Some(slot) = first_damaged(areas, Area::Level(level)) {
            let level = level.number();
            let (shown, pack) = (Shown(shown_name(pack)), Quoted(pack));
            let _ = writeln!(
                rt.stderr(),
                "level {level} of {shown} has a damaged label, in slot {slot}, and a job that makes a file may write over its records; `bureau check --pack {pack}` says what is wrong"
            );
        }
    }
}
