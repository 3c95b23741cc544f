//! The bureau: two levels that take turns over one pack, and the run of a script over it, from bytes to bytes.
//!
//! No call has a condition: what a bureau keeps is its invariant. The reference model of `s3_solo` says what a level does, and
//! which worlds a bureau holds for a level by specs/Inner/Held.antt.
//!
//! Proved of `Bureau`, for every world that is held:
//! - `open`: each level holds its world at the start, and nothing is written; it is refused by the header alone, or for memory or
//!   a device (`refused`), with the store's contents as they were (`back`);
//! - `step`: if it answers `Ok`, each world of the entry's level takes that entry, with that answer (`own`), and the worlds
//!   that are held for the other level are the same before and after (`other`, `no_other`); whatever it answers, the other level
//!   with its queue and its slots stays (`stays`, `spares`), and so do the sectors of the header, the masters and the other
//!   level, and those that nobody uses, in the store as far as it had them in step (`unchanged`); an entry that is idle or
//!   refused leaves the pack, the queues and the store as they are (`quiet`);
//! - `step` stops only if the entry acts in each world held (`memory`); the drained lines stay then (`lines`), and a failed
//!   transfer is counted exactly if it answers `Device` (`failures`); labels that say a level's slots still do (`said`), as
//!   they do at the opening if no label overlaps or is a duplicate;
//! - `repeat`: an entry so many times, at least once and no more often than asked, each time with that answer (`own`, `times`),
//!   and all else as for `step`;
//! - `finish`: if it answers `Ok`, each world is closed (`closes`), the store has what the pool has (`flushed`), and a mount
//!   of it judges the slots as the worlds have them (`mounts`), and none overlapping or duplicate (`untangled`), if the labels said them;
//!   whatever it answers, the sectors of the header, of the masters and those that nobody uses stay, and those of a level without a
//!   job at work (`unchanged`, `rest`); memory runs out only if a job is at work or a line is queued (`memory`);
//! - `level` lends a level, which holds what the bureau holds for it, for what is asked of it; `queued` is how many of its printed
//!   lines are queued (`world`); `areas` are the judged slots; `read_sector` gives the bytes of a sector as the pack now has them, and
//!   keeps each world that is held;
//! - `finish_halts` finishes a bureau and gives the halt texts of both levels: those of each closed world, and all else as for `finish`;
//! - after a stop or `finish` every call answers `Stopped` and changes nothing (`stopped`); `into_store` gives the store;
//! - after any steps that answered `Ok`, in whatever order, each world that was held for a level has taken that level's own entries,
//!   with the answers of the reference model (`each_level_takes_its_own_entries`; each call of `step` is one of these, by
//!   `a_step_is_one_of_any`);
//! - two bureaus that agree for a level agree after any entries with the same own ones (`other_entries_make_no_difference`).
//!
//! Proved of `run_unwritten`, which the program calls, and of `run`, which makes the reports of such a run: the texts are those of
//! each level's closed run in the model, or exactly the first bad line, else the header's fault, and never `Device`. The pack that they
//! leave has as many sectors and nothing after the last one, with header, masters, the sectors that nobody uses and all of a level
//! without an entry as they were; a mount of it has the same header and masters, judges each slot of a level as its world has it,
//! and none overlapping or duplicate, if none was before, and finds the records of each file of each level's world under the label that the
//! world has for it (specs/Runs.antt). Two packs that are alike in what a level can read give it the same texts and files, whatever
//! else they have and whatever the other level does (`no_level_learns_of_the_other`). Its free space is the same over both, and both
//! runs leave it the same free extents (`free_space_is_the_same`). A run over a migrated pack gives the same texts and leaves the
//! same records, unless a halt `NS` is shown over the old one (`a_migrated_pack_gives_the_same_texts`,
//! `a_migrated_pack_keeps_the_records`). Worked scripts and texts are computed (`scripts_are_read`, `reports_are_written`,
//! `halt_texts_are_written`).
//!
//! Only tested: what a saved pack has when it is mounted again if a label overlapped or was a duplicate; that memory is said to run
//! out only if a growth was refused, which no contract can say; and the texts of faults. Not specified: what a stop leaves of
//! the labels and the region of the level that stopped.
#![tactic(auto)]

mod bureau;
mod entry;
mod halts;
mod laws;
mod outcome;
mod report;
mod run_fault;
mod runs;
mod script;
mod stop;
mod unwritten;

pub use bureau::Bureau;
pub use entry::Entry;
pub use laws::{
    a_migrated_pack_gives_the_same_texts, a_migrated_pack_keeps_the_records, a_step_is_one_of_any,
    each_level_takes_its_own_entries, free_space_is_the_same, halt_texts_are_written,
    no_level_learns_of_the_other, other_entries_make_no_difference, reports_are_written,
    scripts_are_read,
};
pub use outcome::{LevelLines, LevelTexts, Outcome, RunLines};
pub use report::{REPORT_ROOM, ReportTables};
pub use run_fault::{RunFault, mount_number};
pub use runs::{fault_of, fault_of_refusal, finish_halts, read_deck, run, run_unwritten};
pub use s3_labels::{Refusal, RefusedStore};
pub use s3_level::{Action, Did, Halt, HaltCode, Taken};
pub use stop::Stop;
pub use unwritten::Unwritten;
