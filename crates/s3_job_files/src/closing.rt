//! The end of a job: its files are closed.
ghost use Rattle.std.specs.Prelude.{◌≡◌, [], map, None, IfErr, OnOk};
ghost use Rattle.s3_slots.specs.Making.{counted, dropped};
ghost use Rattle.s3_slots.specs.Inner.Making.{refusal};
ghost use Rattle.s3_slots.specs.Slots.{standing};
ghost use Rattle.s3_labels.specs.Inner.Areas.{slots_at, IsOfSectors, IsReady as IsPackReady, MayHave};
ghost use Rattle.s3_job_files.specs.Files.{Files};
ghost use Rattle.s3_job_files.specs.Closing.{files_closed};
ghost use Rattle.s3_job_files.specs.Inner.Refusals.{sectors_answer};
ghost use Rattle.s3_job_files.specs.Inner.Holds.{seen, job_file_of, Closes, HoldsFiles, IsReady, Stands};
ghost use Rattle.s3_job_files.specs.Inner.Packs.{ChangesLabels, LeavesPack};

use crate::file::OpenFile;
use s3_cards::{LevelId, Name};
use s3_labels::{ChangeFault, Pack};
use s3_store::{SectorFault, Sectors};

/// What a change of a label that is there answers.
fn changed(change: Result<(), ChangeFault>) -> Result<(), SectorFault>
    requires { IfErr change IsOfSectors }
    ensures { result ≡ sectors_answer change }
{
    match change {
        Ok(()) => Ok(()),
        Err(ChangeFault::Sectors(fault)) => Err(fault),
        Err(ChangeFault::Label(_)) => unreachable!(),
    }
}

/// Drops the label of a file that a level has.
#[tactic(auto, using(crate::proofs::Labels::dropped_by, crate::proofs::Labels::drop_refused))]
fn drop_label<P: Sectors>(level: LevelId, name: Name, pack: &mut Pack<P>) -> Result<(), SectorFault>
    requires ready { IsPackReady pack.old.areas (P.state pack.old.pool).contents }
    requires there { refusal (standing name (slots_at level pack.old.areas)) ≡ None }
    ensures dropped { OnOk result (slots_at level pack.new.areas ≡ dropped name (slots_at level pack.old.areas)) }
    ensures labels { ChangesLabels level result pack.old.areas pack.new.areas (P.state pack.old.pool) (P.state pack.new.pool) }
{
    changed(pack.drop_label(level, name))
}

/// Sets the count of a file that a level has.
#[tactic(auto, using(crate::proofs::Labels::counted_by, crate::proofs::Labels::count_refused))]
fn set_count<P: Sectors>(
    level: LevelId,
    name: Name,
    count: u32,
    pack: &mut Pack<P>,
) -> Result<(), SectorFault>
    requires ready { IsPackReady pack.old.areas (P.state pack.old.pool).contents }
    requires there { refusal (standing name (slots_at level pack.old.areas)) ≡ None }
    requires room { MayHave count (standing name (slots_at level pack.old.areas)) }
    ensures counted { OnOk result (slots_at level pack.new.areas ≡ counted name count (slots_at level pack.old.areas)) }
    ensures labels { ChangesLabels level result pack.old.areas pack.new.areas (P.state pack.old.pool) (P.state pack.new.pool) }
{
    changed(pack.set_count(level, name, count))
}

/// Closes a file: the count of a file of the level's own is set, unless its label has it; a scratch file that the job made goes.
fn close_file<P: Sectors>(
    level: LevelId,
    file: OpenFile,
    pack: &mut Pack<P>,
) -> Result<(), SectorFault>
    requires ready { IsPackReady pack.old.areas (P.state pack.old.pool).contents }
    requires stands { Stands level (seen pack.old.areas (P.state pack.old.pool).contents) file }
    ensures closes { OnOk result (Closes level file (seen pack.old.areas (P.state pack.old.pool).contents) (seen pack.new.areas (P.state pack.new.pool).contents)) }
    ensures leaves { LeavesPack level result pack.old.areas pack.new.areas (P.state pack.old.pool) (P.state pack.new.pool) }
{
    if file.is_master {
        return Ok(());
    }
    let name = file.label.name;
    if file.goes_at_end() {
        return drop_label(level, name, pack);
    }
    let count = file.records.len();
    let is_label_right = count == file.label.count;
    file.close(&mut pack.pool)?;
    if is_label_right {
        return Ok(());
    }
    set_count(level, name, count, pack)
}

/// Closes files one after another, in their order: counts are set, and scratch files that the job made are dropped.
pub fn close_all<P: Sectors>(
    level: LevelId,
    files: Vec<OpenFile>,
    pack: &mut Pack<P>,
) -> Result<(), SectorFault>
    requires ready { IsReady level files.items (seen pack.old.areas (P.state pack.old.pool).contents) }
    ensures closes { OnOk result ((held : Files) → HoldsFiles level files.items (seen pack.old.areas (P.state pack.old.pool).contents) held → HoldsFiles level [] (seen pack.new.areas (P.state pack.new.pool).contents) (files_closed (map job_file_of files.items) held)) }
    ensures ready { OnOk result (IsReady level [] (seen pack.new.areas (P.state pack.new.pool).contents)) }
    ensures leaves { LeavesPack level result pack.old.areas pack.new.areas (P.state pack.old.pool) (P.state pack.new.pool) }
{
    for file in files {
        close_file(level, file, pack)?;
    }
    Ok(())
}
