//! The start of a job: its files are made and opened, once all tests have passed.
ghost use Rattle.std.specs.Prelude.{◌≡◌, ◌+◌, [], ◌∷◌, true, length, IfOk, IfErr, IsOk, OnOk};
ghost use Rattle.std.specs.List.{list_all};
ghost use Rattle.s3_lines.specs.Inner.Ranges.{file_in_range};
ghost use Rattle.s3_ocl.specs.Inner.Sound.{is_sound_file};
ghost use Rattle.s3_store.specs.Inner.Calls.{Reads};
ghost use Rattle.s3_store.specs.Inner.State.{KeepsContents, KeepsInStep};
ghost use Rattle.s3_slots.specs.Inner.Kept.{IsOfPack};
ghost use Rattle.s3_slots.specs.Making.{made};
ghost use Rattle.s3_slots.specs.Inner.Making.{IsNewFile};
ghost use Rattle.s3_labels.specs.Inner.Areas.{region_at, slots_at, with_slots, IsReady as IsPackReady};
ghost use Rattle.s3_labels.specs.Inner.Labelled.{KeepsSaid};
ghost use Rattle.s3_job_files.specs.Files.{Files};
ghost use Rattle.s3_job_files.specs.Inner.Holds.{seen, HoldsFiles, IsOutOfReach, IsReady};
ghost use Rattle.s3_job_files.specs.Inner.Packs.{LeavesPack};
ghost use Rattle.s3_job_files.specs.Kept.{kept_on};
ghost use Rattle.s3_opening.specs.Opening.{opened};
ghost use Rattle.s3_opening.specs.Inner.OpenFiles.{AreOfLines, IfHalted, StartsAs};
ghost use Rattle.s3_opening.specs.Inner.Starting.{CanStart, IsMade, IsOpenedNew, Readies, Starts, StartsAll};
ghost use Rattle.s3_opening.specs.Inner.Starts.{settings_of, step_in, failed_opening, IsPlanned, IsRight};
ghost use Rattle.s3_opening.specs.declared.starts.Start.TheVariants.{ToMake};

use crate::fault::OpeningFault;
use crate::planning::test_files;
use crate::settings::JobSettings;
use crate::starts::Start;
use s3_cards::{LevelId, Name};
use s3_job_files::{JobFiles, OpenFile};
use s3_labels::{ChangeFault, Pack};
use s3_lines::sheet::FileLine;
use s3_slots::{FileLabel, NewFile};
use s3_store::{SectorFault, Sectors};
use std::alloc::Global;

/// Makes a file that can be made. It answers the label.
fn make_label<P: Sectors>(
    level: LevelId,
    new: &NewFile,
    pack: &mut Pack<P>,
) -> Result<FileLabel, SectorFault>
    requires ready { IsPackReady pack.old.areas (P.state pack.old.pool).contents }
    requires proper { IsNewFile new.now }
    requires planned { IsOk (made pack.old.areas.header.format (region_at level pack.old.areas) pack.old.areas.masters new.now (slots_at level pack.old.areas)) }
    ensures made { IfOk result (λ label. IsMade level new.now label pack.old.areas pack.new.areas (P.state pack.old.pool).contents (P.state pack.new.pool).contents) }
    ensures leaves { LeavesPack level result pack.old.areas pack.new.areas (P.state pack.old.pool) (P.state pack.new.pool) }
{
    match pack.make(level, new) {
        Ok(label) => Ok(label),
        Err(ChangeFault::Sectors(fault)) => Err(fault),
        Err(ChangeFault::Label(_)) => unreachable!(),
    }
}

/// Opens a file that was made.
fn open_made<P: Sectors>(
    alloc: Global,
    pool: &mut P,
    name: Name,
    label: FileLabel,
) -> Result<OpenFile, SectorFault>
    requires on_pack { IsOfPack (length (P.state pool.old).contents) label }
    requires good { (kept_on label (P.state pool.old).contents).has_good_index ≡ true }
    ensures opened { IfOk result (IsOpenedNew name label (P.state pool.old).contents) }
    ensures reads { Reads result (P.state pool.old) (P.state pool.new) }
{
    match OpenFile::open(alloc, pool, name, label, false, true)? {
        Some(file) => Ok(file),
        None => unreachable!(),
    }
}

/// Makes a file that can be made, and opens it.
fn make_file<P: Sectors>(
    alloc: Global,
    level: LevelId,
    pack: &mut Pack<P>,
    name: Name,
    new: &NewFile,
) -> Result<OpenFile, SectorFault>
    requires ready { IsPackReady pack.old.areas (P.state pack.old.pool).contents }
    requires proper { IsNewFile new.now }
    requires planned { IsOk (made pack.old.areas.header.format (region_at level pack.old.areas) pack.old.areas.masters new.now (slots_at level pack.old.areas)) }
    ensures readies { IfOk result (λ file. Readies level (ToMake name new.now) file (seen pack.old.areas (P.state pack.old.pool).contents) (seen pack.new.areas (P.state pack.new.pool).contents)) }
    ensures leaves { LeavesPack level result pack.old.areas pack.new.areas (P.state pack.old.pool) (P.state pack.new.pool) }
{
    let label = make_label(level, new, pack)?;
    open_made(alloc, &mut pack.pool, name, label)
}

/// The file of a start: it is open already, or it is made.
fn file_of<P: Sectors>(
    alloc: Global,
    level: LevelId,
    pack: &mut Pack<P>,
    start: Start,
) -> Result<OpenFile, SectorFault>
    requires ready { IsPackReady pack.old.areas (P.state pack.old.pool).contents }
    requires right { IsRight level (seen pack.old.areas (P.state pack.old.pool).contents) start }
    requires planned { IsPlanned level pack.old.areas (step_in start ∷ []) }
    ensures readies { IfOk result (λ file. Readies level start file (seen pack.old.areas (P.state pack.old.pool).contents) (seen pack.new.areas (P.state pack.new.pool).contents)) }
    ensures leaves { LeavesPack level result pack.old.areas pack.new.areas (P.state pack.old.pool) (P.state pack.new.pool) }
{
    match start {
        Start::Opened(file) => Ok(file),
        Start::ToMake(name, new) => make_file(alloc, level, pack, name, &new),
    }
}

/// The file of a start comes after those that are open.
fn start_file<P: Sectors>(
    alloc: Global,
    level: LevelId,
    pack: &mut Pack<P>,
    start: Start,
    files: &mut Vec<OpenFile>,
) -> Result<(), SectorFault>
    requires can { CanStart level files.old.items (seen pack.old.areas (P.state pack.old.pool).contents) (start ∷ []) }
    ensures starts { OnOk result (Starts level start files.old.items files.new.items (seen pack.old.areas (P.state pack.old.pool).contents) (seen pack.new.areas (P.state pack.new.pool).contents)) }
    ensures leaves { LeavesPack level result pack.old.areas pack.new.areas (P.state pack.old.pool) (P.state pack.new.pool) }
{
    let file = file_of(alloc, level, pack, start)?;
    files.push(file)?;
    Ok(())
}

/// The files of starts come after those that are open, one after another.
fn start_all<P: Sectors>(
    alloc: Global,
    level: LevelId,
    pack: &mut Pack<P>,
    starts: Vec<Start>,
    files: &mut Vec<OpenFile>,
) -> Result<(), SectorFault>
    requires can { CanStart level files.old.items (seen pack.old.areas (P.state pack.old.pool).contents) starts.items }
    ensures starts { OnOk result (StartsAll level starts.items files.old.items files.new.items (seen pack.old.areas (P.state pack.old.pool).contents) (seen pack.new.areas (P.state pack.new.pool).contents)) }
    ensures leaves { LeavesPack level result pack.old.areas pack.new.areas (P.state pack.old.pool) (P.state pack.new.pool) }
{
    for start in starts {
        start_file(alloc, level, pack, start, files)?;
    }
    Ok(())
}

/// Makes and opens the files of a job, in the order of its F lines, or answers for which halt it doesn't start (docs/OCL.md,
/// "What is tested at the start"). Nothing is changed unless all of them pass their tests.
///
/// After a fault of the sectors no call on the pack is to be made.
pub fn open_files<P: Sectors>(
    alloc: Global,
    level: LevelId,
    pack: &mut Pack<P>,
    settings: &JobSettings<'_>,
    lines: &[FileLine],
) -> Result<JobFiles, OpeningFault>
    requires ready { IsPackReady pack.old.areas (P.state pack.old.pool).contents }
    requires lines { list_all file_in_range lines.now ≡ true }
    requires statements { list_all is_sound_file settings.now.statements.now ≡ true }
    ensures starts { (files : Files) → HoldsFiles level [] (seen pack.old.areas (P.state pack.old.pool).contents) files → StartsAs level (seen pack.new.areas (P.state pack.new.pool).contents) (opened (settings_of settings.now) lines.now files) result }
    ensures ready { IfOk result (λ job_files. IsReady level job_files.files.items (seen pack.new.areas (P.state pack.new.pool).contents)) }
    ensures of_lines { IfOk result (λ job_files. AreOfLines settings.now.switches lines.now job_files.files.items) }
    ensures level { IfOk result (λ job_files. job_files.level ≡ level) }
    ensures same { IfErr result (λ fault. IfHalted fault (pack.new.areas ≡ pack.old.areas)) }
    ensures keeps { IfErr result (λ fault. IfHalted fault (KeepsContents (P.state pack.old.pool) (P.state pack.new.pool))) }
    ensures pack { IsPackReady pack.new.areas (P.state pack.new.pool).contents }
    ensures others { pack.new.areas ≡ with_slots level (slots_at level pack.new.areas) pack.old.areas }
    ensures spares { KeepsInStep (IsOutOfReach level pack.old.areas.header) (P.state pack.old.pool) (P.state pack.new.pool) }
    ensures says { OnOk result (KeepsSaid level pack.old.areas (P.state pack.old.pool).contents pack.new.areas (P.state pack.new.pool).contents) }
    ensures failures { (P.state pack.new.pool).failures ≡ (P.state pack.old.pool).failures + failed_opening result }
{
    let starts = test_files(alloc, level, pack, settings, lines)?;
    let mut files = Vec::with_capacity(alloc, starts.len())?;
    start_all(alloc, level, pack, starts, &mut files)?;
    Ok(JobFiles { level, files })
}
