//! The tests of a job's files, which change nothing.
ghost use Rattle.std.specs.Prelude.{◌≡◌, [], ◌∷◌, true, length, map, IfOk};
ghost use Rattle.std.specs.List.{list_all};
ghost use Rattle.s3_lines.specs.Inner.Ranges.{file_in_range};
ghost use Rattle.s3_lines.specs.Files.{is_disk};
ghost use Rattle.s3_ocl.specs.Inner.Sound.{is_sound_file};
ghost use Rattle.s3_slots.specs.Inner.Kept.{IsOfPack};
ghost use Rattle.s3_labels.specs.Inner.Areas.{IsReady as IsPackReady};
ghost use Rattle.s3_job_files.specs.Inner.Holds.{seen, job_file_of};
ghost use Rattle.s3_opening.specs.Inner.Tests.{line_refusal as line_refusal_spec, halt_of_find as halt_of_find_spec, tested_standing, tested_file, step_of, tested_lines};
ghost use Rattle.s3_opening.specs.Inner.Starts.{settings_of, step_in, Gives, ReadsPack, TestsTo, IsOpened, IsRight, AreRight, IsKeptFile};

use crate::asked::{is_new, is_of_layout, is_used, new_file, statement_of};
use crate::fault::OpeningFault;
use crate::settings::JobSettings;
use crate::starts::{Start, is_taken};
use s3_cards::{LevelId, Name};
use s3_job_files::OpenFile;
use s3_labels::Pack;
use s3_lines::sheet::FileLine;
use s3_operator::HaltCode;
use s3_slots::{FileLabel, LabelFault};
use s3_store::Sectors;
use std::alloc::Global;

/// The halt of a level if an F line doesn't allow an existing file, whatever its index is.
#[tactic(auto, unfolding(crate::specs::Inner::Tests::line_refusal))]
fn line_refusal(line: &FileLine, is_master: bool, label: &FileLabel) -> Option<HaltCode>
    ensures { result ≡ line_refusal_spec line.now is_master label.now }
{
    if is_master && !line.is_only_read() {
        return Some(HaltCode::MasterForUpdate);
    }
    if is_of_layout(line, label) {
        None
    } else {
        Some(HaltCode::LabelMismatch)
    }
}

/// Opens an existing file, if the F line allows it.
fn open_standing<P: Sectors>(
    alloc: Global,
    pack: &mut Pack<P>,
    line: &FileLine,
    label: FileLabel,
    is_master: bool,
) -> Result<OpenFile, OpeningFault>
    requires on_pack { IsOfPack (length (P.state pack.old.pool).contents) label }
    ensures file { Gives job_file_of (tested_standing line.now is_master label (P.state pack.old.pool).contents) result }
    ensures is { IfOk result (λ file. (file.label ≡ label) × (file.is_master ≡ is_master)) }
    ensures kept { IfOk result (λ file. IsKeptFile (P.state pack.old.pool).contents label file.records) }
    ensures reads { ReadsPack result pack.old.areas pack.new.areas (P.state pack.old.pool) (P.state pack.new.pool) }
{
    if let Some(code) = line_refusal(line, is_master, &label) {
        return Err(OpeningFault::Halted(code));
    }
    match OpenFile::open(alloc, &mut pack.pool, line.name, label, is_master, false)? {
        Some(file) => Ok(file),
        None => Err(OpeningFault::Halted(HaltCode::BadIndex)),
    }
}

/// Opens the existing file that a level has under a label, if the F line allows it.
fn open_file<P: Sectors>(
    alloc: Global,
    level: LevelId,
    pack: &mut Pack<P>,
    line: &FileLine,
    name: Name,
) -> Result<OpenFile, OpeningFault>
    requires ready { IsPackReady pack.old.areas (P.state pack.old.pool).contents }
    ensures file { Gives job_file_of (tested_file level (seen pack.old.areas (P.state pack.old.pool).contents) line.now name) result }
    ensures opened { IfOk result (IsOpened level (seen pack.old.areas (P.state pack.old.pool).contents)) }
    ensures reads { ReadsPack result pack.old.areas pack.new.areas (P.state pack.old.pool) (P.state pack.new.pool) }
{
    match pack.find(level, name) {
        Ok((label, is_master)) => open_standing(alloc, pack, line, label, is_master),
        Err(fault) => Err(OpeningFault::Halted(halt_of_find(fault))),
    }
}

/// The halt of a level if no file is found.
fn halt_of_find(fault: LabelFault) -> HaltCode
    ensures { result ≡ halt_of_find_spec fault }
{
    match fault {
        LabelFault::NotFound => HaltCode::NoLabel,
        LabelFault::DamagedLabel
        | LabelFault::Master
        | LabelFault::NoSpace
        | LabelFault::Retained
        | LabelFault::NoSlot => HaltCode::DamagedLabel,
    }
}

/// The state of a file that the job uses, after the files that passed so far.
#[tactic(auto, using(crate::proofs::Steps::stated_sound, crate::proofs::Steps::any_mapped), unfolding(crate::specs::Inner::Tests::step_of))]
fn start_of<P: Sectors>(
    alloc: Global,
    level: LevelId,
    pack: &mut Pack<P>,
    settings: &JobSettings<'_>,
    line: &FileLine,
    starts: &[Start],
) -> Result<Start, OpeningFault>
    requires ready { IsPackReady pack.old.areas (P.state pack.old.pool).contents }
    requires line { file_in_range line.now ≡ true }
    requires disk { is_disk line.now.device ≡ true }
    requires statements { list_all is_sound_file settings.now.statements.now ≡ true }
    ensures step { Gives step_in (step_of level (seen pack.old.areas (P.state pack.old.pool).contents) (settings_of settings.now) (map step_in starts.now) line.now) result }
    ensures right { IfOk result (IsRight level (seen pack.old.areas (P.state pack.old.pool).contents)) }
    ensures reads { ReadsPack result pack.old.areas pack.new.areas (P.state pack.old.pool) (P.state pack.new.pool) }
{
    let Some(statement) = statement_of(line.name, settings.statements) else {
        return Err(OpeningFault::Halted(HaltCode::NoLabel));
    };
    if is_taken(statement.label, starts) {
        return Err(OpeningFault::Halted(HaltCode::DuplicateLabel));
    }
    if is_new(line) {
        return Ok(Start::ToMake(line.name, new_file(settings.date, line, statement)));
    }
    match open_file(alloc, level, pack, line, statement.label) {
        Ok(file) => Ok(Start::Opened(file)),
        Err(fault) => Err(fault),
    }
}

/// Tests the file of one line, after those that passed so far.
fn test_line<P: Sectors>(
    alloc: Global,
    level: LevelId,
    pack: &mut Pack<P>,
    settings: &JobSettings<'_>,
    line: &FileLine,
    starts: &mut Vec<Start>,
) -> Result<(), OpeningFault>
    requires ready { IsPackReady pack.old.areas (P.state pack.old.pool).contents }
    requires line { file_in_range line.now ≡ true }
    requires statements { list_all is_sound_file settings.now.statements.now ≡ true }
    requires right { AreRight level (seen pack.old.areas (P.state pack.old.pool).contents) starts.old.items }
    ensures tested { TestsTo (tested_lines level (seen pack.old.areas (P.state pack.old.pool).contents) (settings_of settings.now) (line.now ∷ []) (map step_in starts.old.items)) (map step_in starts.new.items) result }
    ensures right { AreRight level (seen pack.old.areas (P.state pack.old.pool).contents) starts.new.items }
    ensures reads { ReadsPack result pack.old.areas pack.new.areas (P.state pack.old.pool) (P.state pack.new.pool) }
{
    if !is_used(settings.switches, line) {
        return Ok(());
    }
    match start_of(alloc, level, pack, settings, line, starts) {
        Ok(start) => {
            starts.push(start)?;
            Ok(())
        }
        Err(fault) => Err(fault),
    }
}

/// Tests the files of some F lines one after another, up to the first that is refused, and puts those that pass after the ones
/// that passed before.
pub fn test_lines<P: Sectors>(
    alloc: Global,
    level: LevelId,
    pack: &mut Pack<P>,
    settings: &JobSettings<'_>,
    lines: &[FileLine],
    starts: &mut Vec<Start>,
) -> Result<(), OpeningFault>
    requires ready { IsPackReady pack.old.areas (P.state pack.old.pool).contents }
    requires lines { list_all file_in_range lines.now ≡ true }
    requires statements { list_all is_sound_file settings.now.statements.now ≡ true }
    requires right { AreRight level (seen pack.old.areas (P.state pack.old.pool).contents) starts.old.items }
    ensures tested { TestsTo (tested_lines level (seen pack.old.areas (P.state pack.old.pool).contents) (settings_of settings.now) lines.now (map step_in starts.old.items)) (map step_in starts.new.items) result }
    ensures right { AreRight level (seen pack.old.areas (P.state pack.old.pool).contents) starts.new.items }
    ensures reads { ReadsPack result pack.old.areas pack.new.areas (P.state pack.old.pool) (P.state pack.new.pool) }
{
    for line in lines {
        match test_line(alloc, level, pack, settings, line, starts) {
            Ok(()) => {}
            Err(fault) => return Err(fault),
        }
    }
    Ok(())
}
