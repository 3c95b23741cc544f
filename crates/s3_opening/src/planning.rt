//! Whether the files of a job can be had: all tests, and the plan of what is made, with nothing changed.
ghost use Rattle.std.specs.Prelude.{◌≡◌, [], true, filter, filter_map, map, IfOk};
ghost use Rattle.std.specs.List.{list_all};
ghost use Rattle.s3_lines.specs.Inner.Ranges.{file_in_range};
ghost use Rattle.s3_ocl.specs.Inner.Sound.{is_sound_file};
ghost use Rattle.s3_slots.specs.Inner.Making.{planned};
ghost use Rattle.s3_labels.specs.Inner.Areas.{slots_at, region_at, IsReady as IsPackReady};
ghost use Rattle.s3_job_files.specs.Files.{Files};
ghost use Rattle.s3_job_files.specs.Inner.Holds.{seen, HoldsFiles};
ghost use Rattle.s3_opening.specs.Asked.{is_used};
ghost use Rattle.s3_opening.specs.Opening.{halt_of_make as halt_of_make_spec, none_in_use, opened};
ghost use Rattle.s3_opening.specs.Inner.Tests.{news_of as news_of_spec, new_of};
ghost use Rattle.s3_opening.specs.Inner.Starts.{settings_of, step_in, fault_of_plan, first_refusal as first_refusal_spec, AreRight, Comes, PlansTo, ReadsPack};
ghost use Rattle.s3_opening.specs.Inner.Starting.{AreStartsOf, CanStart};

use crate::asked::is_used;
use crate::fault::OpeningFault;
use crate::settings::JobSettings;
use crate::starts::Start;
use crate::testing::test_lines;
use s3_cards::LevelId;
use s3_labels::{Pack, PlanFault};
use s3_lines::sheet::FileLine;
use s3_operator::HaltCode;
use s3_slots::{LabelFault, NewFile};
use s3_store::{SectorFault, Sectors};
use std::alloc::{AllocError, Global};

/// How many of these F lines the job uses: so many starts need space, each of which is large.
fn used_of(switches: u8, lines: &[FileLine]) -> usize {
    lines.iter().filter(|line| is_used(switches, line)).count()
}

/// The files that are to be made.
fn news_of(alloc: Global, starts: &[Start]) -> Result<Vec<NewFile>, AllocError>
    ensures { IfOk result (λ news. news.items ≡ filter_map (λ start. new_of (step_in start)) starts.now) }
{
    starts
        .iter()
        .filter_map(|start| start.to_make())
        .collect(alloc)
}

/// The halt of a level if a file can't be made.
fn halt_of_make(fault: LabelFault) -> HaltCode
    ensures { result ≡ halt_of_make_spec fault }
{
    match fault {
        LabelFault::Master => HaltCode::MasterForUpdate,
        LabelFault::DamagedLabel => HaltCode::DamagedLabel,
        LabelFault::Retained => HaltCode::RetainedFile,
        LabelFault::NotFound | LabelFault::NoSpace | LabelFault::NoSlot => HaltCode::NoSpace,
    }
}

/// Whether the files that are to be made could be made one after another.
fn plan_makes<P: Sectors>(
    alloc: Global,
    level: LevelId,
    pack: &Pack<P>,
    starts: &[Start],
) -> Result<(), OpeningFault>
    requires ready { IsPackReady pack.now.areas (P.state pack.now.pool).contents }
    requires right { AreRight level (seen pack.now.areas (P.state pack.now.pool).contents) starts.now }
    ensures { PlansTo (planned 0 pack.now.areas.header.format (region_at level pack.now.areas) pack.now.areas.masters (news_of_spec (map step_in starts.now)) (slots_at level pack.now.areas)) result }
{
    let news = news_of(alloc, starts)?;
    // most jobs make no file, and a plan copies the level's label slots
    if news.is_empty() {
        return Ok(());
    }
    match pack.plan(alloc, level, &news) {
        Ok(()) => Ok(()),
        Err(fault) => Err(refused_plan(fault)),
    }
}

/// Why the files of a job can't be made.
fn refused_plan(fault: PlanFault) -> OpeningFault
    ensures { result ≡ fault_of_plan fault }
{
    match fault {
        PlanFault::File(_, fault) => OpeningFault::Halted(halt_of_make(fault)),
        PlanFault::NoMemory => OpeningFault::Sectors(SectorFault::NoMemory),
    }
}

/// The first refusal of the files in their order: a make that the plan refuses comes before the file that failed its tests, after
/// which nothing is planned.
fn first_refusal(
    tested: Result<(), OpeningFault>,
    planned: Result<(), OpeningFault>,
) -> Result<(), OpeningFault>
    ensures { result ≡ first_refusal_spec tested planned }
{
    match tested {
        Err(OpeningFault::Sectors(fault)) => Err(OpeningFault::Sectors(fault)),
        Err(OpeningFault::Halted(code)) => match planned {
            Ok(()) => Err(OpeningFault::Halted(code)),
            Err(fault) => Err(fault),
        },
        Ok(()) => planned,
    }
}

/// What the files of a job come to at its start, each opened or to be made; or for which halt the job doesn't start. Nothing is
/// changed.
#[tactic(auto, using(crate::proofs::Started::right_none))]
pub fn test_files<P: Sectors>(
    alloc: Global,
    level: LevelId,
    pack: &mut Pack<P>,
    settings: &JobSettings<'_>,
    lines: &[FileLine],
) -> Result<Vec<Start>, OpeningFault>
    requires ready { IsPackReady pack.old.areas (P.state pack.old.pool).contents }
    requires lines { list_all file_in_range lines.now ≡ true }
    requires statements { list_all is_sound_file settings.now.statements.now ≡ true }
    ensures comes { (files : Files) → HoldsFiles level [] (seen pack.old.areas (P.state pack.old.pool).contents) files → Comes (λ starts. map step_in starts.items) (none_in_use files) (opened (settings_of settings.now) lines.now files) result }
    ensures can { IfOk result (λ starts. CanStart level [] (seen pack.old.areas (P.state pack.old.pool).contents) starts.items) }
    ensures of_lines { IfOk result (λ starts. AreStartsOf settings.now.statements.now (filter (is_used settings.now.switches) lines.now) starts.items) }
    ensures reads { ReadsPack result pack.old.areas pack.new.areas (P.state pack.old.pool) (P.state pack.new.pool) }
{
    let mut starts = Vec::with_capacity(alloc, used_of(settings.switches, lines))?;
    let tested = test_lines(alloc, level, pack, settings, lines, &mut starts);
    let planned = plan_makes(alloc, level, pack, &starts);
    match first_refusal(tested, planned) {
        Ok(()) => Ok(starts),
        Err(fault) => Err(fault),
    }
}
