//! Why a job doesn't start.

use crate::cards::DeckCards;
use crate::layout::push_layouts;
use crate::room::push_room;
use crate::slot_words::push_slot_at_fault;
use s3_cards::ebcdic::DIGIT_0;
use s3_cards::{LevelId, Name};
use s3_decks::{push_characters, push_name};
use s3_evidence::{Asked, Begun, Evidence, Found, IndexFlaw, JobFile};
use s3_labels::{Area, AreaSlots};
use s3_level::Level;
use s3_opening::is_new;
use s3_operator::HaltCode;
use std::alloc::{AllocError, Global};

/// A job that doesn't start.
#[derive(Clone, Copy)]
pub(crate) struct AtStart<'a> {
    /// The deck of its level.
    pub(crate) cards: DeckCards<'a>,
    /// Its level.
    pub(crate) held: &'a Level,
    /// The jobs that were begun; the last one is its own.
    pub(crate) begun: &'a Begun,
    /// The slots of the pack.
    pub(crate) areas: &'a AreaSlots,
    /// Which level it is.
    pub(crate) level: LevelId,
    /// For what it halts.
    pub(crate) code: HaltCode,
    /// What the pack has about the halt.
    pub(crate) evidence: &'a Evidence,
}

/// Appends why a job doesn't start.
pub(crate) fn push_at_start(
    text: &mut String,
    alloc: Global,
    at: AtStart<'_>,
) -> Result<(), AllocError> {
    match at.code {
        HaltCode::FaultyJob | HaltCode::FaultySource => Ok(()),
        HaltCode::NoProgram => push_programs(text, &at.begun.programs(alloc)?),
        _ => push_files(text, alloc, at),
    }
}

/// Appends the programs that a level's library has.
fn push_programs(text: &mut String, names: &[Name]) -> Result<(), AllocError> {
    if names.is_empty() {
        return text.push_str("  no program was compiled in this level\n");
    }
    text.push_str("  the programs of this level: ")?;
    for (place, name) in names.iter().enumerate() {
        if place > 0 {
            text.push_str(", ")?;
        }
        push_name(text, *name)?;
    }
    text.push('\n')
}

/// Appends the file for which a job doesn't start.
fn push_files(text: &mut String, alloc: Global, at: AtStart<'_>) -> Result<(), AllocError> {
    let Some(job) = at.begun.statements() else {
        return Ok(());
    };
    let Some(source) = at.begun.source_of(alloc, at.held, job.program())? else {
        return Ok(());
    };
    let asked = Asked {
        level: at.level,
        areas: at.areas,
        statements: job.files(),
        switches: at.begun.switches(),
    };
    let files = asked.files(alloc, &source.lines);
    drop(source);
    push_file_of(text, alloc, at, &asked, &files?)
}

/// Appends the file for which a job doesn't start, given those that it asks for.
fn push_file_of(
    text: &mut String,
    alloc: Global,
    at: AtStart<'_>,
    asked: &Asked<'_>,
    files: &[JobFile],
) -> Result<(), AllocError> {
    if matches!(at.code, HaltCode::NoSpace) {
        return push_room(text, asked, files);
    }
    match asked.at_fault(at.code, files) {
        Some(place) => match files.get(place) {
            Some(file) => push_file(text, alloc, at, asked, file),
            None => Ok(()),
        },
        None => Ok(()),
    }
}

/// Appends `  the file DATA, label OTHER`.
pub(crate) fn push_file_name(text: &mut String, file: &JobFile) -> Result<(), AllocError> {
    text.push_str("  the file ")?;
    push_name(text, file.line.name)?;
    match &file.statement {
        Some(statement) => {
            text.push_str(", label ")?;
            push_name(text, statement.label)
        }
        None => Ok(()),
    }
}

/// Appends a file, and what is wrong with it.
fn push_file(
    text: &mut String,
    alloc: Global,
    at: AtStart<'_>,
    asked: &Asked<'_>,
    file: &JobFile,
) -> Result<(), AllocError> {
    push_file_name(text, file)?;
    let Some(statement) = &file.statement else {
        return text.push_str(" has no FILE statement\n");
    };
    text.push_str(words_after(at.code, file))?;
    text.push('\n')?;
    match at.code {
        HaltCode::LabelMismatch => push_layouts(
            text,
            alloc,
            at.cards,
            asked,
            file,
            statement.label,
        ),
        HaltCode::RetainedFile => push_kept(text, asked.found(statement.label)),
        HaltCode::DamagedLabel => {
            push_slot_at_fault(
                text,
                at,
                statement.label,
                area_at_fault(asked, file, statement.label),
            )
        }
        HaltCode::BadIndex => push_flaw(text, at.evidence, statement.label),
        _ => Ok(()),
    }
}

/// The area in which damage blocks a label: the level's area for a file that is made.
fn area_at_fault(asked: &Asked<'_>, file: &JobFile, label: Name) -> Area {
    match asked.found(label) {
        Found::Damage(area) if !is_new(&file.line) => area,
        _ => Area::Level(asked.level),
    }
}

/// What is reported of a file after its label.
fn words_after(code: HaltCode, file: &JobFile) -> &'static str {
    match code {
        HaltCode::NoLabel => ": no file has that label",
        HaltCode::DuplicateLabel => ", which an earlier file of the job has too",
        HaltCode::MasterForUpdate if is_new(&file.line) => ", which a master has",
        HaltCode::MasterForUpdate => ", which is a master, and the program would change it",
        _ => "",
    }
}

/// Appends date and count of a file that is kept.
fn push_kept(text: &mut String, found: Found) -> Result<(), AllocError> {
    let Found::File(label, _) = &found else {
        return Ok(());
    };
    text.push_str("  kept for good")?;
    if has_date(&label.date) {
        text.push_str(" since ")?;
        push_date(text, &label.date)?;
    }
    text.push_str(", with ")?;
    push_count(text, label.count)?;
    text.push('\n')
}

/// Whether a date of a label is one: a label without a date has zeros.
fn has_date(date: &[u8; 6]) -> bool {
    date.iter().any(|digit| *digit != DIGIT_0)
}

/// Appends `1 record`, or how many records.
fn push_count(text: &mut String, count: u32) -> Result<(), AllocError> {
    if count == 1 {
        text.push_str("1 record")
    } else {
        write!(text, "{count} records")
    }
}

/// Appends a date mmddyy as `mm/dd/yy`.
fn push_date(text: &mut String, date: &[u8; 6]) -> Result<(), AllocError> {
    push_characters(text, &date[..2])?;
    text.push('/')?;
    push_characters(text, &date[2..4])?;
    text.push('/')?;
    push_characters(text, &date[4..])
}

/// The flaw of the index of the file that a label finds, if one was found.
fn flaw_of(evidence: &Evidence, label: Name) -> Option<IndexFlaw> {
    let Evidence::Indexes(indexes) = evidence else {
        return None;
    };
    indexes.iter().find(|index| index.label == label)?.flaw
}

/// Appends what is wrong with the index of the file that a label finds.
fn push_flaw(text: &mut String, evidence: &Evidence, label: Name) -> Result<(), AllocError> {
    let Some(flaw) = flaw_of(evidence, label) else {
        return Ok(());
    };
    match flaw {
        IndexFlaw::Order(entry) => writeln!(
            text,
            "  the key of entry {entry} of its index doesn't come behind that of the entry before"
        ),
        IndexFlaw::Record { entry, record } => writeln!(
            text,
            "  entry {entry} of its index names record {record}, which the file doesn't have"
        ),
        IndexFlaw::Twice { entry, record } => writeln!(
            text,
            "  entry {entry} of its index names record {record}, as an entry before does"
        ),
        IndexFlaw::Key { entry, record } => writeln!(
            text,
            "  the key of entry {entry} of its index isn't that of record {record}, which it names"
        ),
    }
}
