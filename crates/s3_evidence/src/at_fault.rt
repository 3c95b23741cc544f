//! The file for which a job doesn't start. The halt is known, so each file is asked for that alone.

use s3_cards::{LevelId, Name, Retention};
use s3_labels::{Area, AreaSlots, FileLabel, Organization, Slot, Standing};
use s3_lines::indicator::Indicator;
use s3_lines::sheet::{FileLine, Line, SheetLine};
use s3_ocl::FileStatement;
use s3_opening::is_new;
use s3_operator::HaltCode;
use s3_slots::standing_of;
use std::alloc::{AllocError, Global};

/// A file of a job that doesn't start.
#[derive(Drop)]
pub struct JobFile {
    /// The number of its F card in the deck.
    pub card: u16,
    /// Its F line.
    pub line: FileLine,
    /// Its FILE statement, if the job has one.
    pub statement: Option<FileStatement>,
}

/// What a job asks for its files, and what the pack has.
#[derive(Clone, Copy)]
pub struct Asked<'a> {
    /// The level of the job.
    pub level: LevelId,
    /// The slots of the pack.
    pub areas: &'a AreaSlots,
    /// The FILE statements of the job.
    pub statements: &'a [FileStatement],
    /// Whether U1 to U8 are on.
    pub switches: [bool; 8],
}

/// A label as a job finds it on the pack.
#[derive(Drop)]
pub enum Found {
    /// There is no file of this label.
    Nothing,
    /// Damage in an area blocks the label.
    Damage(Area),
    /// The label of a file of an area.
    File(FileLabel, Area),
}

impl<'a> Asked<'a> {
    ghost use Rattle.s3_evidence.specs.Inner.About.{IsFound};

    /// The files on the pack that a program uses, in the order of its F lines.
    pub fn files(&self, alloc: Global, lines: &[Line]) -> Result<Vec<JobFile>, AllocError> {
        let mut files = Vec::new(alloc);
        for line in lines {
            if let SheetLine::File(file) = line.sheet {
                if self.is_used(&file) {
                    files.push(JobFile {
                        card: line.card,
                        line: file,
                        statement: self.statement_of(file.name),
                    })?;
                }
            }
        }
        Ok(files)
    }

    /// The place among some files of the first for which the job halts so.
    pub fn at_fault(&self, code: HaltCode, files: &[JobFile]) -> Option<usize> {
        (0..files.len()).find(|place| self.halts_for(code, files, *place))
    }

    /// Whether a file is on the pack, and the switch that its F line names is on.
    fn is_used(&self, line: &FileLine) -> bool {
        line.device.is_disk() && self.is_switched_on(line.condition)
    }

    fn is_switched_on(&self, condition: Option<Indicator>) -> bool {
        let Some(Indicator::Switch(number)) = condition else {
            return true;
        };
        match self.switches.get(usize::from(number).wrapping_sub(1)) {
            Some(is_on) => *is_on,
            None => true,
        }
    }

    fn statement_of(&self, name: Name) -> Option<FileStatement> {
        self.statements
            .iter()
            .find(|statement| statement.name == name)
            .copied()
    }

    /// Whether a job halts so for the file at a place.
    fn halts_for(&self, code: HaltCode, files: &[JobFile], place: usize) -> bool {
        let Some(file) = files.get(place) else {
            return false;
        };
        let Some(statement) = file.statement else {
            return matches!(code, HaltCode::NoLabel);
        };
        if matches!(code, HaltCode::DuplicateLabel) {
            return has_label(files.get(..place).unwrap_or(&[]), statement.label);
        }
        if is_new(&file.line) {
            self.halts_for_made(code, statement.label)
        } else {
            self.halts_for_opened(code, &file.line, statement.label)
        }
    }

    fn halts_for_made(&self, code: HaltCode, label: Name) -> bool {
        match code {
            HaltCode::MasterForUpdate => is_present(label, self.areas.masters()),
            HaltCode::DamagedLabel => {
                matches!(
                    standing_of(label, self.areas.slots(self.level)),
                    Standing::Blocked
                )
            }
            HaltCode::RetainedFile => is_kept(label, self.areas.slots(self.level)),
            HaltCode::NoSpace => true,
            _ => false,
        }
    }

    fn halts_for_opened(&self, code: HaltCode, line: &FileLine, label: Name) -> bool {
        match self.found(label) {
            Found::Nothing => matches!(code, HaltCode::NoLabel),
            Found::Damage(_) => matches!(code, HaltCode::DamagedLabel),
            Found::File(label, area) => match code {
                HaltCode::MasterForUpdate => area == Area::Masters && !line.is_only_read(),
                HaltCode::LabelMismatch => !is_of_layout(line, &label),
                HaltCode::BadIndex => label.organization == Organization::Indexed,
                _ => false,
            },
        }
    }

    /// What a job that opens a label finds: a file of the level itself before one of the masters.
    pub fn found(&self, label: Name) -> Found
        ensures { IsFound self.now.level self.now.areas.now label result }
    {
        match standing_of(label, self.areas.slots(self.level)) {
            Standing::Present(file) => Found::File(file, Area::Level(self.level)),
            Standing::Blocked => Found::Damage(Area::Level(self.level)),
            Standing::Absent => match standing_of(label, self.areas.masters()) {
                Standing::Present(file) => Found::File(file, Area::Masters),
                Standing::Blocked => Found::Damage(Area::Masters),
                Standing::Absent => Found::Nothing,
            },
        }
    }
}

/// The length and the first position of a line's key, 0 and 0 if it has none.
pub fn key_of(line: &FileLine) -> (u8, u16) {
    match line.key {
        Some(key) => (key.length, key.start),
        None => (0, 0),
    }
}

/// Whether a label has the layout that an F line says.
fn is_of_layout(line: &FileLine, label: &FileLabel) -> bool {
    label.record_length == line.record_length
        && line.key.is_some() == (label.organization == Organization::Indexed)
        && key_of(line) == (label.key_length, label.key_start)
}

fn has_label(files: &[JobFile], label: Name) -> bool {
    files.iter().any(|file| match &file.statement {
        Some(statement) => statement.label == label,
        None => false,
    })
}

fn is_present(label: Name, slots: &[Slot]) -> bool {
    matches!(standing_of(label, slots), Standing::Present(_))
}

fn is_kept(label: Name, slots: &[Slot]) -> bool {
    match standing_of(label, slots) {
        Standing::Present(file) => file.retention == Retention::Permanent,
        Standing::Absent | Standing::Blocked => false,
    }
}
