//! Which lines of a source may be written at total time, and in which order its files are read.

use crate::begun::Source;
use s3_lines::sheet::{InputLine, OutputKind, OutputLine, SheetLine};

impl Source {
    /// Whether the output line at a place of the O sheet may be one of totals: a T line, or one that an EXCPT writes.
    pub fn may_be_total_output(&self, place: usize) -> bool {
        let Some(line) = self.output_at(place) else {
            return false;
        };
        match &line.sheet {
            SheetLine::Output(OutputLine::Line(card)) => matches!(
                card.kind,
                OutputKind::Total | OutputKind::Exception
            ),
            _ => false,
        }
    }

    /// Whether the cycle reads its files one after the other: it reads one file alone, or no record type has match fields.
    pub fn reads_in_turn(&self) -> bool {
        self.files_read() <= 1 || !self.has_match_fields()
    }

    /// How many files are primary or secondary.
    fn files_read(&self) -> usize {
        let files = self.lines.iter().filter(|line| match &line.sheet {
            SheetLine::File(file) => file.is_primary() || file.is_secondary(),
            _ => false,
        });
        files.count()
    }

    /// Whether a record type has match fields.
    fn has_match_fields(&self) -> bool {
        self.lines.iter().any(|line| match &line.sheet {
            SheetLine::Input(InputLine::Field(field)) => field.match_level.is_some(),
            _ => false,
        })
    }
}
