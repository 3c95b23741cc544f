//! The lines of a dump that are records: one that is too long, as by a change of its text, moves all bytes after it.

use s3_cards::{Name, host_byte, word_len};
use s3_data_commands::pack_words::area_named;
use s3_labels::{Area, AreaSlots, FileLabel, Slot};

/// A line of a dump that has more bytes than a record of its file.
#[derive(Clone, Copy)]
pub struct LongRecord {
    /// The number of the line, from 1.
    pub line: u64,
    /// How many bytes it has.
    pub bytes: usize,
    /// The area of the file.
    pub area: Area,
    /// The label of the file.
    pub name: Name,
    /// How many bytes a record has.
    pub record_length: u16,
}

/// The file whose records are the next lines of codes.
#[derive(Clone, Copy)]
struct RecordLines {
    area: Area,
    name: Name,
    record_length: u16,
    /// How many of its records are left.
    left: u32,
}

/// The first line of a dump that has more bytes than a record of its file, given the slots of the pack that the dump represents. A note
/// that `dump` printed before the records of a file says which lines these are.
pub fn long_record(text: &[u8], areas: &AreaSlots) -> Option<LongRecord> {
    let mut file: Option<RecordLines> = None;
    let mut line = 0u64;
    for bytes in text.split(|byte| *byte == b'\n') {
        line = line.saturating_add(1);
        if bytes.starts_with(b"#") {
            file = after_note(file, bytes, areas);
        } else if bytes.starts_with(b"[")
            && let Some(lines) = file
        {
            let count = codes_in(bytes);
            if count > usize::from(lines.record_length) {
                return Some(long_line(lines, line, count));
            }
            file = lines.after_one();
        }
    }
    None
}

/// A line of so many bytes, which are too many.
fn long_line(lines: RecordLines, line: u64, bytes: usize) -> LongRecord {
    LongRecord {
        line,
        bytes,
        area: lines.area,
        name: lines.name,
        record_length: lines.record_length,
    }
}

impl RecordLines {
    /// The lines after one of them; none after the last.
    fn after_one(self) -> Option<RecordLines> {
        if self.left <= 1 {
            return None;
        }
        Some(RecordLines {
            left: self.left - 1,
            ..self
        })
    }
}

/// How many bytes a line of codes has: between its brackets, a character is one, and `\` with two digits is one.
fn codes_in(line: &[u8]) -> usize {
    let escapes = line.iter().filter(|byte| **byte == b'\\').count();
    line.len()
        .saturating_sub(2)
        .saturating_sub(escapes.saturating_mul(2))
}

/// The file whose records follow a note, given the file before it. A note about a field is among the records.
fn after_note(file: Option<RecordLines>, note: &[u8], areas: &AreaSlots) -> Option<RecordLines> {
    let Ok(note) = str::from_utf8(note) else {
        return file;
    };
    match note.split_once(" in area ") {
        Some((_, rest)) if rest.contains(", records from ") => records_after(note, areas),
        Some(_) => None,
        None => file,
    }
}

/// The file whose records a note announces: `# CUSTOM in area 1, records from 1 on`.
fn records_after(note: &str, areas: &AreaSlots) -> Option<RecordLines> {
    let (label, rest) = note.strip_prefix("# ")?.split_once(" in area ")?;
    let (area, number) = rest.strip_suffix(" on")?.split_once(", records from ")?;
    let area = area_named(area)?;
    let before = number.parse::<u32>().ok()?.saturating_sub(1);
    for slot in areas.slots_of(area) {
        if let Slot::Sound(file) = slot
            && is_named(file, label)
        {
            return lines_of(area, file, before);
        }
    }
    None
}

/// The lines of the records of a file after so many; none if there are no more.
fn lines_of(area: Area, file: &FileLabel, before: u32) -> Option<RecordLines> {
    let left = file.count.saturating_sub(before);
    (left > 0).then_some(RecordLines {
        area,
        name: file.name,
        record_length: file.record_length,
        left,
    })
}

/// Whether a file has this label.
fn is_named(file: &FileLabel, label: &str) -> bool {
    let codes = &file.name.codes[..word_len(&file.name.codes)];
    codes.len() == label.len()
        && codes
            .iter()
            .zip(label.bytes())
            .all(|(code, byte)| host_byte(*code) == byte)
}
