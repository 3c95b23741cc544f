//! The layouts of files, and which of them a record has.
ghost use Rattle.std.specs.Prelude.{◌≡◌, true, length, option_map, IfOk, IfSome};
ghost use Rattle.s3_dump.specs.Inner.Notes.{is_layout_of as is_layout_of_spec, layout_for};

use s3_cards::Name;
use s3_cells::Layout;
use s3_labels::Area;
use s3_record_types::ChosenRecords;
use std::alloc::AllocError;

/// The layout of the records of a type in a file.
#[derive(Clone, Copy)]
pub struct FileLayout<'a> {
    /// The area of the file.
    pub area: Area,
    /// Its label.
    pub name: Name,
    /// The fields of the records.
    pub layout: &'a Layout,
    /// The records of the type.
    pub records: &'a ChosenRecords,
}

/// How many records of a file with layouts are of a type that none of them has.
#[derive(Clone, Copy)]
pub struct Unlaid {
    /// The area of the file.
    pub area: Area,
    /// Its label.
    pub name: Name,
    /// How many records.
    pub count: u32,
}

/// The layouts that are given, and the records so far that are of none of their types.
#[derive(Drop)]
pub struct Laid<'a> {
    pub layouts: &'a [FileLayout<'a>],
    pub unlaid: Vec<Unlaid>,
}

impl<'a> Laid<'a> {
    /// Whether a file has a layout.
    pub fn has_file(&self, area: Area, name: Name) -> bool {
        self.layouts
            .iter()
            .any(|file| file.area == area && file.name == name)
    }

    /// The layout of a record of a file that has one. If the record has none, it is counted.
    pub fn layout_of(
        &mut self,
        area: Area,
        name: Name,
        bytes: &[u8],
    ) -> Result<Option<&'a Layout>, AllocError>
        ensures first { IfOk result (λ layout. option_map (λ layout. layout.now) layout ≡ layout_for area name bytes.now self.old.layouts.now) }
        ensures long { IfOk result (λ layout. IfSome layout (λ layout. layout.now.record_length ≡ length bytes.now)) }
    {
        let layout = layout_among(self.layouts, area, name, bytes);
        if layout.is_none() {
            self.count(area, name)?;
        }
        Ok(layout)
    }

    /// Counts one record more of a file.
    fn count(&mut self, area: Area, name: Name) -> Result<(), AllocError> {
        let counted = self
            .unlaid
            .iter()
            .position(|file| file.area == area && file.name == name);
        match counted {
            Some(place) => {
                self.unlaid[place].count = self.unlaid[place].count.saturating_add(1);
                Ok(())
            }
            None => {
                self.unlaid.push(Unlaid {
                    area,
                    name,
                    count: 1,
                })?;
                Ok(())
            }
        }
    }
}

/// The first layout of a file with the length and the type of a record.
fn layout_among<'a>(
    layouts: &[FileLayout<'a>],
    area: Area,
    name: Name,
    bytes: &[u8],
) -> Option<&'a Layout>
    ensures first { option_map (λ layout. layout.now) result ≡ layout_for area name bytes.now layouts.now }
    ensures long { IfSome result (λ layout. layout.now.record_length ≡ length bytes.now) }
{
    for file in layouts {
        if is_layout_of(file, area, name, bytes) {
            return Some(file.layout);
        }
    }
    None
}

/// Whether a layout is the one for this record of a file.
fn is_layout_of(file: &FileLayout<'_>, area: Area, name: Name, bytes: &[u8]) -> bool
    ensures value { result ≡ is_layout_of_spec area name bytes.now file.now }
    ensures long { result ≡ true → file.now.layout.now.record_length ≡ length bytes.now }
{
    file.area.number() == area.number()
        && file.name == name
        && usize::from(file.layout.record_length) == bytes.len()
        && file.records.has(bytes)
}
