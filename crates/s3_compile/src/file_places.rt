//! The places of files among the F lines.

ghost use Rattle.std.specs.Prelude.{◌≡◌, ◌<◌, ◌+◌, ◌^◌, IfOk, OnOk, filter_map};
ghost use Rattle.s3_cards.specs.Names.{same_name};
ghost use Rattle.s3_meaning.specs.Source.{file_line};
ghost use Rattle.s3_program.specs.Conditions.{file_places as file_places_spec};
ghost use Rattle.s3_compile.specs.Inner.Noted.{Finds, FindsMore, place_on, place_behind};

use crate::noting::note;
use indexmap::IndexMap;
use s3_cards::Name;
use s3_lines::sheet::{Line, SheetLine};
use std::alloc::{AllocError, Global};

/// Adds the place of a line's file, if the line is its first.
fn note_place(
    table: &mut IndexMap<Name, usize>,
    place: usize,
    line: &Line,
) -> Result<(), AllocError>
    ensures { OnOk result (FindsMore same_name table.old table.new (place_on place line.now)) }
{
    if let SheetLine::File(file) = &line.sheet {
        note(table, file.name, place)?;
    }
    Ok(())
}

/// The place of the F line after a line.
fn place_behind_line(place: usize, line: &Line) -> usize
    requires { place + 1 < 2 ^ 64 }
    ensures { result ≡ place_behind place line.now }
{
    match &line.sheet {
        SheetLine::File(_) => place + 1,
        _ => place,
    }
}

/// For each file's name, the place of the first F line with it, from 0 among the F lines; refused only if memory runs out.
pub fn file_places(alloc: Global, lines: &[Line]) -> Result<IndexMap<Name, usize>, AllocError>
    ensures { IfOk result (λ table. Finds same_name table (file_places_spec 0 (filter_map file_line lines.now))) }
{
    let mut table = IndexMap::new(alloc);
    let mut place = 0;
    for line in lines {
        note_place(&mut table, place, line)?;
        place = place_behind_line(place, line);
    }
    Ok(table)
}
