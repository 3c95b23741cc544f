//! Finds what lines define.

ghost use Rattle.std.specs.Prelude.{◌≡◌, IfOk, OnOk};
ghost use Rattle.std.specs.Option.{option_to_list};
ghost use Rattle.s3_program.specs.Inner.Given as spec;

use indexmap::IndexMap;
use s3_cards::Name;
use s3_lines::sheet::{FileLine, Line, SheetLine};
use std::alloc::{AllocError, Global};

/// Puts an entry for a name after the others of a table, unless the name is there already. It is refused only if memory runs out.
pub fn note<T: Copy>(
    table: &mut IndexMap<Name, T>,
    name: Name,
    meaning: T,
) -> Result<(), AllocError>
    ensures { OnOk result (table.new.entries ≡ spec.noted table.old.entries (name, meaning)) }
{
    if !table.contains_key(&name) {
        table.insert(name, meaning)?;
    }
    Ok(())
}

/// Adds the file of a line.
#[tactic(auto, unfolding(crate::specs::Inner::Given::all_noted))]
fn note_file(table: &mut IndexMap<Name, FileLine>, line: &Line) -> Result<(), AllocError>
    ensures { OnOk result (table.new.entries ≡ spec.all_noted table.old.entries (option_to_list (spec.file_given line.now))) }
{
    if let SheetLine::File(file) = line.sheet {
        note(table, file.name, file)?;
    }
    Ok(())
}

/// The files that lines define, each under its name and by the first F line with that name; refused only if memory runs out.
pub fn files_defined(alloc: Global, lines: &[Line]) -> Result<IndexMap<Name, FileLine>, AllocError>
    ensures { IfOk result (λ table. table.entries ≡ spec.firsts (spec.files_given lines.now)) }
{
    let mut table = IndexMap::new(alloc);
    for line in lines {
        note_file(&mut table, line)?;
    }
    Ok(table)
}
