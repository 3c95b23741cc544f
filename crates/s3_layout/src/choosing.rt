//! The file that is meant.
ghost use Rattle.std.specs.Prelude.{◌≡◌, ◌++◌, IfOk, OnOk};
ghost use Rattle.std.specs.List.{flat_map};
ghost use Rattle.s3_layout.specs.Inner.Files.{Chooses, chosen_file as chosen_file_spec, disk_file, on_disk, named_file as named_file_spec, only_file as only_file_spec};

use crate::fault::LayoutFault;
use s3_cards::Name;
use s3_lines::indicator::Indicator;
use s3_lines::sheet::{Device, FileLine, Line, SheetLine};
use std::alloc::{AllocError, Global};

/// Which records of a source are meant.
#[derive(Clone, Copy)]
pub struct Choice {
    /// Their file, if the source has several on disk.
    pub file: Option<Name>,
    /// The record identifying indicator of their type, if the file has several.
    pub record_type: Option<Indicator>,
}

/// The file on disk of a name, or without a name the only one.
pub fn chosen_file(
    alloc: Global,
    lines: &[Line],
    name: Option<Name>,
) -> Result<FileLine, LayoutFault>
    ensures { Chooses (chosen_file_spec name lines.now) result }
{
    let files = disk_files(alloc, lines)?;
    match name {
        Some(name) => named_file(&files, name),
        None => only_file(&files),
    }
}

/// The lines of the files on disk.
fn disk_files(alloc: Global, lines: &[Line]) -> Result<Vec<FileLine>, AllocError>
    ensures { IfOk result (λ files. files.items ≡ flat_map disk_file lines.now) }
{
    let mut files = Vec::new(alloc);
    for line in lines {
        push_disk_file(&mut files, line)?;
    }
    Ok(files)
}

/// Adds the file of a line that has one on disk.
fn push_disk_file(files: &mut Vec<FileLine>, line: &Line) -> Result<(), AllocError>
    ensures { OnOk result (files.new.items ≡ files.old.items ++ disk_file line.now) }
{
    match line.sheet {
        SheetLine::File(file) => push_on_disk(files, file),
        _ => Ok(()),
    }
}

fn push_on_disk(files: &mut Vec<FileLine>, file: FileLine) -> Result<(), AllocError>
    ensures { OnOk result (files.new.items ≡ files.old.items ++ on_disk file) }
{
    match file.device {
        Device::Disk => {
            files.push(file)?;
            Ok(())
        }
        Device::CardReader | Device::Printer => Ok(()),
    }
}

fn only_file(files: &[FileLine]) -> Result<FileLine, LayoutFault>
    ensures { result ≡ only_file_spec files.now }
{
    match files {
        [] => Err(LayoutFault::NoFile),
        [file] => Ok(*file),
        _ => Err(LayoutFault::SeveralFiles),
    }
}

/// The first file of a name.
fn named_file(files: &[FileLine], name: Name) -> Result<FileLine, LayoutFault>
    ensures { result ≡ named_file_spec name files.now }
{
    for file in files {
        if file.name == name {
            return Ok(*file);
        }
    }
    Err(LayoutFault::OtherFile)
}
