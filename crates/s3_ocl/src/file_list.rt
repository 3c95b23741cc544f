//! The files of a job's FILE statements, as far as they are read.
ghost use Rattle.std.specs.Prelude.{◌≡◌, ◌++◌, ◌∷◌, [], List, OnOk, Some, take};
ghost use Rattle.s3_ocl.specs.Faults.{is_taken as is_taken_spec};

use super::contents::FileStatement;
use indexmap::IndexSet;
use s3_cards::Name;
use std::alloc::{AllocError, Global};
use std::marker::Model;

/// So many files are looked through for a name; the names of more files are in a set.
const FEW: usize = 8;

/// Files in their order. Whether one of them has a name costs the same for any number of files above eight.
#[derive(Drop)]
pub struct FileList {
    files: Vec<FileStatement>,
    /// The names of the files after the first eight.
    names: IndexSet<Name>,
}

impl Model for FileList {
    ghost use Rattle.std.specs.Prelude.{◌≡◌, List, Some, drop};
    ghost use Rattle.indexmap.specs.IndexSet.{contains};
    ghost use Rattle.s3_cards.specs.declared.name.Name.{Name};
    ghost use Rattle.s3_cards.specs.Names.{same_name};
    ghost use Rattle.s3_ocl.specs.declared.contents.FileStatement.{FileStatement};
    ghost use Rattle.s3_ocl.specs.Faults.{is_taken};

    ghost Value = { List FileStatement };

    ghost view = { λ list. list.files.items };

    ghost invariant = { λ list. (name : Name) → contains same_name list.names name ≡ is_taken (drop 8 list.files.items) (Some name) };
}

/// The first eight of these files, or all if there are fewer.
fn first_few(files: &[FileStatement]) -> &[FileStatement]
    ensures { result.now ≡ take 8 files.now }
{
    &files[..files.len().min(FEW)]
}

/// Whether one of these files has this name.
fn is_taken(files: &[FileStatement], name: Name) -> bool
    ensures { result ≡ is_taken_spec files.now (Some name) }
{
    files.iter().any(|file| file.name == name)
}

impl FileList {
    /// No files.
    pub fn new(alloc: Global) -> FileList
        ensures { result ≡ [] }
    {
        FileList {
            files: Vec::new(alloc),
            names: IndexSet::new(alloc),
        }
    }

    /// Whether a file has this name.
    #[tactic(auto, using(crate::proofs::FileLemmas::taken_in_parts))]
    pub fn has(&self, name: Name) -> bool
        ensures { result ≡ is_taken_spec self.now (Some name) }
    {
        is_taken(first_few(&self.files), name) || self.names.contains(&name)
    }

    /// Puts a file last.
    #[tactic(auto, using(crate::proofs::FileLemmas::file_more, crate::proofs::FileLemmas::file_of_few))]
    pub fn push(&mut self, file: FileStatement) -> Result<(), AllocError>
        ensures { OnOk result (self.new ≡ self.old ++ file ∷ []) }
    {
        self.files.reserve(1)?;
        if self.files.len() < FEW {
            self.files.push_reserved(file);
            return Ok(());
        }
        self.names.insert(file.name)?;
        self.files.push_reserved(file);
        Ok(())
    }

    /// The files, in their order.
    pub fn into_vec(self) -> Vec<FileStatement>
        ensures { result.items ≡ self }
    {
        self.files
    }
}
