//! The files and the fields that the cards so far define, by their names. Whether one is known costs the same however many
//! there are.
ghost use Rattle.std.specs.Prelude.{◌≡◌, ◌++◌, [], None, Some, length, OnOk, is_some};
ghost use Rattle.std.specs.Option.{option_to_list};
ghost use Rattle.s3_sheets.specs.Sheets.{record_length_of, new_file, new_field};

use indexmap::{IndexMap, IndexSet};
use s3_cards::Name;
use std::alloc::{AllocError, Global};
use std::marker::Model;

/// Files in the order of their cards, each name once, with the length of its records in bytes.
#[derive(Drop)]
pub struct KnownFiles {
    lengths: IndexMap<Name, u16>,
}

impl Model for KnownFiles {
    ghost use Rattle.std.specs.Prelude.{ℕ, List};
    ghost use Rattle.s3_cards.specs.declared.name.Name.{Name};

    ghost Value = { List (Name × ℕ) };

    ghost view = { λ files. files.lengths.entries };
}

impl KnownFiles {
    /// No files.
    pub fn new(alloc: Global) -> KnownFiles
        ensures { result ≡ [] }
    {
        KnownFiles {
            lengths: IndexMap::new(alloc),
        }
    }

    /// How many files there are.
    pub fn len(&self) -> usize
        ensures { result ≡ length self.now }
    {
        self.lengths.len()
    }

    /// The length in bytes of the records of the file with this name, if such a file is known.
    pub fn record_length(&self, name: &Name) -> Option<u16>
        ensures { result ≡ record_length_of self.now name.now }
    {
        self.lengths.get(name).copied()
    }

    /// Puts the file, with the length of its records, after the others, if there is one and its name isn't known yet. It is
    /// refused only if memory runs out.
    #[tactic(auto, using(crate::proofs::KnownLemmas::known_file, crate::proofs::KnownLemmas::unknown_file))]
    pub fn add(&mut self, file: Option<(Name, u16)>) -> Result<(), AllocError>
        ensures { OnOk result (self.new ≡ self.old ++ option_to_list (new_file self.old file)) }
    {
        let Some((name, record_length)) = file else {
            return Ok(());
        };
        if self.record_length(&name).is_some() {
            return Ok(());
        }
        self.lengths.insert(name, record_length)?;
        Ok(())
    }
}

/// Fields in the order of their cards, each name once.
#[derive(Drop)]
pub struct KnownFields {
    names: IndexSet<Name>,
}

impl Model for KnownFields {
    ghost use Rattle.std.specs.Prelude.{List};
    ghost use Rattle.s3_cards.specs.declared.name.Name.{Name};

    ghost Value = { List Name };

    ghost view = { λ fields. fields.names.keys };
}

impl KnownFields {
    /// No fields.
    pub fn new(alloc: Global) -> KnownFields
        ensures { result ≡ [] }
    {
        KnownFields {
            names: IndexSet::new(alloc),
        }
    }

    /// How many fields there are.
    pub fn len(&self) -> usize
        ensures { result ≡ length self.now }
    {
        self.names.len()
    }

    /// Puts the field after the others, if there is one that isn't known yet. It is refused only if memory runs out.
    pub fn add(&mut self, field: Option<Name>) -> Result<(), AllocError>
        ensures { OnOk result (self.new ≡ self.old ++ option_to_list (new_field self.old field)) }
    {
        match field {
            None => Ok(()),
            Some(name) => self.put(name),
        }
    }

    #[tactic(auto, using(crate::proofs::KnownLemmas::field_put_in))]
    fn put(&mut self, name: Name) -> Result<(), AllocError>
        ensures { OnOk result (self.new ≡ self.old ++ option_to_list (new_field self.old (Some name))) }
    {
        self.names.insert(name)?;
        Ok(())
    }
}
