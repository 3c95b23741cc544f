//! A field of a record, and its cell in a table.
ghost use Rattle.std.specs.Prelude.{◌≡◌, true};
ghost use Rattle.s3_cells.specs.Inner.Values.{is_kind_of};

use crate::dates::show_date;
use crate::fault::{CellFault, ShowFault};
use crate::forms::{show_packed, show_text, show_zoned, take_into, zero_into};
use crate::kind::FieldKind;
use s3_cards::Name;
use std::alloc::Global;

/// A field of a record.
#[derive(Clone, Copy)]
pub struct Field {
    /// Its name.
    pub name: Name,
    /// Its first byte in the record, from 0.
    pub start: u16,
    /// How many bytes it has.
    pub width: u16,
    /// How it lies in them, and how its cells are written.
    pub kind: FieldKind,
    pub ghost suits: { is_kind_of kind width ≡ true },
}

impl Field {
    ghost use Rattle.std.specs.Prelude.{◌+◌, ◌≤◌, ◌++◌, length, OnOk, OnErr, IfErr};
    ghost use Rattle.s3_cells.specs.Inner.Fields.{IsNotTaken, Takes, cell_of, is_shown, zeroed};
    ghost use Rattle.s3_cells.specs.Inner.Refusals.{IsHidden, IsRefusal};

    /// Appends the cell that shows the field's value in a record. Refused with `NoCharacter` at a byte of a text that no card
    /// has, and with `NoNumber` if a number has a digit above 9, and with `NoDate` if a date isn't one of the calendar; then the
    /// cell may be longer than it was.
    pub fn show(&self, record_bytes: &[u8], cell: &mut Vec<u8>) -> Result<(), ShowFault>
        requires { self.now.start + self.now.width ≤ length record_bytes.now }
        ensures ok { OnOk result (cell.new.items ≡ cell.old.items ++ cell_of self.now record_bytes.now) }
        ensures shown { OnOk result (is_shown self.now record_bytes.now ≡ true) }
        ensures err { IfErr result (IsHidden (is_shown self.now record_bytes.now)) }
    {
        let start = usize::from(self.start);
        let bytes = &record_bytes[start..start + usize::from(self.width)];
        match self.kind {
            FieldKind::Text(cells) => show_text(cells, bytes, self.start, cell),
            FieldKind::Zoned(decimals, cells) => show_zoned(decimals, cells, bytes, cell),
            FieldKind::Packed(decimals, cells) => show_packed(decimals, cells, bytes, cell),
            FieldKind::Date(form) => show_date(form, bytes, cell),
        }
    }

    /// Puts the value that a cell says into a record. If it is refused, the record stays as it was.
    pub fn take(&self, alloc: Global, cell: &[u8], record_bytes: &mut [u8]) -> Result<(), CellFault>
        requires { self.now.start + self.now.width ≤ length record_bytes.old }
        ensures ok { OnOk result (Takes self.now cell.now record_bytes.old record_bytes.new) }
        ensures err { IfErr result (IsRefusal (IsNotTaken self.now cell.now)) }
        ensures same { OnErr result (record_bytes.new ≡ record_bytes.old) }
    {
        let start = usize::from(self.start);
        let bytes = &mut record_bytes[start..start + usize::from(self.width)];
        take_into(alloc, self.kind, cell, bytes)
    }

    /// Makes a number 0 in a record, and a date that is a number no date; a text stays.
    pub fn make_zero(&self, record_bytes: &mut [u8])
        requires { self.now.start + self.now.width ≤ length record_bytes.old }
        ensures { record_bytes.new ≡ zeroed record_bytes.old self.now }
    {
        let start = usize::from(self.start);
        let bytes = &mut record_bytes[start..start + usize::from(self.width)];
        zero_into(self.kind, bytes)
    }
}
