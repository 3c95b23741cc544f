//! How fields lie in records, and how their cells are written.
ghost use Rattle.std.specs.Prelude.{◌≡◌};

use crate::dates::DateField;
use crate::marks::{NumberCells, TextCells};

/// How a field lies in a record, with how many decimals if it is a number, and how its cells are written.
#[derive(Clone, Copy)]
pub enum FieldKind {
    /// Characters, a byte each.
    Text(TextCells),
    /// A number of one digit a byte, with so many decimals.
    Zoned(u8, NumberCells),
    /// A number of two digits a byte, with so many decimals.
    Packed(u8, NumberCells),
    /// A date of six digits: month, day and year.
    Date(DateField),
}

impl FieldKind {
    ghost use Rattle.s3_cells.specs.Inner.Values.{is_kind_of};

    /// Whether a field of so many bytes may lie so: a text of 1 to 256 characters, or a number of 1 to 15 digits, of which at
    /// most 9, and no more than there are, are decimals; or a date of six.
    pub fn suits(self, width: u16) -> bool
        ensures { result ≡ is_kind_of self width }
    {
        match self {
            FieldKind::Text(_) => 1 <= width && width <= 256,
            FieldKind::Zoned(decimals, _) => {
                1 <= width && width <= 15 && decimals <= 9 && u16::from(decimals) <= width
            }
            FieldKind::Packed(decimals, _) => {
                1 <= width && width <= 8 && decimals <= 9 && u16::from(decimals) < 2 * width
            }
            FieldKind::Date(_) => width == 6,
        }
    }
}
