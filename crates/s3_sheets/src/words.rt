//! Words of the sheets.

use s3_cards::punched;

/// The device of the first card reader.
pub const MFCU1: [u8; 7] = punched!(7, b"MFCU1  ");
/// The device of the second card reader.
pub const MFCU2: [u8; 7] = punched!(7, b"MFCU2  ");
/// The device of the printer.
pub const PRINTER: [u8; 7] = punched!(7, b"PRINTER");
/// The device of files on the pack.
pub const DISK: [u8; 7] = punched!(7, b"DISK   ");

/// The word of an AND line of the I or O sheet, which continues with the codes or conditions above.
pub const AND: [u8; 3] = punched!(3, b"AND");
/// The word of an OR line of the I or O sheet, which has codes or conditions in place of those above.
pub const OR: [u8; 3] = punched!(3, b"OR ");
/// The word of an output line that adds a record.
pub const ADD: [u8; 3] = punched!(3, b"ADD");

/// The level entry of a C line of a subroutine.
pub const SR: [u8; 2] = punched!(2, b"SR");
/// The level entry of a C line that continues with the conditions above.
pub const AN: [u8; 2] = punched!(2, b"AN");
/// The level entry of a C line with conditions in place of those above.
pub const OR_IN_LEVEL: [u8; 2] = punched!(2, b"OR");

/// CHAIN, the operation whose factor 2 is a file.
pub const CHAIN: [u8; 5] = punched!(5, b"CHAIN");
