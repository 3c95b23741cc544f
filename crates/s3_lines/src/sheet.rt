//! The typed lines of the sheets (docs/LANGUAGE.md, "Sheets"). What an entry may be is said here for the whole language.
//!
//! A line is generic over `N`, by which it names a file, a field, a tag or a subroutine: on a sheet that is the name. Positions
//! are counted from 1, lengths in bytes, and characters are EBCDIC codes.

use crate::indicator::{Condition, Indicator};
use s3_cards::Name;
use s3_edit::EditCode;

/// What a program does with a file.
#[derive(Clone, Copy)]
pub enum FileUse {
    /// It reads the file.
    Input,
    /// It makes the file or adds to it.
    Output,
    /// It reads the file and writes changed records back.
    Update,
}

impl FileUse {
    ghost use Rattle.std.specs.Prelude.{◌≡◌};
    ghost use Rattle.s3_lines.specs.Files.{is_input_use, is_output_use};

    /// Whether the program reads the file and changes none of its records (I).
    pub fn is_input(self) -> bool
        ensures { result ≡ is_input_use self }
    {
        matches!(self, FileUse::Input)
    }

    /// Whether the program makes the file or adds to it (O).
    pub fn is_output(self) -> bool
        ensures { result ≡ is_output_use self }
    {
        matches!(self, FileUse::Output)
    }
}

/// How a program gets at the records of a file that it reads (F sheet, column 16).
#[derive(Clone, Copy)]
pub enum Designation {
    /// P: the cycle reads it, before the secondary files if the keys are the same.
    Primary,
    /// S: the cycle reads it, after the primary file if the keys are the same.
    Secondary,
    /// C: CHAIN finds its records, by key or by record number.
    Chained,
}

/// The device on which a file is (F sheet, columns 40 to 46).
#[derive(Clone, Copy)]
pub enum Device {
    /// MFCU1 or MFCU2.
    CardReader,
    /// PRINTER.
    Printer,
    /// DISK.
    Disk,
}

impl Device {
    ghost use Rattle.std.specs.Prelude.{◌≡◌};
    ghost use Rattle.s3_lines.specs.Files.{is_disk as is_disk_spec, is_printer as is_printer_spec};

    /// Whether it is PRINTER.
    pub fn is_printer(self) -> bool
        ensures { result ≡ is_printer_spec self }
    {
        matches!(self, Device::Printer)
    }

    /// Whether it is DISK.
    pub fn is_disk(self) -> bool
        ensures { result ≡ is_disk_spec self }
    {
        matches!(self, Device::Disk)
    }
}

/// Where the key of an indexed file lies in each record.
#[derive(Clone, Copy)]
pub struct KeyField {
    /// Its length in bytes, 1 to 29.
    pub length: u8,
    /// Its first position in the record, from 1.
    pub start: u16,
}

/// A line of the F sheet: a file, and what the program does with it.
#[derive(Clone, Copy)]
pub struct FileLine {
    /// The name that record and line cards use.
    pub name: Name,
    /// What the program does with the file.
    pub usage: FileUse,
    /// How the program accesses its records. None for a print file, and for a disk file that is only written in order.
    pub designation: Option<Designation>,
    /// Whether the end of this file counts for the end of the job (E in column 17).
    pub ends_job: bool,
    /// The length of its records in bytes: 1 to 96 for cards, 1 to 132 for print, 1 to 1,024 on disk.
    pub record_length: u16,
    /// R in column 28: its records are got at by CHAIN.
    pub is_random: bool,
    /// A in column 31: its records are addressed by their keys.
    pub is_keyed: bool,
    /// I in column 32: it has an index.
    pub is_indexed: bool,
    /// The place of the key in its records; only for a file that is addressed by keys and has an index.
    pub key: Option<KeyField>,
    /// The overflow indicator of a print file, OA to OG or OV, if it has one.
    pub overflow: Option<Indicator>,
    /// The device on which it is.
    pub device: Device,
    /// Whether records are added to it (A in column 66).
    pub has_additions: bool,
    /// The switch, U1 to U8, that must be on for the file to be used; none if it is always used.
    pub condition: Option<Indicator>,
}

impl FileLine {
    ghost use Rattle.std.specs.Prelude.{◌≡◌};
    ghost use Rattle.s3_lines.specs.declared.sheet.Designation.TheVariants.{Primary, Secondary};
    ghost use Rattle.s3_lines.specs.Files.{is_by_cycle as is_by_cycle_spec, is_chained as is_chained_spec, is_designated, is_only_read as is_only_read_spec};

    /// Whether its designation is primary (P).
    pub fn is_primary(&self) -> bool
        ensures { result ≡ is_designated Primary self.now }
    {
        matches!(self.designation, Some(Designation::Primary))
    }

    /// Whether its designation is secondary (S).
    pub fn is_secondary(&self) -> bool
        ensures { result ≡ is_designated Secondary self.now }
    {
        matches!(self.designation, Some(Designation::Secondary))
    }

    /// Whether the cycle reads it: its designation is primary or secondary.
    pub fn is_by_cycle(&self) -> bool
        ensures { result ≡ is_by_cycle_spec self.now.designation }
    {
        matches!(
            self.designation,
            Some(Designation::Primary | Designation::Secondary)
        )
    }

    /// Whether its designation is chained (C).
    pub fn is_chained(&self) -> bool
        ensures { result ≡ is_chained_spec self.now.designation }
    {
        matches!(self.designation, Some(Designation::Chained))
    }

    /// Whether it is only read: no record is added or changed.
    pub fn is_only_read(&self) -> bool
        ensures { result ≡ is_only_read_spec self.now }
    {
        self.usage.is_input() && !self.has_additions
    }
}

/// The part of a byte that a record code compares.
#[derive(Clone, Copy)]
pub enum CodePart {
    /// The whole byte.
    Character,
    /// The high four bits.
    Zone,
    /// The low four bits.
    Digit,
}

/// A record identification code: a test of one byte of a record, which distinguishes the types of records.
#[derive(Clone, Copy)]
pub struct RecordCode {
    /// The position of the byte, from 1, within the record.
    pub position: u16,
    /// Whether the part of the byte must differ from the part of the character; else both must be the same.
    pub negated: bool,
    /// Which part of the byte is compared.
    pub part: CodePart,
    /// The character that it is compared with, in EBCDIC.
    pub character: u8,
}

/// How a field lies in a record.
#[derive(Clone, Copy)]
pub enum FieldForm {
    /// Characters, a byte each.
    Alphanumeric,
    /// A number of one digit a byte, with so many decimals, 0 to 9.
    Zoned(u8),
    /// A number of two digits a byte, with so many decimals, 0 to 9.
    Packed(u8),
    /// P in column 43 without decimals, which no program may have.
    PackedText,
}

/// A field line of the I sheet: a field, and its position in the records of its types.
#[derive(Clone, Copy)]
pub struct FieldLine<N = Name> {
    /// The field; on a sheet its name has 1 to 6 characters.
    pub name: N,
    /// The first position, from 1.
    pub from: u16,
    /// The last position, at or after the first and within the record.
    pub to: u16,
    /// How it lies in those positions.
    pub form: FieldForm,
    /// The level of a control field, 1 to 9 for L1 to L9; none for any other field.
    pub control_level: Option<u8>,
    /// The level of a match field, 1 to 9 for M1 to M9; none for any other field.
    pub match_level: Option<u8>,
    /// The record identifying indicator without which the field isn't taken.
    pub relation: Option<Indicator>,
    /// The indicators that the field turns: on for plus, for minus, and for zero or blank.
    pub indicators: [Option<Indicator>; 3],
}

/// A line of the I sheet.
#[derive(Clone, Copy)]
pub enum InputLine<N = Name> {
    /// A type of records: its file, its record identifying indicator, and the codes that its records have.
    Record(N, Indicator, [Option<RecordCode>; 3]),
    /// An AND line: further codes that the type of the line above asks for.
    And([Option<RecordCode>; 3]),
    /// An OR line: another type with the same fields, its record identifying indicator and its codes.
    Or(Indicator, [Option<RecordCode>; 3]),
    /// A field of the types above.
    Field(FieldLine<N>),
}

/// A number written on a C line.
#[derive(Clone, Copy)]
pub struct NumberLiteral {
    /// Its value in units of its last decimal.
    pub value: i64,
    /// How many digits it has, 1 to 10.
    pub digits: u8,
    /// The number of digits after the point, 0 to 9.
    pub decimals: u8,
}

/// A text written on a C line, in apostrophes.
#[derive(Clone, Copy)]
pub struct TextLiteral {
    /// Its characters in EBCDIC, padded with blanks on the right.
    pub codes: [u8; 8],
    /// How many characters it has, 1 to 8.
    pub length: u8,
}

/// Factor 1 or factor 2 of a C line.
#[derive(Clone, Copy)]
pub enum Factor<N = Name> {
    /// The field, file, tag or subroutine with this name.
    Named(N),
    /// A literal number.
    Number(NumberLiteral),
    /// A literal text.
    Text(TextLiteral),
}

/// The operation of a C line (docs/LANGUAGE.md, "Operations").
#[derive(Clone, Copy)]
pub enum Operation {
    /// ADD: the result is the sum of factor 1 and factor 2.
    Add,
    /// SUB: the result is factor 1 less factor 2.
    Subtract,
    /// MULT: the result is factor 1 times factor 2.
    Multiply,
    /// DIV: the result is factor 1 divided by factor 2.
    Divide,
    /// Z-ADD: the result is factor 2.
    ZeroAdd,
    /// Z-SUB: the result is the negative of factor 2.
    ZeroSubtract,
    /// MVR: the result is the remainder of the DIV before.
    MoveRemainder,
    /// COMP: factor 1 is high, low or equal to factor 2, as the indicators say then.
    Compare,
    /// MOVE: factor 2 goes into the result from the right.
    Move,
    /// MOVEL: factor 2 goes into the result from the left.
    MoveLeft,
    /// SETON: turns its indicators on.
    SetOn,
    /// SETOF: its indicators go off.
    SetOff,
    /// GOTO: the calculations continue at the tag in factor 2.
    GoTo,
    /// TAG: the place, named in factor 1, at which a GOTO continues.
    Tag,
    /// EXSR: the subroutine in factor 2 is done.
    ExecuteSubroutine,
    /// BEGSR: the subroutine in factor 1 begins.
    BeginSubroutine,
    /// ENDSR: the subroutine ends.
    EndSubroutine,
    /// EXCPT: writes the exception lines.
    Except,
    /// CHAIN: the record with the key or the number in factor 1 is read from the file in factor 2.
    Chain,
    /// Any other word, which no program may have.
    Unknown,
}

/// When a C line is done (columns 7 and 8).
#[derive(Clone, Copy)]
pub enum CalculationTime {
    /// Blank: once for each record, when its fields have been moved.
    Detail,
    /// L0 to L9 or LR: with the totals, while this indicator is on.
    Total(Indicator),
    /// SR: as part of a subroutine, when an EXSR names that.
    Subroutine,
    /// AN: it adds conditions, all of which must hold, to those of the line above.
    And,
    /// OR: it has other conditions, which may hold in place of those of the line above.
    Or,
}

/// What kind of value a field holds, and how long it is.
#[derive(Clone, Copy)]
pub enum Shape {
    /// A text of so many characters, 1 to 256.
    Alphanumeric(u16),
    /// A number of so many digits, 1 to 15, with so many decimals, 0 to 9.
    Numeric(u8, u8),
}

/// A line of the C sheet.
#[derive(Clone, Copy)]
pub struct CalculationLine<N = Name> {
    /// When it is done.
    pub time: CalculationTime,
    /// The conditions that must hold for it; none if the columns are blank.
    pub conditions: [Option<Condition>; 3],
    /// Factor 1, in columns 18 to 27.
    pub factor1: Option<Factor<N>>,
    /// What it does; none on a line whose conditions continue with the next line.
    pub operation: Option<Operation>,
    /// Factor 2, in columns 33 to 42.
    pub factor2: Option<Factor<N>>,
    /// The field that it gives a value.
    pub result: Option<N>,
    /// The shape that the line gives its result, if the line defines it.
    pub definition: Option<Shape>,
    /// Whether the result is half adjusted: 5 is added at the first digit dropped.
    pub half_adjust: bool,
    /// The resulting indicators of columns 54-55, 56-57 and 58-59.
    pub indicators: [Option<Indicator>; 3],
}

/// When an output line is written (O sheet, column 15).
#[derive(Clone, Copy)]
pub enum OutputKind {
    /// H: at the start of a cycle, as a heading.
    Heading,
    /// D: at the start of a cycle.
    Detail,
    /// T: after the total calculations.
    Total,
    /// E: when an EXCPT asks for it.
    Exception,
}

/// How an output line moves the carriage: spaces and skips, each none if its entry is blank.
#[derive(Clone, Copy)]
pub struct Spacing {
    /// The number of lines that the carriage moves before the line is printed, 0 to 3.
    pub space_before: Option<u8>,
    /// The number of lines that the carriage moves after the line is printed, 0 to 3.
    pub space_after: Option<u8>,
    /// To which line of a page it goes before the line is printed, 1 to 66.
    pub skip_before: Option<u8>,
    /// To which line of a page it goes after the line is printed, 1 to 66.
    pub skip_after: Option<u8>,
}

/// The first card of an output line.
#[derive(Clone, Copy)]
pub struct OutputCard<N = Name> {
    /// The file that the line goes to; without a name that is the file of the output line before.
    pub file: Option<N>,
    /// When the line is written.
    pub kind: OutputKind,
    /// Whether it adds a record to a disk file (ADD in columns 16 to 18).
    pub is_addition: bool,
    /// How the carriage moves for it.
    pub spacing: Spacing,
    /// The conditions that must hold for it; none if the columns are blank.
    pub conditions: [Option<Condition>; 3],
}

/// A constant text of an output line.
#[derive(Clone, Copy)]
pub struct Constant {
    /// Its characters in EBCDIC, padded with blanks on the right.
    pub codes: [u8; 24],
    /// How many characters it has, 1 to 24.
    pub length: u8,
}

/// How a field is written.
#[derive(Clone, Copy)]
pub enum OutputForm {
    /// Its characters, or its digits, a byte each.
    Plain,
    /// A number packed, two digits a byte.
    Packed,
    /// A number edited by an edit code.
    Edited(EditCode),
}

/// A field of an output line, and how it is written.
#[derive(Clone, Copy)]
pub struct FieldOutput<N = Name> {
    /// The field.
    pub name: N,
    /// How it is written.
    pub form: OutputForm,
    /// Whether it becomes 0 or blanks afterwards (B in column 39).
    pub blank_after: bool,
}

/// What a field card writes.
#[derive(Clone, Copy)]
pub enum OutputContent<N = Name> {
    /// A constant text.
    Constant(Constant),
    /// The value that a field has at that time.
    Field(FieldOutput<N>),
}

/// A field card of the O sheet: one part of an output line.
#[derive(Clone, Copy)]
pub struct OutputField<N = Name> {
    /// The conditions that must hold for it; none if the columns are blank.
    pub conditions: [Option<Condition>; 3],
    /// What is written.
    pub content: OutputContent<N>,
    /// The position of its last character in the record, from 1.
    pub end: u16,
}

/// A line of the O sheet.
#[derive(Clone, Copy)]
pub enum OutputLine<N = Name> {
    /// The first card of an output line.
    Line(OutputCard<N>),
    /// An AND card: conditions that must hold beside those of the card above.
    And([Option<Condition>; 3]),
    /// An OR card: conditions that may hold in place of those of the cards above.
    Or([Option<Condition>; 3]),
    /// A field card: a part of the line above.
    Field(OutputField<N>),
}

/// A line of a sheet.
#[derive(Clone, Copy)]
pub enum SheetLine {
    /// A card of the H sheet, with the program's name if it has one.
    Header(Option<Name>),
    /// A card of the F sheet.
    File(FileLine),
    /// A card of the I sheet.
    Input(InputLine),
    /// A card of the C sheet.
    Calculation(CalculationLine),
    /// A card of the O sheet.
    Output(OutputLine),
}

/// A line of a sheet with the number of its card.
#[derive(Clone, Copy)]
pub struct Line {
    /// The number of its card in the deck, from 1.
    pub card: u16,
    /// What the card says.
    pub sheet: SheetLine,
}
