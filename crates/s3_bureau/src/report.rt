//! A level's report: its printed lines as a text.
ghost use Rattle.std.specs.Prelude.{◌≡◌, ◌++◌, ◌∷◌, [], ◌≤◌, ◌<◌, ◌+◌, length, map, take, IfOk};
ghost use Rattle.s3_cards.specs.Codes.{shown_byte};
ghost use Rattle.s3_cards.specs.Numbers.{in_digits};
ghost use Rattle.s3_bureau.specs.Texts.{report_line, report_of};
ghost use Rattle.s3_bureau.specs.Inner.Underway.{AreTables, HasOnes, HasTens, IsLaid, ShowsCodes, ShowsPairs, ShowsPairsWith};

use itoa::Buffer;
use s3_cards::{PRINT_POSITIONS, PrintLine, host_byte, trim_end};
use std::alloc::{AllocError, Global};

/// The most bytes of a line of a report: page and line in up to five digits with a blank after each, the text, and what ends it.
const LONGEST_LINE: usize = 12 + PRINT_POSITIONS + 1;

/// A report gets room for so many bytes of each line at first.
const USUAL_LINE: usize = 64;

/// How many bytes are laid out at once, before they go into the report or are written.
pub const REPORT_ROOM: usize = 2_048;

/// What each line of a report is made with, so that two of its codes cost one look-up, and each digit of its page.
#[derive(Drop)]
pub struct ReportTables {
    /// The bytes that show each two codes, as one number whose first byte is the low one, at the place that the codes have so.
    shown: Vec<u16>,
    /// The first digit of each number below 100, in two.
    tens: [u8; 100],
    /// The second one.
    ones: [u8; 100],
}

/// The report of these printed lines: for each the page, its line on the page, and its text (docs/RUNNING.md, "The output"). It
/// is refused only if memory runs out.
pub fn report_text(alloc: Global, lines: &[PrintLine]) -> Result<Vec<u8>, AllocError>
    ensures { IfOk result (λ text. text.items ≡ report_of lines.now) }
{
    if lines.is_empty() {
        return Ok(Vec::new(alloc));
    }
    let tables = ReportTables::new(alloc)?;
    let mut text = Vec::with_capacity(alloc, lines.len().saturating_mul(USUAL_LINE))?;
    let mut room = [b' '; REPORT_ROOM];
    let mut rest = lines;
    while !rest.is_empty() {
        let (end, after) = tables.lay_lines(&mut room, rest);
        text.extend_from_slice(&room[..end])?;
        rest = after;
    }
    Ok(text)
}

impl ReportTables {
    /// Makes the tables; refused only if memory runs out.
    pub fn new(alloc: Global) -> Result<ReportTables, AllocError>
        ensures { IfOk result AreTables }
    {
        Ok(ReportTables {
            shown: shown_pairs(alloc)?,
            tens: first_digits(),
            ones: last_digits(),
        })
    }

    /// Lays out the report of the first of these lines, as many as fit, and answers where it ends, with the lines that are
    /// left.
    pub fn lay_lines<'l>(
        &self,
        room: &mut [u8; REPORT_ROOM],
        lines: &'l [PrintLine],
    ) -> (usize, &'l [PrintLine])
        requires { AreTables self.now }
        ensures laid { take result.0 room.new ++ report_of result.1.now ≡ report_of lines.entry.now }
        ensures within { result.0 ≤ 2048 }
        ensures fewer { 0 < length lines.entry.now → length result.1.now < length lines.entry.now }
    {
        let mut end = 0;
        let mut rest = lines;
        while let Some((line, after)) = rest.split_first() {
            if end + LONGEST_LINE > REPORT_ROOM {
                return (end, rest);
            }
            end = lay_line(room, end, self, line);
            rest = after;
        }
        (end, rest)
    }
}

/// Lays out a printed line from a place on, and answers the place at which it ends.
#[tactic(auto, using(crate::proofs::Laying::line_whole), unfolding(crate::specs::Texts::report_line))]
fn lay_line(
    room: &mut [u8; REPORT_ROOM],
    at: usize,
    tables: &ReportTables,
    line: &PrintLine,
) -> usize
    requires tables { AreTables tables.now }
    requires fits { at + 145 ≤ 2048 }
    ensures laid { IsLaid at result room.old room.new (report_line line.now) }
    ensures within { result ≤ 2048 }
{
    let text = lay_place(room, at, tables, line.page(), line.line());
    let end = lay_codes(room, text, &tables.shown, trim_end(line.text()));
    lay(room, end, b"\n")
}

/// Copies bytes to a place, and answers the place at which they end.
fn lay(room: &mut [u8; REPORT_ROOM], at: usize, bytes: &[u8]) -> usize
    requires { at + length bytes.now ≤ 2048 }
    ensures { IsLaid at result room.old room.new bytes.now }
{
    let end = at + bytes.len();
    room[at..end].copy_from_slice(bytes);
    end
}

/// Lays out the characters of codes. Sixteen of them go without a test in between.
fn lay_codes(room: &mut [u8; REPORT_ROOM], at: usize, shown: &[u16], codes: &[u8]) -> usize
    requires shown { ShowsPairs shown.now }
    requires all { length shown.now ≡ 65536 }
    requires fits { at + length codes.now ≤ 2048 }
    ensures { IsLaid at result room.old room.new (map shown_byte codes.now) }
{
    let mut end = at;
    let mut rest = codes;
    while let Some((sixteen, after)) = rest.split_first_chunk::<16>() {
        end = lay_pairs(room, end, shown, sixteen);
        rest = after;
    }
    lay_pairs(room, end, shown, rest)
}

/// Lays out the characters of codes, two at a time.
#[inline(always)]
fn lay_pairs(room: &mut [u8; REPORT_ROOM], at: usize, shown: &[u16], codes: &[u8]) -> usize
    requires shown { ShowsPairs shown.now }
    requires all { length shown.now ≡ 65536 }
    requires fits { at + length codes.now ≤ 2048 }
    ensures { IsLaid at result room.old room.new (map shown_byte codes.now) }
{
    let mut end = at;
    let mut rest = codes;
    while let Some((two, after)) = rest.split_first_chunk::<2>() {
        let [first, second] = shown_pair(shown, *two);
        room[end] = first;
        room[end + 1] = second;
        end += 2;
        rest = after;
    }
    if let Some(last) = rest.first() {
        room[end] = host_byte(*last);
        end += 1;
    }
    end
}

/// The bytes that show two codes.
fn shown_pair(shown: &[u16], codes: [u8; 2]) -> [u8; 2]
    requires shown { ShowsPairs shown.now }
    requires all { length shown.now ≡ 65536 }
    ensures { result ≡ map shown_byte codes }
{
    shown[usize::from(u16::from_le_bytes(codes))].to_le_bytes()
}

/// Lays out the page of a printed line and its line there, with a blank after each.
fn lay_place(
    room: &mut [u8; REPORT_ROOM],
    at: usize,
    tables: &ReportTables,
    page: u16,
    line: u8,
) -> usize
    requires tables { AreTables tables.now }
    requires fits { at + 12 ≤ 2048 }
    ensures laid { IsLaid at result room.old room.new (in_digits 4 page ++ 32 ∷ [] ++ in_digits 2 line ++ 32 ∷ []) }
    ensures within { result ≤ at + 12 }
{
    if page < 10_000 && line < 100 {
        lay(room, at, &place_in_eight(tables, page, line))
    } else {
        lay_long_place(room, at, page, line)
    }
}

/// Lays out a page and a line, either of which may be too great for its digits.
#[inline(never)]
fn lay_long_place(room: &mut [u8; REPORT_ROOM], at: usize, page: u16, line: u8) -> usize
    requires { at + 12 ≤ 2048 }
    ensures laid { IsLaid at result room.old room.new (in_digits 4 page ++ 32 ∷ [] ++ in_digits 2 line ++ 32 ∷ []) }
    ensures within { result ≤ at + 12 }
{
    let behind_page = lay_number(room, at, page, 4);
    let second = lay(room, behind_page, b" ");
    let behind_line = lay_number(room, second, u16::from(line), 2);
    lay(room, behind_line, b" ")
}

/// Lays out a number with zeros in front up to a width of at most five.
fn lay_number(room: &mut [u8; REPORT_ROOM], at: usize, number: u16, width: usize) -> usize
    requires { (at + 5 ≤ 2048) × (width ≤ 5) }
    ensures laid { IsLaid at result room.old room.new (in_digits width number) }
    ensures within { result ≤ at + 5 }
{
    let mut buffer = Buffer::new();
    let digits = buffer.format(number).as_bytes();
    let zeros = width.saturating_sub(digits.len());
    let first = lay(room, at, &[b'0'; 5][..zeros]);
    lay(room, first, digits)
}

/// A page of at most four digits and a line of at most two, with a blank after each.
#[inline(always)]
fn place_in_eight(tables: &ReportTables, page: u16, line: u8) -> [u8; 8]
    requires tables { AreTables tables.now }
    requires page { page < 10000 }
    requires line { line < 100 }
    ensures { result ≡ in_digits 4 page ++ 32 ∷ [] ++ in_digits 2 line ++ 32 ∷ [] }
{
    let front = (page / 100) as usize;
    let back = (page % 100) as usize;
    [
        tables.tens[front],
        tables.ones[front],
        tables.tens[back],
        tables.ones[back],
        b' ',
        tables.tens[line as usize],
        tables.ones[line as usize],
        b' ',
    ]
}

/// The bytes that show each two codes, a row for each second one.
fn shown_pairs(alloc: Global) -> Result<Vec<u16>, AllocError>
    ensures pairs { IfOk result (λ pairs. ShowsPairs pairs.items) }
    ensures all { IfOk result (λ pairs. length pairs.items ≡ 65536) }
{
    let shown = shown_bytes();
    let mut pairs = Vec::with_capacity(alloc, 65_536)?;
    for second in 0..256usize {
        pairs.extend_from_slice(&shown_row(&shown, shown[second]))?;
    }
    Ok(pairs)
}

/// The bytes that show each code with this byte after it.
fn shown_row(shown: &[u8; 256], second: u8) -> [u16; 256]
    requires { ShowsCodes shown.now }
    ensures { ShowsPairsWith second result }
{
    let mut row = [0; 256];
    for first in 0..256usize {
        row[first] = u16::from_le_bytes([shown[first], second]);
    }
    row
}

/// The byte that shows each code, in the order of the codes.
fn shown_bytes() -> [u8; 256]
    ensures { ShowsCodes result }
{
    let mut bytes = [b'?'; 256];
    for code in 0..256usize {
        bytes[code] = host_byte(code as u8);
    }
    bytes
}

/// The first digit of each number below 100, in two digits.
fn first_digits() -> [u8; 100]
    ensures { HasTens result }
{
    let mut digits = [b'0'; 100];
    for number in 0..100usize {
        digits[number] = b'0' + (number / 10) as u8;
    }
    digits
}

/// The last digit of each number below 100.
fn last_digits() -> [u8; 100]
    ensures { HasOnes result }
{
    let mut digits = [b'0'; 100];
    for number in 0..100usize {
        digits[number] = b'0' + (number % 10) as u8;
    }
    digits
}
