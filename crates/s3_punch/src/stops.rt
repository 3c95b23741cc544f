//! The tab stops: the columns in which the entries of a sheet begin, and elsewhere every eighth column.
ghost use Rattle.std.specs.Prelude.{◌≡◌, ◌+◌, ◌-◌, ◌<◌, ◌^◌, ◌++◌, find, length, nat_lt, option_map, replicate, OnOk, None, if◌then◌else◌};
ghost use Rattle.s3_punch.specs.Inner.Stops.{starts_of as starts_of_spec, starts_on as starts_on_spec, tabbed, up_to_eighth as up_to_eighth_spec, up_to_start as up_to_start_spec, up_to_stop};

use std::alloc::AllocError;

/// Where the letter of the sheet is.
pub const SHEET_STARTS: [usize; 1] = [6];

/// The H sheet: a comment's `*`, the program's name.
pub const HEADER_STARTS: [usize; 2] = [7, 75];

/// The F sheet: name, type, designation, end of file, sequence, format, block length, record length, mode, key length, record
/// address type, organization, overflow indicator, key start, device, addition, switch, identification.
pub const FILE_STARTS: [usize; 18] = [
    7, 15, 16, 17, 18, 19, 20, 24, 28, 29, 31, 32, 33, 35, 40, 66, 71, 75,
];

/// The I sheet. Record lines: name, sequence, indicator, three codes of position, N, part and character. Field lines: packed,
/// from, to, decimals, name, control level, match level, relation, plus, minus, zero, identification.
pub const INPUT_STARTS: [usize; 27] = [
    7, 15, 19, 21, 25, 26, 27, 28, 32, 33, 34, 35, 39, 40, 41, 43, 44, 48, 52, 53, 59, 61, 63, 65,
    67, 69, 75,
];

/// The C sheet: level, three conditions, factor 1, operation, factor 2, result, length, decimals, half adjust, three resulting
/// indicators, remark, identification.
pub const CALCULATION_STARTS: [usize; 16] = [
    7, 9, 12, 15, 18, 28, 33, 43, 49, 52, 53, 54, 56, 58, 60, 75,
];

/// The O sheet: name, type, ADD or space before, space after, skip before, skip after, three conditions, field, edit code, blank
/// after, end position, packed, constant, identification.
pub const OUTPUT_STARTS: [usize; 16] = [
    7, 15, 16, 18, 19, 21, 23, 26, 29, 32, 38, 39, 40, 44, 45, 75,
];

static OF_SHEETS: [usize; 1] = SHEET_STARTS;

static OF_HEADERS: [usize; 2] = HEADER_STARTS;

static OF_FILES: [usize; 18] = FILE_STARTS;

static OF_INPUT: [usize; 27] = INPUT_STARTS;

static OF_CALCULATIONS: [usize; 16] = CALCULATION_STARTS;

static OF_OUTPUT: [usize; 16] = OUTPUT_STARTS;

/// The columns in which the entries of a sheet begin, by its letter.
fn starts_of(letter: u8) -> Option<&'static [usize]>
    ensures { option_map (λ starts. starts.now) result ≡ starts_of_spec letter }
{
    match letter {
        b'H' => Some(&OF_HEADERS),
        b'F' => Some(&OF_FILES),
        b'I' => Some(&OF_INPUT),
        b'C' => Some(&OF_CALCULATIONS),
        b'O' => Some(&OF_OUTPUT),
        _ => None,
    }
}

/// The columns in which the entries of a card's sheet begin, by as much of it as is written.
fn starts_on(card: &[u8]) -> Option<&'static [usize]>
    ensures { option_map (λ starts. starts.now) result ≡ starts_on_spec card.now }
{
    match card.get(5) {
        Some(letter) => starts_of(*letter),
        None if card.len() < 5 => Some(&OF_SHEETS),
        None => None,
    }
}

/// How many columns are filled before the next start, or of column 97.
fn up_to_start(starts: &[usize], width: usize) -> usize
    requires { width < 2 ^ 63 }
    ensures { result ≡ up_to_start_spec starts.now width }
{
    next_start(starts, width).unwrap_or(97).saturating_sub(1)
}

/// The first start after the column that is to be filled next.
fn next_start(starts: &[usize], width: usize) -> Option<usize>
    requires { width < 2 ^ 63 }
    ensures { result ≡ find (λ start. nat_lt (width + 1) start) starts.now }
{
    starts.iter().copied().find(|start| width + 1 < *start)
}

/// How many columns are filled before the next one of columns 9, 17, 25 and so on.
fn up_to_eighth(width: usize) -> usize
    requires { width < 2 ^ 63 }
    ensures { result ≡ up_to_eighth_spec width }
{
    (width / 8 + 1) * 8
}

/// How many columns are filled before the next stop.
fn next_stop(card: &[u8], is_source: bool) -> usize
    requires { length card.now < 2 ^ 63 }
    ensures { result ≡ up_to_stop (if is_source then starts_on_spec card.now else None) (length card.now) }
{
    let starts = if is_source { starts_on(card) } else { None };
    match starts {
        Some(starts) => up_to_start(starts, card.len()),
        None => up_to_eighth(card.len()),
    }
}

/// Fills a card up to a width, if it isn't so wide.
#[tactic(auto, using(crate::proofs::PieceLemmas::wider, crate::proofs::PieceLemmas::as_wide))]
pub fn fill_up(card: &mut Vec<u8>, width: usize, byte: u8) -> Result<(), AllocError>
    ensures { OnOk result (card.new.items ≡ card.old.items ++ replicate (width - length card.old.items) byte) }
{
    if card.len() < width {
        card.resize(width, byte)?;
    }
    Ok(())
}

/// Fills a card with blanks up to the next stop of its sheet, or, if it is of no sheet, of every eighth column.
pub fn tab(card: &mut Vec<u8>, is_source: bool) -> Result<(), AllocError>
    ensures { OnOk result (card.new.items ≡ tabbed is_source card.old.items) }
{
    let stop = next_stop(card, is_source);
    fill_up(card, stop, b' ')
}
