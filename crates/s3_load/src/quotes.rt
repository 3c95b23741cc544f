//! A quote that is never closed.
ghost use Rattle.std.specs.Prelude.{◌≡◌, OnOk, None, IfErr};
ghost use Rattle.csv.specs.Reading.{is_bom, strip_bom};
ghost use Rattle.s3_load.specs.Inner.Quotes.{after as after_spec, after_plain as after_plain_spec, is_line_end as is_line_end_spec, open_quote as open_quote_spec, opened as opened_spec};
ghost use Rattle.s3_load.specs.Inner.Refusals.{NamesNone};

use crate::fault::LoadFault;
use crate::rows::Lines;

/// Where a reader of a table is.
#[derive(Clone, Copy)]
pub enum Reading {
    /// At the start of a cell.
    Start,
    /// In a cell without quotes, or after the closing quote of one.
    Plain,
    /// In quotes, which were opened at this place of the text.
    Quoted(usize),
    /// After a quote in quotes, which closes them or is the first of two.
    Closing(usize),
}

/// Refuses a table with a quote that is never closed, with the number of the line on which it is opened.
pub fn refuse_open_quote(text: &[u8], delimiter: u8) -> Result<(), LoadFault>
    ensures closed { OnOk result (open_quote_spec delimiter (strip_bom text.now) ≡ None) }
    ensures no_slot { IfErr result NamesNone }
{
    let table = without_mark(text);
    match open_quote(table, delimiter) {
        None => Ok(()),
        Some(place) => Err(LoadFault::OpenQuote(Lines::new(table).line_at(place as u64))),
    }
}

/// A text without a byte order mark at its start.
#[tactic(auto, using(crate::proofs::QuoteLemmas::short_text, crate::proofs::QuoteLemmas::mark_dropped, crate::proofs::QuoteLemmas::no_mark))]
fn without_mark(text: &[u8]) -> &[u8]
    ensures { result.now ≡ strip_bom text.now }
{
    if text.len() < 3 {
        return text;
    }
    if is_mark(text[0], text[1], text[2]) {
        &text[3..]
    } else {
        text
    }
}

/// Whether these bytes are a byte order mark.
fn is_mark(first: u8, second: u8, third: u8) -> bool
    ensures { result ≡ is_bom first second third }
{
    first == 0xef && second == 0xbb && third == 0xbf
}

/// The place of the quote in which a table ends, if it does.
fn open_quote(text: &[u8], delimiter: u8) -> Option<usize>
    ensures { result ≡ open_quote_spec delimiter text.now }
{
    let mut at = Reading::Start;
    for (place, byte) in text.iter().enumerate() {
        at = after(at, delimiter, place, *byte);
    }
    opened(at)
}

/// Where a reader is after a byte at a place.
fn after(at: Reading, delimiter: u8, place: usize, byte: u8) -> Reading
    ensures { result ≡ after_spec delimiter place byte at }
{
    match at {
        Reading::Start if byte == b'"' => Reading::Quoted(place),
        Reading::Start | Reading::Plain => after_plain(delimiter, byte),
        Reading::Quoted(opened) if byte == b'"' => Reading::Closing(opened),
        Reading::Quoted(opened) => Reading::Quoted(opened),
        Reading::Closing(opened) if byte == b'"' => Reading::Quoted(opened),
        Reading::Closing(_) => after_plain(delimiter, byte),
    }
}

/// Where a reader is after a byte outside of quotes.
fn after_plain(delimiter: u8, byte: u8) -> Reading
    ensures { result ≡ after_plain_spec delimiter byte }
{
    if byte == delimiter || is_line_end(byte) {
        Reading::Start
    } else {
        Reading::Plain
    }
}

/// Whether a byte ends a line.
pub fn is_line_end(byte: u8) -> bool
    ensures { result ≡ is_line_end_spec byte }
{
    byte == b'\n' || byte == b'\r'
}

/// The place of the quotes in which a reader is.
fn opened(at: Reading) -> Option<usize>
    ensures { result ≡ opened_spec at }
{
    match at {
        Reading::Quoted(opened) => Some(opened),
        Reading::Start | Reading::Plain | Reading::Closing(_) => None,
    }
}
