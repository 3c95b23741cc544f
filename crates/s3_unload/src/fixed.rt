//! A file as records of a fixed length, for other programs.
ghost use Rattle.std.specs.Prelude.{◌≡◌, ◌<◌, ◌+◌, ◌++◌, ◌∷◌, [], true, length, map, OnOk, OnErr, IfOk, IfErr};
ghost use Rattle.std.specs.List.{list_all};
ghost use Rattle.s3_slots.specs.Inner.Kept.{IsOfPack};
ghost use Rattle.s3_cards.specs.Codes.{shown_byte};
ghost use Rattle.s3_cells.specs.Inner.Texts.{has_character};
ghost use Rattle.s3_labels.specs.Contents.{contents_of};
ghost use Rattle.s3_record_types.specs.Inner.Chosen.{chosen_of, is_chosen};
ghost use Rattle.s3_unload.specs.Inner.Fixed.{IsFixedRefusal, IsUnfit, IsUnfixed, UnloadsFixed, end_of, fixed_of, fixed_text, is_fixed, line_feed_of};
ghost use Rattle.s3_unload.specs.Inner.Opened.{IsOpened};
ghost use Rattle.s3_unload.specs.Inner.Ordered.{ordered};

use crate::fault::UnloadFault;
use crate::found::find_file;
use crate::ordered::Records;
use s3_cards::{Name, push_characters};
use s3_cells::place_without_character;
use s3_labels::Area;
use s3_record_types::ChosenRecords;
use s3_slots::FileLabel;
use s3_store::MemoryStore;
use std::alloc::{AllocError, Global};
use std::io::Write;

/// The line feed of EBCDIC.
const EBCDIC_LINE_FEED: u8 = 0x25;

/// How records of a fixed length are written for other programs.
#[derive(Clone, Copy)]
pub enum FixedForm {
    /// The bytes of the pack, end to end.
    Ebcdic,
    /// The bytes of the pack, each record with the line feed of EBCDIC after it.
    EbcdicLines,
    /// Characters of ASCII, end to end.
    Ascii,
    /// Characters of ASCII, each record with a line feed after it.
    AsciiLines,
}

impl FixedForm {
    /// The byte after each record, if one is.
    pub fn line_feed(self) -> Option<u8>
        ensures { result ≡ line_feed_of self }
    {
        match self {
            FixedForm::Ebcdic | FixedForm::Ascii => None,
            FixedForm::EbcdicLines => Some(EBCDIC_LINE_FEED),
            FixedForm::AsciiLines => Some(b'\n'),
        }
    }
}

/// Writes each chosen record of a file of an area in a form, in the order of the keys if the file has an index. Returns how many records
/// aren't chosen, and so aren't written.
///
/// Refused as `unload` is, and with `NoCharacter` at the first byte without a character, if the form has characters; then the records
/// before it are written.
pub fn unload_fixed<W: Write>(
    alloc: Global,
    pack: &[u8],
    area: Area,
    name: Name,
    form: FixedForm,
    chosen: &ChosenRecords,
    writer: &mut W,
) -> Result<u32, UnloadFault>
    ensures wrote { IfOk result (λ others. UnloadsFixed area name form chosen.now others (contents_of pack.now) (W.contents writer.old) (W.contents writer.new)) }
    ensures refused { IfErr result (IsFixedRefusal area name form chosen.now (contents_of pack.now)) }
{
    let (mut store, label) = find_file(alloc, pack, area, name)?;
    let records = Records::open(alloc, &mut store, &label)?;
    let mut text = Vec::new(alloc);
    let done = push_records(alloc, &mut store, &label, &records, form, chosen, &mut text);
    match writer.write_all(text.as_slice()) {
        Ok(()) => done,
        Err(_) => Err(UnloadFault::File),
    }
}

/// Appends the chosen records of a file, or those before the first that can't be written in the form. Returns how many aren't chosen.
fn push_records(
    alloc: Global,
    store: &mut MemoryStore,
    label: &FileLabel,
    records: &Records,
    form: FixedForm,
    chosen: &ChosenRecords,
    text: &mut Vec<u8>,
) -> Result<u32, UnloadFault>
    requires on_pack { IsOfPack (length store.old) label.now }
    requires opened { IsOpened label.now store.old records.now }
    ensures text { OnOk result (text.new.items ≡ text.old.items ++ fixed_text form (chosen_of chosen.now (ordered label.now store.old))) }
    ensures fits { OnOk result (list_all (is_fixed form) (chosen_of chosen.now (ordered label.now store.old)) ≡ true) }
    ensures others { IfOk result (λ others. others + length (chosen_of chosen.now (ordered label.now store.old)) ≡ length (ordered label.now store.old)) }
    ensures refused { IfErr result (IsUnfixed form chosen.now label.now store.old) }
{
    let mut bytes = vec![in alloc; 0u8; usize::from(label.record_length)]?;
    push_each(store, label, records, form, chosen, &mut bytes, text)
}

/// Does so, with space for a record.
#[tactic(auto, using(crate::proofs::Opening::place_counted, crate::proofs::FixedLemmas::record_refused))]
fn push_each(
    store: &mut MemoryStore,
    label: &FileLabel,
    records: &Records,
    form: FixedForm,
    chosen: &ChosenRecords,
    bytes: &mut [u8],
    text: &mut Vec<u8>,
) -> Result<u32, UnloadFault>
    requires on_pack { IsOfPack (length store.old) label.now }
    requires opened { IsOpened label.now store.old records.now }
    requires long { length bytes.old ≡ label.now.record_length }
    ensures text { OnOk result (text.new.items ≡ text.old.items ++ fixed_text form (chosen_of chosen.now (ordered label.now store.old))) }
    ensures fits { OnOk result (list_all (is_fixed form) (chosen_of chosen.now (ordered label.now store.old)) ≡ true) }
    ensures others { IfOk result (λ others. others + length (chosen_of chosen.now (ordered label.now store.old)) ≡ length (ordered label.now store.old)) }
    ensures refused { IfErr result (IsUnfixed form chosen.now label.now store.old) }
{
    let mut others = 0u32;
    for n in 0..label.count {
        let place = records.read(store, label, n, bytes)?;
        others += push_chosen(text, form, chosen, place, bytes)?;
    }
    Ok(others)
}

/// Appends record `n` of the file, from 0, if it is chosen. Returns how many records it leaves out: 0 or 1.
#[tactic(auto, using(crate::proofs::FixedLemmas::chosen_text, crate::proofs::FixedLemmas::other_text, crate::proofs::FixedLemmas::chosen_fits, crate::proofs::FixedLemmas::other_fits, crate::proofs::RowLemmas::chosen_counted, crate::proofs::RowLemmas::other_counted))]
fn push_chosen(
    text: &mut Vec<u8>,
    form: FixedForm,
    chosen: &ChosenRecords,
    n: u32,
    bytes: &[u8],
) -> Result<u32, UnloadFault>
    requires { n < 4294967295 }
    ensures text { OnOk result (text.new.items ≡ text.old.items ++ fixed_text form (chosen_of chosen.now (bytes.now ∷ []))) }
    ensures fits { OnOk result (list_all (is_fixed form) (chosen_of chosen.now (bytes.now ∷ [])) ≡ true) }
    ensures other { IfOk result (λ other. other + length (chosen_of chosen.now (bytes.now ∷ [])) ≡ 1) }
    ensures is_meant { OnErr result (is_chosen chosen.now bytes.now ≡ true) }
    ensures refused { IfErr result (IsUnfit n (is_fixed form bytes.now)) }
{
    if chosen.has(bytes) {
        push_record(text, form, n, bytes)?;
        Ok(0)
    } else {
        Ok(1)
    }
}

/// Appends record `n` of the file, from 0.
fn push_record(text: &mut Vec<u8>, form: FixedForm, n: u32, bytes: &[u8]) -> Result<(), UnloadFault>
    requires { n < 4294967295 }
    ensures text { OnOk result (text.new.items ≡ text.old.items ++ fixed_of form bytes.now) }
    ensures fits { OnOk result (is_fixed form bytes.now ≡ true) }
    ensures refused { IfErr result (IsUnfit n (is_fixed form bytes.now)) }
{
    match form {
        FixedForm::Ebcdic | FixedForm::EbcdicLines => text.extend_from_slice(bytes)?,
        FixedForm::Ascii | FixedForm::AsciiLines => push_shown(text, n, bytes)?,
    }
    push_end(text, form)?;
    Ok(())
}

/// Appends the characters of record `n`, from 0.
fn push_shown(text: &mut Vec<u8>, n: u32, bytes: &[u8]) -> Result<(), UnloadFault>
    requires { n < 4294967295 }
    ensures text { OnOk result (text.new.items ≡ text.old.items ++ map shown_byte bytes.now) }
    ensures fits { OnOk result (list_all has_character bytes.now ≡ true) }
    ensures refused { IfErr result (IsUnfit n (list_all has_character bytes.now)) }
{
    if let Some(place) = place_without_character(bytes) {
        let position = u16::try_from(place.saturating_add(1)).unwrap_or(u16::MAX);
        return Err(UnloadFault::NoCharacter(n + 1, position));
    }
    push_characters(text, bytes)?;
    Ok(())
}

/// Appends the byte after a record, if the form has one.
fn push_end(text: &mut Vec<u8>, form: FixedForm) -> Result<(), AllocError>
    ensures { OnOk result (text.new.items ≡ text.old.items ++ end_of form) }
{
    match form.line_feed() {
        Some(byte) => text.push(byte)?,
        None => {}
    }
    Ok(())
}
