//! What options give: layouts and delimiters.
ghost use Rattle.std.specs.Prelude.{◌≤◌, length, IfOk, IfSome};

use crate::fault::{Fault, Use, of_call, of_pack};
use crate::filled::Words;
use crate::pack_words::{label_of, refused, wrong_words};
use crate::sentences::layout_sentence;
use clap::ArgMatches;
use s3_blame::diagnostic_words;
use s3_cards::ebcdic::{AMPERSAND, ASTERISK, SLASH};
use s3_cards::{Card, CardFault, Deck, DeckFault, Name};
use s3_decks::{CardRange, DeckText, Statements, jobs_of};
use s3_host_files::{keep_apart, path_of, read_within, shown_name};
use s3_labels::Area;
use s3_layout::{Choice, LayoutFault, SourceLayout, read_layout, read_types, read_whole};
use s3_lines::indicator::Indicator;
use s3_paper_commands::{PLAIN_INPUT, deck_encoding_words, is_plain_text, tell_punched};
use s3_punch::{Begun, Part, Punched, punch};
use s3_refusals::Shown;
use s3_sheets::{SheetFault, read_sheets};
use std::alloc::AllocError;
use std::io::Write;

/// The most bytes of a deck that is read.
const DECK_LIMIT: usize = 4_194_304;

/// The byte between the cells of a table.
pub fn delimiter_of(rt: &HostRuntime, matches: &ArgMatches<'_>) -> Result<u8, Fault> {
    let text = matches.get_str("delimiter").unwrap_or(",");
    match text.as_bytes() {
        [byte] if byte.is_ascii() && !matches!(byte, b'"' | b'\n' | b'\r') => Ok(*byte),
        _ => Err(wrong_words(
            rt.alloc(),
            "a delimiter is one ASCII character, as , or ; or | or a tab, but not a quote or the end of a line",
        )),
    }
}

/// Refuses `--plain-text` if no layout is standard input.
pub fn test_plain_text(
    rt: &HostRuntime,
    matches: &ArgMatches<'_>,
    reads_layout: bool,
) -> Result<(), Fault> {
    if is_input_plain(matches) && !reads_layout {
        return Err(wrong_words(rt.alloc(), PLAIN_INPUT));
    }
    Ok(())
}

/// Whether standard input is plain text.
fn is_input_plain(matches: &ArgMatches<'_>) -> bool {
    matches.get_flag("plain-text")
}

/// The layout that the options name: of the source in the deck at a path, the file and the type of records that they choose.
pub fn layout_of(
    rt: &HostRuntime,
    matches: &ArgMatches<'_>,
    path: &str,
) -> Result<SourceLayout, Fault> {
    source_layout(rt, matches, path, false)
}

/// The layout that the options name, as `layout_of` gives it. If the file has one type of records alone, it is the type that is named.
pub fn typed_layout_of(
    rt: &HostRuntime,
    matches: &ArgMatches<'_>,
    path: &str,
) -> Result<SourceLayout, Fault> {
    let choice = choice_of(rt, matches)?;
    let text = text_at(rt, matches, path)?;
    let deck = deck_of(rt, &text)?;
    let source = source_in(rt, path, &deck)?;
    match typed_layout_in(rt, &deck, source, choice) {
        Ok(layout) => Ok(layout),
        Err(fault) => Err(layout_fault(rt, path, &text, &deck, source, &fault)),
    }
}

/// The layout of a source in a deck, of the type that is named or the only one.
fn typed_layout_in(
    rt: &HostRuntime,
    deck: &Deck,
    source: CardRange,
    choice: Choice,
) -> Result<SourceLayout, LayoutFault>
    requires order { source.from ≤ source.to }
    requires within { source.to ≤ length deck.now }
{
    let record_type = match choice.record_type {
        Some(indicator) => Some(indicator),
        None => only_type(&read_types(rt.alloc(), deck, source.from, source.to, choice.file)?),
    };
    let choice = Choice {
        file: choice.file,
        record_type,
    };
    read_layout(rt.alloc(), deck, source.from, source.to, choice)
}

/// The only one of some types, if there is one.
fn only_type(types: &[Indicator]) -> Option<Indicator> {
    match types {
        [one] => Some(*one),
        _ => None,
    }
}

/// The length, the key and the type of the whole records that the options name, by the source in the deck at a path. The source may have
/// several types, and needs no fields.
pub fn whole_records_of(
    rt: &HostRuntime,
    matches: &ArgMatches<'_>,
    path: &str,
) -> Result<SourceLayout, Fault> {
    source_layout(rt, matches, path, true)
}

/// The layout of the source in the deck at a path, with fields or for whole records.
fn source_layout(
    rt: &HostRuntime,
    matches: &ArgMatches<'_>,
    path: &str,
    is_whole: bool,
) -> Result<SourceLayout, Fault> {
    let choice = choice_of(rt, matches)?;
    let text = text_at(rt, matches, path)?;
    let deck = deck_of(rt, &text)?;
    let source = source_in(rt, path, &deck)?;
    match layout_in(rt, &deck, source, choice, is_whole) {
        Ok(layout) => Ok(layout),
        Err(fault) => Err(layout_fault(rt, path, &text, &deck, source, &fault)),
    }
}

/// The layout of a source in a deck, with fields or for whole records.
fn layout_in(
    rt: &HostRuntime,
    deck: &Deck,
    source: CardRange,
    choice: Choice,
    is_whole: bool,
) -> Result<SourceLayout, LayoutFault>
    requires order { source.from ≤ source.to }
    requires within { source.to ≤ length deck.now }
{
    if is_whole {
        read_whole(rt.alloc(), deck, source.from, source.to, choice)
    } else {
        read_layout(rt.alloc(), deck, source.from, source.to, choice)
    }
}

/// The layouts of a file's records, one for each record type that has fields: of the source in the deck at a path, the file on disk
/// that has the file's label as its name, or else the only one.
pub fn layouts_of(
    rt: &HostRuntime,
    matches: &ArgMatches<'_>,
    path: &str,
    label: &str,
    name: Name,
) -> Result<Vec<SourceLayout>, Fault> {
    let text = text_at(rt, matches, path)?;
    let deck = deck_of(rt, &text)?;
    let source = source_in(rt, path, &deck)?;
    match layouts_in(rt, &deck, source, name) {
        Ok(layouts) => Ok(layouts),
        Err(LayoutFault::SeveralFiles) => Err(refused(Words::of_file(
            path,
            Area::Masters,
            label,
        ).fill(
            rt.alloc(),
            "the first source in {path} has several files on DISK, and none is {label}; give a source whose F sheet has that name, or one file alone",
        ))),
        Err(fault) => Err(layout_fault(rt, path, &text, &deck, source, &fault)),
    }
}

/// The layouts of the record types that have fields.
fn layouts_in(
    rt: &HostRuntime,
    deck: &Deck,
    source: CardRange,
    name: Name,
) -> Result<Vec<SourceLayout>, LayoutFault>
    requires order { source.from ≤ source.to }
    requires within { source.to ≤ length deck.now }
{
    let (file, types) = file_and_types(rt, deck, source, name)?;
    let mut layouts = Vec::new(rt.alloc());
    for indicator in &types {
        let choice = Choice {
            file,
            record_type: Some(*indicator),
        };
        match read_layout(rt.alloc(), deck, source.from, source.to, choice) {
            Ok(layout) => layouts.push(layout)?,
            Err(LayoutFault::NoFields) => {}
            Err(fault) => return Err(fault),
        }
    }
    if layouts.is_empty() {
        return Err(LayoutFault::NoFields);
    }
    Ok(layouts)
}

/// The file of a source by its name, if it has the name, and the record types of this file or of the only one.
fn file_and_types(
    rt: &HostRuntime,
    deck: &Deck,
    source: CardRange,
    name: Name,
) -> Result<(Option<Name>, Vec<Indicator>), LayoutFault>
    requires order { source.from ≤ source.to }
    requires within { source.to ≤ length deck.now }
{
    match read_types(rt.alloc(), deck, source.from, source.to, Some(name)) {
        Ok(types) => Ok((Some(name), types)),
        Err(LayoutFault::OtherFile) => {
            let types = read_types(rt.alloc(), deck, source.from, source.to, None)?;
            Ok((None, types))
        }
        Err(fault) => Err(fault),
    }
}

/// The first source in the deck at a path.
fn source_in(rt: &HostRuntime, path: &str, deck: &Deck) -> Result<CardRange, Fault>
    ensures order { IfOk result (λ source. source.from ≤ source.to) }
    ensures within { IfOk result (λ source. source.to ≤ length deck.now) }
{
    match source_of(rt, deck)? {
        Some(source) => Ok(source),
        None => Err(refused(Words::of_path(path).fill(
            rt.alloc(),
            "the deck {path} has no source: no job of it compiles one, and it doesn't begin with the cards of one; give the deck of a program, or the cards of its source alone",
        ))),
    }
}

/// Why a source in a deck is no layout. Each diagnostic of its cards is reported.
fn layout_fault(
    rt: &HostRuntime,
    path: &str,
    text: &DeckText<'_>,
    deck: &Deck,
    source: CardRange,
    fault: &LayoutFault,
) -> Fault
    requires order { source.from ≤ source.to }
    requires within { source.to ≤ length deck.now }
{
    if let LayoutFault::Card { .. } = fault {
        tell_cards(rt, text, deck, source);
    }
    refused(layout_sentence(rt.alloc(), path, fault))
}

/// Tells each diagnostic of the cards of a source, a line each.
fn tell_cards(rt: &HostRuntime, text: &DeckText<'_>, deck: &Deck, source: CardRange)
    requires order { source.from ≤ source.to }
    requires within { source.to ≤ length deck.now }
{
    let Err(SheetFault::Diagnostics(found)) = read_sheets(rt.alloc(), deck, source.from, source.to)
    else {
        return;
    };
    for diagnostic in &found {
        let place = text.place_of(usize::from(diagnostic.card));
        let number = diagnostic.number;
        let words = diagnostic_words(number);
        let _ = writeln!(rt.stderr(), "{place}: diagnostic {number}, {words}");
    }
}

/// The file and the type of records that the options choose.
fn choice_of(rt: &HostRuntime, matches: &ArgMatches<'_>) -> Result<Choice, Fault> {
    let file = match matches.get_str("file") {
        Some(text) => Some(source_file_of(rt, text)?),
        None => None,
    };
    let record_type = match matches.get_str("type") {
        Some(text) => Some(indicator_of(rt, text)?),
        None => None,
    };
    Ok(Choice { file, record_type })
}

/// The name of a file of the source that a word gives.
fn source_file_of(rt: &HostRuntime, text: &str) -> Result<Name, Fault> {
    match label_of(rt, text) {
        Err(Fault::Usage(_)) => Err(Fault::Usage(Words::of_path(text).fill(
            rt.alloc(),
            "{path} is no name of a file; the F sheet of the source has the names, in columns 7 to 14",
        )?)),
        other => other,
    }
}

/// The cards of the file at a path, each with its line there. A file of plain text is punched; what is wrong with it is reported.
fn text_at<'a>(
    rt: &HostRuntime,
    matches: &ArgMatches<'_>,
    path: &'a str,
) -> Result<DeckText<'a>, Fault> {
    if let Err(fault) = keep_apart(rt, path_of(path)) {
        return Err(of_pack(rt, Use::Reads, &fault, path));
    }
    let bytes = match read_within(rt, path, DECK_LIMIT) {
        Ok(bytes) => bytes,
        Err(error) => return Err(of_call(rt, Use::Reads, &error, path)),
    };
    if bytes.starts_with(b"S3PACK01") || bytes.starts_with(b"S3PACK02") {
        return Err(refused(Words::of_path(path).fill(
            rt.alloc(),
            "{path} is a pack; --layout takes a deck with the RPG source of a program that uses the file",
        )));
    }
    if let Some(words) = deck_encoding_words(&bytes) {
        let path = Shown(shown_name(path));
        return Err(refused(format!(in rt.alloc(); "{path} {words}")));
    }
    let mut text = DeckText::new(rt.alloc());
    if is_plain_text(path, is_input_plain(matches)) {
        let punched = sound_punched(rt, path, &bytes)?;
        add_punched(&mut text, shown_name(path), punched)?;
    } else {
        text.add(shown_name(path), bytes)?;
    }
    Ok(text)
}

/// What is punched of the plain text of a file; what is wrong with it is reported.
fn sound_punched(rt: &HostRuntime, path: &str, text: &[u8]) -> Result<Punched, Fault> {
    let punched = punched_of(rt, text)?;
    if punched.faults.is_empty() {
        return Ok(punched);
    }
    tell_punched(rt, shown_name(path), &punched);
    Err(refused(Words::of_path(path).fill(
        rt.alloc(),
        "the text {path} can't be punched; correct what is reported above",
    )))
}

/// What is punched of a plain text: one that doesn't begin with a statement is a source from its first line on, with the tabs of one.
fn punched_of(rt: &HostRuntime, text: &[u8]) -> Result<Punched, AllocError> {
    let begun = Begun::new(false);
    let punched = punch(rt.alloc(), text, &begun)?;
    if punched.text.starts_with(b"//") {
        return Ok(punched);
    }
    let begun = Begun {
        part: Part::Source,
        cards: 0,
        blanks_remarks: false,
    };
    punch(rt.alloc(), text, &begun)
}

/// Puts the cards that were punched of a file of this name into a text.
fn add_punched<'a>(
    text: &mut DeckText<'a>,
    name: &'a str,
    punched: Punched,
) -> Result<(), AllocError> {
    let Punched {
        text: cards,
        origins,
        changes: _changes,
        faults: _faults,
        part: _part,
    } = punched;
    text.add_punched(name, cards, &origins)
}

/// The cards of a text.
fn deck_of(rt: &HostRuntime, text: &DeckText<'_>) -> Result<Deck, Fault> {
    match Deck::read(rt.alloc(), text.text()) {
        Ok(deck) => Ok(deck),
        Err(DeckFault::NoMemory) => Err(Fault::NoMemory),
        Err(DeckFault::At(card, fault)) => {
            let place = text.place_of(usize::from(card));
            let words = words_of(fault);
            Err(refused(format!(in rt.alloc(); "{place} {words}")))
        }
    }
}

/// Why a card can't be read, and what helps.
fn words_of(fault: CardFault) -> &'static str {
    match fault {
        CardFault::TooWide => "is over 96 columns; shorten its line",
        CardFault::BadCharacter =>
            "has a character that no card can have; write one that cards have; small letters become capitals in a text whose name ends in .rpg",
        CardFault::TooMany => "is the last that a deck can have; cut the source out of the deck",
    }
}

/// The record identifying indicator that a word names: 01 to 99, H1 to H9.
fn indicator_of(rt: &HostRuntime, text: &str) -> Result<Indicator, Fault> {
    match text.as_bytes() {
        [b'H', digit @ b'1'..=b'9'] => Ok(Indicator::Halt(*digit - b'0')),
        [tens @ b'0'..=b'9', ones @ b'0'..=b'9'] if *tens > b'0' || *ones > b'0' => {
            Ok(Indicator::General((*tens - b'0') * 10 + (*ones - b'0')))
        }
        _ => Err(no_indicator(rt, text)),
    }
}

/// The refusal of a text that is no record identifying indicator.
fn no_indicator(rt: &HostRuntime, text: &str) -> Fault {
    let text = Shown(text);
    match format!(in rt.alloc();
        "--type {text} is no record identifying indicator; give the one of the type, 01 to 99 or H1 to H9, as columns 19 and 20 of the I sheet have it"
    ) {
        Ok(sentence) => Fault::Usage(sentence),
        Err(_) => Fault::NoMemory,
    }
}

/// The places of the cards of a deck's first source, from one up to but without another: those of the first job that compiles
/// one, or, of a deck that doesn't begin with a statement, all cards up to one that ends a source. None if there are none.
fn source_of(rt: &HostRuntime, deck: &Deck) -> Result<Option<CardRange>, AllocError>
    ensures order { IfOk result (λ source. IfSome source (λ range. range.from ≤ range.to)) }
    ensures within { IfOk result (λ source. IfSome source (λ range. range.to ≤ length deck.now)) }
{
    let jobs = jobs_of(rt.alloc(), deck)?;
    for job in &jobs {
        if let Statements::Sound(cards) = &job.statements {
            if cards.is_compile() {
                return Ok(filled(cards.data_from(), cards.data_to(), deck.len()));
            }
        }
    }
    let cards = deck.cards();
    if cards.first().is_some_and(|card| is_statement(card)) {
        return Ok(None);
    }
    let to = match cards.iter().position(|card| ends_source(card)) {
        Some(to) => to,
        None => cards.len(),
    };
    Ok(filled(0, to, deck.len()))
}

/// The range between two places of a deck of so many cards, if there is a card in it.
fn filled(from: usize, to: usize, count: usize) -> Option<CardRange>
    ensures order { IfSome result (λ range. range.from ≤ range.to) }
    ensures within { IfSome result (λ range. range.to ≤ count) }
{
    if from < to && to <= count {
        Some(CardRange { from, to })
    } else {
        None
    }
}

/// Whether a card is a statement of a job.
fn is_statement(card: &Card) -> bool {
    card.starts_with(&[SLASH, SLASH])
}

/// Whether a card ends a source: `/*` or `/&`.
fn ends_source(card: &Card) -> bool {
    card.starts_with(&[SLASH, ASTERISK]) || card.starts_with(&[SLASH, AMPERSAND])
}
