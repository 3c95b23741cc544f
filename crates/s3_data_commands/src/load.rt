//! `bureau load`: a table in CSV or records of a fixed length from standard input, into a file of a pack.
ghost use Rattle.std.specs.Prelude.{◌≤◌};

use crate::cells::Reading;
use crate::cells::field_named;
use crate::cells::with_cells;
use crate::fault::Fault;
use crate::filled::Words;
use crate::filled::push_shown_name;
use crate::fixed::AS_ASCII;
use crate::fixed::AS_EBCDIC;
use crate::fixed::LINE_FEEDS;
use crate::fixed::RECORD_LENGTH;
use crate::fixed::beginning_sentence;
use crate::fixed::fixed_form;
use crate::fixed::fixed_load_sentence;
use crate::fixed::is_ascii;
use crate::fixed::layout_of_length;
use crate::fixed::no_records_sentence;
use crate::fixed::record_sentence;
use crate::fixed::refuse_loaded_cells;
use crate::fixed::test_length;
use crate::inputs::delimiter_of;
use crate::inputs::layout_of;
use crate::inputs::whole_records_of;
use crate::journaling::OpenJournal;
use crate::journaling::journal_for;
use crate::journaling::unmade_if_refused;
use crate::key_cover::test_key;
use crate::load_sentences::TOO_LONG;
use crate::load_sentences::emptied_sentence;
use crate::load_sentences::heading_sentence;
use crate::load_sentences::load_sentence;
use crate::load_sentences::other_types_sentence;
use crate::load_sentences::table_sentence;
use crate::load_sentences::value_sentence;
use crate::pack_words::Save;
use crate::pack_words::keep_input;
use crate::pack_words::label_of;
use crate::pack_words::level_of;
use crate::pack_words::no_room_sentence;
use crate::pack_words::pack_to_change;
use crate::pack_words::refused;
use crate::pack_words::room_in;
use crate::pack_words::saved;
use crate::pack_words::tell_done;
use crate::pack_words::wrong_words;
use crate::sentences::unread_sentence;
use crate::standard_input::InputFault;
use crate::standard_input::read_input;
use crate::words::AGAIN;
use crate::words::DATE_FIELDS;
use crate::words::DECIMAL;
use crate::words::DELIMITER;
use crate::words::JOURNAL;
use crate::words::LABEL;
use crate::words::LAYOUT;
use crate::words::LAYOUT_FILE;
use crate::words::LAYOUT_TYPE;
use crate::words::LEVEL_ALIAS;
use crate::words::LEVEL_AREA;
use crate::words::MOST_RECORDS;
use crate::words::OVERWRITE;
use crate::words::PACK;
use crate::words::SAFE_CELLS;
use crate::words::SAVE;
use crate::words::THOUSANDS;
use clap::ArgMatches;
use s3_cards::LevelId;
use s3_cards::Name;
use s3_cards::Retention;
use s3_cards::ebcdic::DIGIT_0;
use s3_cards::host_byte;
use s3_journal::Appended;
use s3_journal::Posting;
use s3_journal::Work;
use s3_journal::checksum_of;
use s3_labels::Area;
use s3_labels::LabelFault;
use s3_layout::SourceLayout;
use s3_load::HeadingFault;
use s3_load::LoadFault;
use s3_load::Order;
use s3_load::Room;
use s3_load::ValueFault;
use s3_paper_commands::status::DONE;
use s3_paper_commands::status::FILE_WRONG;
use s3_paper_commands::status::OPTIONS_WRONG;
use s3_paper_commands::status::PACK_SAVED;
use s3_paper_commands::status::REFUSED;
use s3_paper_commands::words::Choice;
use s3_paper_commands::words::CommandWords;
use s3_paper_commands::words::Example;
use s3_paper_commands::words::Status;
use s3_paper_commands::words::Takes;
use s3_paper_commands::words::Word;
use s3_paper_commands::words::value_of;
use s3_record_types::ChosenRecords;
use s3_refusals::Shown;
use s3_unload::FixedForm;
use s3_unload::UnloadFault;
use s3_unload::find_file;
use s3_unload::unload_fixed;
use std::alloc::AllocError;
use std::alloc::Global;
use std::io::IsTerminal;
use std::io::Write;
use std::io::sink;

/// How many faults of a table are reported.
pub const MOST_TOLD: usize = 20;

/// How long a file is kept.
const RETENTIONS: &'static [Choice] = &[
    Choice {
        name: "T",
        help: "Temporary: until a job makes a file of this label",
    },
    Choice {
        name: "S",
        help: "Scratch: for the job that makes the file",
    },
    Choice {
        name: "P",
        help: "Permanent: no job makes a file of this label",
    },
];

/// The forms in which records are read.
const FORMS: &'static [Choice] = &[
    Choice {
        name: "csv",
        help: "A table in CSV; needs --layout",
    },
    AS_EBCDIC,
    AS_ASCII,
];

/// `bureau load` and its options.
pub const LOAD: CommandWords = CommandWords {
    name: "load",
    about: "Loads the table in CSV or the records of standard input into a file of a level",
    aliases: &[LEVEL_ALIAS],
    statuses: &[
        PACK_SAVED,
        Status {
            number: REFUSED,
            meaning: "the input, the layout or the pack is refused, or memory ran out; nothing is saved",
        },
        OPTIONS_WRONG,
        FILE_WRONG,
    ],
    examples: &[
        Example {
            line: "bureau load --pack shop.pack --save shop.pack --area 1 --label CUSTOM --layout customers.rpg < customers.csv",
            purpose: "Makes a file of a table, or replaces it",
        },
        Example {
            line: "bureau load --pack shop.pack --save shop.pack --area 1 --label CUSTOM --layout customers.rpg --append < new.csv",
            purpose: "Adds the records of a table to a file",
        },
        Example {
            line: "bureau load --pack shop.pack --save shop.pack --area 1 --label CUSTOM --as ebcdic --record-length 32 < customers.dat",
            purpose: "Makes a file of the records of another program",
        },
    ],
    words: &[
        Word {
            help: "The pack",
            ..PACK
        },
        SAVE,
        LEVEL_AREA,
        LABEL,
        LAYOUT,
        LAYOUT_FILE,
        LAYOUT_TYPE,
        Word {
            name: "as",
            takes: Takes::OneOf("FORM", FORMS),
            help: "What standard input has; a table in csv by default",
        },
        LINE_FEEDS,
        RECORD_LENGTH,
        Word {
            name: "records",
            takes: Takes::Number("N", 1, MOST_RECORDS),
            help: "Space for so many records; as many as the table has by default",
        },
        Word {
            name: "tracks",
            takes: Takes::Number("N", 1, 999),
            help: "So many tracks instead",
        },
        Word {
            name: "retain",
            takes: Takes::OneOf("R", RETENTIONS),
            help: "How long the file is kept; T by default",
        },
        Word {
            name: "date",
            takes: Takes::Value("MMDDYY"),
            help: "The date of the file: month, day and year; 000000 by default",
        },
        Word {
            name: "append",
            takes: Takes::Nothing,
            help: "Adds the records after those of the file that is there",
        },
        Word {
            name: "new-shape",
            takes: Takes::Nothing,
            help: "Replaces a file even by one of another record length, organization or key",
        },
        Word {
            name: "drop-types",
            takes: Takes::Nothing,
            help: "Replaces a file even if records of other types than --type are lost",
        },
        Word {
            name: "empty",
            takes: Takes::Nothing,
            help: "Replaces a file even by a table without rows, so that it has no record",
        },
        Word {
            name: "fill",
            takes: Takes::Nothing,
            help: "Fields that the table doesn't have are blank or 0",
        },
        DELIMITER,
        SAFE_CELLS,
        DECIMAL,
        Word {
            name: "thousands",
            takes: Takes::OneOf("C", THOUSANDS),
            help: "The mark that the table may have between thousands",
        },
        Word {
            name: "capitals",
            takes: Takes::Nothing,
            help: "Takes small letters in texts as capitals",
        },
        DATE_FIELDS,
        JOURNAL,
        Word {
            help: "Loads even if the journal has the table, or doesn't have the pack last; needs --journal",
            ..AGAIN
        },
        OVERWRITE,
    ],
};

/// Runs `bureau load`, and returns the exit status: 0 if it is done, else the status of the refusal, whose sentences were written
/// on standard error; then no pack is changed.
pub fn load(rt: &HostRuntime, matches: &ArgMatches<'_>) -> u8
    ensures { result ≤ 4 }
{
    match load_table(rt, matches) {
        Ok(()) => DONE,
        Err(fault) => fault.tell(&mut rt.stderr()),
    }
}

/// What the options ask for, except for the layout.
#[derive(Clone, Copy)]
struct LoadWords<'a> {
    path: &'a str,
    save: &'a str,
    level: LevelId,
    label: &'a str,
    name: Name,
    /// The deck that has the layout, if one is named.
    source: Option<&'a str>,
    /// The form of records of a fixed length; none for a table.
    form: Option<FixedForm>,
    room: Room,
    retention: Retention,
    date: [u8; 6],
    appends: bool,
    reshapes: bool,
    drops_types: bool,
    empties: bool,
    fills: bool,
    delimiter: u8,
    /// Whether a comma is before the decimals.
    has_comma: bool,
}

impl<'a> LoadWords<'a> {
    /// What the options ask for.
    fn read(rt: &HostRuntime, matches: &ArgMatches<'a>) -> Result<LoadWords<'a>, Fault> {
        let level = level_of(rt, value_of(matches, "area"))?;
        let label = value_of(matches, "label");
        let name = label_of(rt, label)?;
        test_words(rt, matches)?;
        let form = fixed_form(rt, matches)?;
        test_length(rt, matches, form)?;
        if form.is_some() {
            refuse_loaded_cells(rt, matches)?;
        }
        Ok(LoadWords {
            path: value_of(matches, "pack"),
            save: value_of(matches, "save"),
            level,
            label,
            name,
            source: matches.get_str("layout"),
            form,
            room: room_of(rt, matches)?,
            retention: retention_of(rt, matches)?,
            date: date_of(rt, matches)?,
            appends: matches.get_flag("append"),
            reshapes: matches.get_flag("new-shape"),
            drops_types: matches.get_flag("drop-types"),
            empties: matches.get_flag("empty"),
            fills: matches.get_flag("fill"),
            delimiter: delimiter_of(rt, matches)?,
            has_comma: matches.get_str("decimal") == Some(","),
        })
    }
}

fn load_table(rt: &HostRuntime, matches: &ArgMatches<'_>) -> Result<(), Fault> {
    let words = LoadWords::read(rt, matches)?;
    let layout = layout_by(rt, matches, &words)?;
    let (pack, locked) = pack_to_change(rt, matches, words.path, words.save)?;
    if let Some(source) = words.source {
        keep_input(rt, words.save, source)?;
    }
    let replaced = replaced_file(rt.alloc(), &words, &layout, &pack)?;
    let (loaded, journal, work) = load_journaled(rt, matches, &words, &layout, &pack, replaced)?;
    let save = Save {
        locked,
        journal,
        work,
    };
    let saved = saved(rt, matches, words.save, save, &loaded)?;
    tell_done(
        rt,
        done_sentence(rt.alloc(), &words, replaced, &loaded),
        saved,
    );
    Ok(())
}

/// The layout of the source in a deck, with the cells that the options ask for; for records of a fixed length only their length and
/// their key; if no deck is named, one of the record length that the options give.
fn layout_by(
    rt: &HostRuntime,
    matches: &ArgMatches<'_>,
    words: &LoadWords<'_>,
) -> Result<SourceLayout, Fault> {
    let Some(source) = words.source else {
        return layout_of_length(rt, matches);
    };
    if words.form.is_some() {
        return whole_records_of(rt, matches, source);
    }
    let reading = Reading {
        capitals: matches.get_flag("capitals"),
        thousands: matches.get_str("thousands"),
    };
    let layout = layout_of(rt, matches, source)?;
    test_key(rt, source, &layout)?;
    with_cells(rt, matches, source, layout, reading)
}

/// A pack with the table of standard input in the file that the options name; its journal, if one is named; and what its line has.
fn load_journaled<'a>(
    rt: &HostRuntime,
    matches: &ArgMatches<'a>,
    words: &LoadWords<'a>,
    layout: &SourceLayout,
    pack: &[u8],
    replaced: Option<ReplacedFile>,
) -> Result<(Vec<u8>, Option<OpenJournal<'a>>, Work), Fault> {
    tell_waiting(rt, words);
    let table = table_of(rt, words)?;
    if words.appends && matches.get_str("journal").is_some() {
        return append_once(rt, matches, words, layout, pack, &table);
    }
    let journal = journal_for(rt, matches, words.path, pack, Posting::Nothing)?;
    let done = loaded_over(rt, words, layout, pack, &table, replaced);
    let loaded = unmade_if_refused(rt, &journal, done)?;
    Ok((loaded, journal, Work::Load))
}

/// A pack with a table after the records of the file that the options name. A table that the journal has for this file is refused,
/// unless `--again` is given.
fn append_once<'a>(
    rt: &HostRuntime,
    matches: &ArgMatches<'a>,
    words: &LoadWords<'a>,
    layout: &SourceLayout,
    pack: &[u8],
    table: &[u8],
) -> Result<(Vec<u8>, Option<OpenJournal<'a>>, Work), Fault> {
    let added = appended(rt.alloc(), words, table)?;
    let posting = Posting::Table {
        table: added.table.as_str(),
        file: added.file.as_str(),
    };
    let journal = journal_for(rt, matches, words.path, pack, posting)?;
    let done = loaded(rt, words, layout, pack, table);
    let loaded = unmade_if_refused(rt, &journal, done)?;
    Ok((loaded, journal, Work::Append(added)))
}

/// The table of standard input, or its records of a fixed length. Too long an input is refused, and so is one in UTF-16 or UTF-32, or
/// without a record of a fixed length.
fn table_of(rt: &HostRuntime, words: &LoadWords<'_>) -> Result<Vec<u8>, Fault> {
    match read_input(rt.alloc(), rt.stdin()) {
        Ok(table) => match input_sentence(rt.alloc(), words, &table)? {
            None => Ok(table),
            Some(sentence) => Err(Fault::Refused(sentence)),
        },
        Err(InputFault::TooLong) => Err(refused(String::from_str(rt.alloc(), TOO_LONG))),
        Err(InputFault::Failed(error)) => {
            Err(Fault::File(unread_sentence(rt.alloc(), error, awaited(words))?))
        }
        Err(InputFault::NoMemory) => Err(Fault::NoMemory),
    }
}

/// Why an input isn't loaded: it has no record, it is a pack, or it is in an encoding that must be converted; `None` for any other input.
/// Records in EBCDIC may have any bytes.
fn input_sentence(
    alloc: Global,
    words: &LoadWords<'_>,
    input: &[u8],
) -> Result<Option<String>, AllocError> {
    match words.form {
        None => table_sentence(alloc, input),
        Some(_) if input.is_empty() => Ok(Some(no_records_sentence(alloc)?)),
        Some(form) if is_ascii(form) => beginning_sentence(alloc, input),
        Some(_) => Ok(None),
    }
}

/// What the line of a table has that is added to a file.
fn appended(alloc: Global, words: &LoadWords<'_>, table: &[u8]) -> Result<Appended, AllocError> {
    let level = words.level.number();
    let label = words.label;
    Ok(Appended {
        table: checksum_of(alloc, table)?,
        file: format!(in alloc; "{level} {label}")?,
    })
}

/// A pack with a table, or records of a fixed length, in the file that the options name, given the file that a new one replaces. A file
/// with records of other types is replaced only if `--drop-types` is given, and one with records by none only if `--empty` is given.
fn loaded_over(
    rt: &HostRuntime,
    words: &LoadWords<'_>,
    layout: &SourceLayout,
    pack: &[u8],
    table: &[u8],
    replaced: Option<ReplacedFile>,
) -> Result<Vec<u8>, Fault> {
    let loaded = loaded(rt, words, layout, pack, table)?;
    let Some(file) = replaced else {
        return Ok(loaded);
    };
    if !words.drops_types {
        refuse_other_types(rt, words, file)?;
    }
    if !words.empties {
        refuse_emptied(rt, words, file, &loaded)?;
    }
    Ok(loaded)
}

/// Refuses to replace a file that has records by one without.
fn refuse_emptied(
    rt: &HostRuntime,
    words: &LoadWords<'_>,
    file: ReplacedFile,
    loaded: &[u8],
) -> Result<(), Fault> {
    let new = loaded_file(rt.alloc(), words, loaded)?;
    if file.records == 0 || new.records > 0 {
        return Ok(());
    }
    Err(refused(emptied_sentence(rt.alloc(), words.label, file.records)))
}

/// Refuses to replace a file that has records of other types, or whose records can't be read.
fn refuse_other_types(
    rt: &HostRuntime,
    words: &LoadWords<'_>,
    file: ReplacedFile,
) -> Result<(), Fault> {
    match file.others {
        Some(0) => Ok(()),
        Some(others) => Err(refused(other_types_sentence(rt.alloc(), words.label, others))),
        None => Err(fault_of(rt, words, &LoadFault::BadIndex)),
    }
}

/// A pack with a table, or records of a fixed length, in the file that the options name.
fn loaded(
    rt: &HostRuntime,
    words: &LoadWords<'_>,
    layout: &SourceLayout,
    pack: &[u8],
    table: &[u8],
) -> Result<Vec<u8>, Fault> {
    let order = Order {
        level: words.level,
        name: words.name,
        layout: &layout.layout,
        chosen: &layout.records,
        key: layout.key,
        room: words.room,
        retention: words.retention,
        date: words.date,
        appends: words.appends,
        reshapes: words.reshapes,
        fills: words.fills,
        delimiter: words.delimiter,
    };
    match load_by(rt.alloc(), pack, &order, words.form, table) {
        Ok(loaded) => Ok(loaded),
        Err(fault) => Err(told_fault(rt, words, layout, &fault)),
    }
}

/// A pack with the records of a text in a form of a fixed length, or of a table.
fn load_by(
    alloc: Global,
    pack: &[u8],
    order: &Order<'_>,
    form: Option<FixedForm>,
    text: &[u8],
) -> Result<Vec<u8>, LoadFault> {
    match form {
        Some(form) => s3_load::load_fixed(alloc, pack, order, form, text),
        None => s3_load::load(alloc, pack, order, text),
    }
}

/// What standard input has, for messages.
fn awaited(words: &LoadWords<'_>) -> &'static str {
    if words.form.is_some() {
        "records"
    } else {
        "table in CSV"
    }
}

/// Tells what is waited for, where standard input is a terminal.
fn tell_waiting(rt: &HostRuntime, words: &LoadWords<'_>) {
    if rt.stdin().is_terminal() {
        let awaited = awaited(words);
        let _ = writeln!(
            rt.stderr(),
            "load waits for the {awaited} on standard input: type it, and Control-D at its end"
        );
    }
}

/// A file in whose place a new one comes.
#[derive(Clone, Copy)]
struct ReplacedFile {
    /// How many records it has.
    records: u32,
    /// How many of them are of other types than the chosen one; none if they can't be read.
    others: Option<u32>,
    /// For how many records it has space.
    capacity: u32,
    /// How long it was to be kept.
    retention: Retention,
    /// Its date, mmddyy, in EBCDIC.
    date: [u8; 6],
}

/// The file that has the records of a load.
#[derive(Clone, Copy)]
struct LoadedFile {
    /// How many records it has.
    records: u32,
    /// For how many records it has space.
    capacity: u32,
}

/// The file of a pack that a new one is to replace, if there is one.
fn replaced_file(
    alloc: Global,
    words: &LoadWords<'_>,
    layout: &SourceLayout,
    pack: &[u8],
) -> Result<Option<ReplacedFile>, AllocError> {
    if words.appends {
        return Ok(None);
    }
    let (_store, label) = match find_file(alloc, pack, Area::Level(words.level), words.name) {
        Ok(found) => found,
        Err(UnloadFault::NoMemory) => return Err(AllocError),
        Err(_) => return Ok(None),
    };
    let others = if label.record_length == layout.layout.record_length {
        other_records(alloc, words, &layout.records, pack)?
    } else {
        // of a file of another record length, which is replaced if that is asked for, no type is known
        Some(0)
    };
    let date = label.date;
    Ok(Some(ReplacedFile {
        records: label.count,
        others,
        capacity: label.capacity,
        retention: label.retention,
        date,
    }))
}

/// How many records of the file that is there aren't chosen; none if they can't be read.
fn other_records(
    alloc: Global,
    words: &LoadWords<'_>,
    chosen: &ChosenRecords,
    pack: &[u8],
) -> Result<Option<u32>, AllocError> {
    if let ChosenRecords::All = chosen {
        return Ok(Some(0));
    }
    // the records that are chosen go nowhere
    match unload_fixed(
        alloc,
        pack,
        Area::Level(words.level),
        words.name,
        FixedForm::Ebcdic,
        chosen,
        &mut sink(),
    ) {
        Ok(others) => Ok(Some(others)),
        Err(UnloadFault::NoMemory) => Err(AllocError),
        Err(_) => Ok(None),
    }
}

/// The file of a pack that was loaded.
fn loaded_file(
    alloc: Global,
    words: &LoadWords<'_>,
    loaded: &[u8],
) -> Result<LoadedFile, AllocError> {
    match find_file(alloc, loaded, Area::Level(words.level), words.name) {
        Ok((_store, label)) => Ok(LoadedFile {
            records: label.count,
            capacity: label.capacity,
        }),
        Err(_) => Err(AllocError),
    }
}

/// What was loaded, and which file was replaced.
fn done_sentence(
    alloc: Global,
    words: &LoadWords<'_>,
    replaced: Option<ReplacedFile>,
    loaded: &[u8],
) -> Result<String, AllocError> {
    let new = loaded_file(alloc, words, loaded)?;
    match replaced {
        Some(old) => replaced_sentence(alloc, words, old, new),
        None => loaded_sentence(alloc, words, new.records),
    }
}

/// Which file was replaced, how many records the new one has, and what of the old one the new one doesn't keep.
fn replaced_sentence(
    alloc: Global,
    words: &LoadWords<'_>,
    old: ReplacedFile,
    new: LoadedFile,
) -> Result<String, AllocError> {
    let mut text = String::new(alloc);
    push_replaced(&mut text, words, old, new.records)?;
    push_space(&mut text, old.capacity, new.capacity)?;
    push_retention(&mut text, old.retention, words.retention)?;
    Ok(text)
}

fn push_replaced(
    text: &mut String,
    words: &LoadWords<'_>,
    old: ReplacedFile,
    count: u32,
) -> Result<(), AllocError> {
    text.push_str(words.label)?;
    text.push_str(", ")?;
    push_records(text, old.records)?;
    push_date(text, old.date)?;
    if let Some(others) = old.others
        && others > 0
    {
        text.push_str(", of them ")?;
        push_grouped(text, others)?;
        text.push_str(if others == 1 {
            " of another type"
        } else {
            " of other types"
        })?;
    }
    text.push_str(", replaced by ")?;
    push_grouped(text, count)?;
    if old.date != words.date {
        push_date(text, words.date)?;
    }
    let level = words.level.number();
    write!(text, " in level {level} of ")?;
    push_shown_name(text, words.save)
}

/// Appends that a new file has space for fewer records than the one that it replaces, and how it gets the same space.
fn push_space(text: &mut String, old: u32, new: u32) -> Result<(), AllocError> {
    if new >= old {
        return Ok(());
    }
    text.push_str("; space for ")?;
    push_records(text, old)?;
    text.push_str(" became ")?;
    push_grouped(text, new)?;
    if old > MOST_RECORDS {
        // only --tracks gives so much
        return text.push_str(" (--tracks gives more)");
    }
    write!(text, " (--records {old} keeps it)")
}

/// Appends that a new file is kept otherwise than the one that it replaces, and how it is kept in the same way.
fn push_retention(text: &mut String, old: Retention, new: Retention) -> Result<(), AllocError> {
    let (old, new) = (letter_of(old), letter_of(new));
    if old == new {
        return Ok(());
    }
    write!(
        text,
        "; retention {old} became {new} (--retain {old} keeps it)"
    )
}

/// The letter of a retention.
fn letter_of(retention: Retention) -> char {
    match retention {
        Retention::Temporary => 'T',
        Retention::Scratch => 'S',
        Retention::Permanent => 'P',
    }
}

/// Appends a number of records.
fn push_records(text: &mut String, count: u32) -> Result<(), AllocError> {
    push_grouped(text, count)?;
    text.push_str(if count == 1 { " record" } else { " records" })
}

/// Appends a number with a comma before its last three digits, if it has more.
fn push_grouped(text: &mut String, number: u32) -> Result<(), AllocError> {
    let rest = number % 1000;
    if number < 1000 {
        return write!(text, "{rest}");
    }
    let thousands = number / 1000;
    write!(text, "{thousands},{rest:03}")
}

/// Appends of which day a file is, by the six digits mmddyy in EBCDIC.
fn push_date(text: &mut String, date: [u8; 6]) -> Result<(), AllocError> {
    if date.iter().all(|code| *code == DIGIT_0) {
        return text.push_str(" without a date");
    }
    text.push_str(" of ")?;
    push_codes(text, date[4], date[5])?;
    text.push('-')?;
    push_codes(text, date[0], date[1])?;
    text.push('-')?;
    push_codes(text, date[2], date[3])
}

fn push_codes(text: &mut String, tens: u8, ones: u8) -> Result<(), AllocError> {
    text.push(char::from(host_byte(tens)))?;
    text.push(char::from(host_byte(ones)))
}

/// Into which file the table was loaded, and how many records that has now.
fn loaded_sentence(alloc: Global, words: &LoadWords<'_>, count: u32) -> Result<String, AllocError> {
    let level = words.level.number();
    let records = if count == 1 { "record" } else { "records" };
    let label = words.label;
    let save = Shown(words.save);
    format!(in alloc; "{label} of level {level} of {save} is loaded: it has {count} {records} now")
}

/// The room that the options ask for.
fn room_of(rt: &HostRuntime, matches: &ArgMatches<'_>) -> Result<Room, Fault> {
    match (
        matches.get_one::<u32>("records"),
        matches.get_one::<u16>("tracks"),
    ) {
        (None, None) => Ok(Room::ForTable),
        (Some(records), None) => Ok(Room::Records(records)),
        (None, Some(tracks)) => Ok(Room::Tracks(tracks)),
        (Some(_), Some(_)) => Err(wrong_words(
            rt.alloc(),
            "space is given by --records or by --tracks, not by both",
        )),
    }
}

/// How long the file is to be kept.
fn retention_of(rt: &HostRuntime, matches: &ArgMatches<'_>) -> Result<Retention, Fault> {
    match matches.get_str("retain").unwrap_or("T") {
        "T" => Ok(Retention::Temporary),
        "S" => Ok(Retention::Scratch),
        "P" => Ok(Retention::Permanent),
        _ => Err(wrong_words(rt.alloc(), "a file is retained as T, S or P")),
    }
}

/// The date that the options give, in EBCDIC.
fn date_of(rt: &HostRuntime, matches: &ArgMatches<'_>) -> Result<[u8; 6], Fault> {
    let Some(text) = matches.get_str("date") else {
        return Ok([DIGIT_0; 6]);
    };
    match date_in(text.as_bytes()) {
        Some(date) => Ok(date),
        None => Err(no_date(rt.alloc(), text)),
    }
}

/// Reports that a text is no date.
fn no_date(alloc: Global, text: &str) -> Fault {
    let text = Shown(text);
    match format!(in alloc;
        "{text} is no date; one has six digits: the month 01 to 12, the day 01 to 31 and the year"
    ) {
        Ok(sentence) => Fault::Usage(sentence),
        Err(_) => Fault::NoMemory,
    }
}

/// The date that six digits of ASCII are, in EBCDIC: any year, a month 01 to 12 and a day 01 to 31.
fn date_in(text: &[u8]) -> Option<[u8; 6]> {
    if text.len() != 6 {
        return None;
    }
    let mut date = [DIGIT_0; 6];
    for (place, byte) in text.iter().enumerate() {
        match byte {
            digit @ b'0'..=b'9' if place < 6 => date[place] = DIGIT_0 + (*digit - b'0'),
            _ => return None,
        }
    }
    let month = two_digits(date[0], date[1]);
    let day = two_digits(date[2], date[3]);
    if 1 <= month && month <= 12 && 1 <= day && day <= 31 {
        Some(date)
    } else {
        None
    }
}

/// The number of two digits in EBCDIC.
fn two_digits(tens: u8, ones: u8) -> u8 {
    (tens % 16).saturating_mul(10).saturating_add(ones % 16)
}

/// Refuses options for a new file if the records are added to an existing one, and the option about types if no type is chosen.
fn test_words(rt: &HostRuntime, matches: &ArgMatches<'_>) -> Result<(), Fault> {
    let is_new = matches.get_one::<u32>("records").is_some()
        || matches.get_one::<u16>("tracks").is_some()
        || matches.get_str("retain").is_some()
        || matches.get_str("date").is_some()
        || matches.get_flag("new-shape")
        || matches.get_flag("drop-types")
        || matches.get_flag("empty");
    if is_new && matches.get_flag("append") {
        return Err(wrong_words(
            rt.alloc(),
            "--records, --tracks, --retain, --date, --new-shape, --drop-types and --empty are of a new file, and with --append the file that is there stays as it was made; leave them out",
        ));
    }
    if matches.get_flag("drop-types") && matches.get_str("type").is_none() {
        return Err(wrong_words(
            rt.alloc(),
            "--drop-types goes with --type; without it no type of records is chosen, so leave --drop-types out",
        ));
    }
    Ok(())
}

/// What a refusal is to the command; what is wrong with the heading or the rows is reported before it, a line each.
fn told_fault(
    rt: &HostRuntime,
    words: &LoadWords<'_>,
    layout: &SourceLayout,
    fault: &LoadFault,
) -> Fault {
    match tell_all(rt, words, layout, fault) {
        Ok(()) => fault_of(rt, words, fault),
        Err(_) => Fault::NoMemory,
    }
}

/// What a refusal is to the command.
fn fault_of(rt: &HostRuntime, words: &LoadWords<'_>, fault: &LoadFault) -> Fault {
    if let LoadFault::Label(LabelFault::NoSpace) = fault {
        return no_room(rt, words);
    }
    match (fault, sentence_of(rt.alloc(), words, fault)) {
        (_, Err(_)) => Fault::NoMemory,
        (LoadFault::File, Ok(sentence)) => Fault::File(sentence),
        (_, Ok(sentence)) => Fault::Refused(sentence),
    }
}

fn sentence_of(
    alloc: Global,
    words: &LoadWords<'_>,
    fault: &LoadFault,
) -> Result<String, AllocError> {
    let level = words.level;
    if words.form.is_some() {
        return fixed_load_sentence(alloc, words.path, level, words.label, words.appends, fault);
    }
    load_sentence(alloc, words.path, level, words.label, words.appends, fault)
}

/// The refusal of a file for which a level has no space.
fn no_room(rt: &HostRuntime, words: &LoadWords<'_>) -> Fault {
    let area = Area::Level(words.level);
    match room_in(rt, words.path, area) {
        Ok(Some(room)) => refused(no_room_sentence(
            rt.alloc(),
            Words::of_file(words.path, area, words.label),
            None,
            room,
            "ask for less by --records or --tracks",
        )),
        Ok(None) => Fault::NoMemory,
        Err(fault) => fault,
    }
}

/// Tells what is wrong with the heading or the rows, a line each, up to 20 of them, and how many others there are.
fn tell_all(
    rt: &HostRuntime,
    words: &LoadWords<'_>,
    layout: &SourceLayout,
    fault: &LoadFault,
) -> Result<(), AllocError> {
    match fault {
        LoadFault::Heading(faults) => tell_heading(rt, faults),
        LoadFault::Values(faults, count) => tell_values(rt, words, layout, faults, *count),
        _ => Ok(()),
    }
}

fn tell_heading(rt: &HostRuntime, faults: &[HeadingFault]) -> Result<(), AllocError> {
    for place in 0..faults.len().min(MOST_TOLD) {
        let sentence = heading_sentence(rt.alloc(), &faults[place])?;
        let _ = writeln!(rt.stderr(), "{sentence}");
    }
    tell_others(rt, faults.len() as u64);
    Ok(())
}

fn tell_values(
    rt: &HostRuntime,
    words: &LoadWords<'_>,
    layout: &SourceLayout,
    faults: &[ValueFault],
    count: u64,
) -> Result<(), AllocError> {
    for place in 0..faults.len().min(MOST_TOLD) {
        let sentence = fault_sentence(rt.alloc(), &faults[place], words, layout)?;
        let _ = writeln!(rt.stderr(), "{sentence}");
    }
    tell_others(rt, count);
    Ok(())
}

/// What is wrong with a row of a table, or with a record of a fixed length.
fn fault_sentence(
    alloc: Global,
    fault: &ValueFault,
    words: &LoadWords<'_>,
    layout: &SourceLayout,
) -> Result<String, AllocError> {
    let field = match fault.field {
        Some(name) => field_named(layout, name),
        None => None,
    };
    match words.form {
        Some(form) => record_sentence(alloc, form, fault),
        None => value_sentence(alloc, fault, field, words.has_comma),
    }
}

/// Reports how many of so many faults aren't reported.
pub fn tell_others(rt: &HostRuntime, count: u64) {
    let others = count.saturating_sub(MOST_TOLD as u64);
    if others == 1 {
        let _ = writeln!(rt.stderr(), "1 other error isn't shown");
    } else if others > 1 {
        let _ = writeln!(rt.stderr(), "{others} other errors aren't shown");
    }
}
