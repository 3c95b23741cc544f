//! `bureau amend`: fields of one record of a file changed.
ghost use Rattle.std.specs.Prelude.{◌≤◌};

use crate::amend_sentences::mistake_sentence;
use crate::shown_record::push_record;
use clap::ArgMatches;
use s3_amend::{AmendFault, Amended, AmendedRecord, Amendment, Mistake, Setting, Which, amend};
use s3_cards::Name;
use s3_data_commands::cells::{Reading, with_cells};
use s3_data_commands::fault::Fault;
use s3_data_commands::filled::Words;
use s3_data_commands::inputs::{test_plain_text, typed_layout_of};
use s3_data_commands::journaling::{journal_for, unmade_if_refused};
use s3_data_commands::pack_words::{
    Save, area_of, keep_input, label_of, label_words, mount_words, pack_to_change, refused, saved,
    tell_done, wrong_words,
};
use s3_data_commands::words::{
    AGAIN, AREA, DATE_FIELDS, DECIMAL, JOURNAL, LABEL, LAYOUT, LAYOUT_FILE, LAYOUT_PLAIN,
    LAYOUT_TYPE, LEVEL_ALIAS, MOST_RECORDS, OVERWRITE, PACK, SAVE, THOUSANDS,
};
use s3_host_files::{StandardOutput, is_input};
use s3_journal::{Posting, Work};
use s3_labels::Area;
use s3_layout::SourceLayout;
use s3_paper_commands::OutputReason;
use s3_paper_commands::status::{DONE, FILE_FAILED, NOTHING_SAVED, OPTIONS_WRONG, PACK_SAVED};
use s3_paper_commands::words::{CommandWords, Example, Status, Takes, Word, value_of};
use s3_refusals::Shown;
use std::alloc::{AllocError, Global};
use std::io;
use std::io::Write;

/// What a person may expect, and no file has.
const DELETE: Word = Word {
    name: "delete",
    takes: Takes::Refused,
    help: "Refused: records can't be deleted",
};

/// `bureau amend` and its options.
pub const AMEND: CommandWords = CommandWords {
    name: "amend",
    about: "Changes fields of one record of a file, and prints the record before and after",
    aliases: &[LEVEL_ALIAS],
    statuses: &[
        PACK_SAVED,
        NOTHING_SAVED,
        OPTIONS_WRONG,
        Status {
            number: FILE_FAILED,
            meaning: "a file or standard input can't be read or written; or the pack is saved, and the record can't be printed",
        },
    ],
    examples: &[Example {
        line: "bureau amend --pack shop.pack --save shop.pack --area 1 --label CUSTOM --layout custom.rpg --key 10042 DUE=0",
        purpose: "Corrects a field of the record with a key",
    }],
    words: &[
        PACK,
        SAVE,
        AREA,
        LABEL,
        Word {
            takes: Takes::Needed("FILE"),
            ..LAYOUT
        },
        LAYOUT_PLAIN,
        LAYOUT_FILE,
        Word {
            help: "The type of the record, if the file has several",
            ..LAYOUT_TYPE
        },
        Word {
            name: "key",
            takes: Takes::Value("KEY"),
            help: "The key of the record",
        },
        Word {
            name: "record",
            takes: Takes::Number("N", 1, MOST_RECORDS),
            help: "The number of the record in the file, from 1; instead of --key",
        },
        Word {
            help: "The mark before the decimals of a number; a point by default",
            ..DECIMAL
        },
        Word {
            name: "thousands",
            takes: Takes::OneOf("C", THOUSANDS),
            help: "The mark that a number may have between thousands",
        },
        Word {
            name: "capitals",
            takes: Takes::Nothing,
            help: "Takes small letters in texts as capitals",
        },
        DATE_FIELDS,
        OVERWRITE,
        JOURNAL,
        AGAIN,
        DELETE,
        Word {
            name: "values",
            takes: Takes::Following("FIELD=VALUE"),
            help: "A field of the layout, and its new value as `load` takes it",
        },
    ],
};

/// Runs `bureau amend`, and returns the exit status: 0 if it is done, else the status of the refusal, whose sentences were
/// written on standard error. A refusal changes no pack, unless standard output failed, which is written after the pack is saved.
pub fn amend_file(rt: &HostRuntime, matches: &ArgMatches<'_>) -> u8
    ensures { result ≤ 4 }
{
    match amend_record(rt, matches) {
        Ok(()) => DONE,
        Err(fault) => fault.tell(&mut rt.stderr()),
    }
}

/// What the options ask for, except for the layout and the values.
#[derive(Clone, Copy)]
struct Asked<'a> {
    path: &'a str,
    save: &'a str,
    /// The area of the file.
    area: Area,
    label: &'a str,
    name: Name,
    /// The deck that has the layout.
    source: &'a str,
    which: Which<'a>,
    /// The text of the key, if one is given.
    key: &'a str,
    /// Whether a comma is before the decimals.
    has_comma: bool,
}

impl<'a> Asked<'a> {
    /// What the options ask for.
    fn read(rt: &HostRuntime, matches: &ArgMatches<'a>) -> Result<Asked<'a>, Fault> {
        let area = area_of(rt, value_of(matches, "area"))?;
        let label = value_of(matches, "label");
        let name = label_of(rt, label)?;
        let which = which_of(rt, matches)?;
        Ok(Asked {
            path: value_of(matches, "pack"),
            save: value_of(matches, "save"),
            area,
            label,
            name,
            source: value_of(matches, "layout"),
            which,
            key: value_of(matches, "key"),
            has_comma: matches.get_str("decimal") == Some(","),
        })
    }
}

/// The record of --key or --record.
fn which_of<'a>(rt: &HostRuntime, matches: &ArgMatches<'a>) -> Result<Which<'a>, Fault> {
    match (matches.get_str("key"), matches.get_one::<u32>("record")) {
        (Some(key), None) => Ok(Which::Key(key.as_bytes())),
        (None, Some(number)) => Ok(Which::Number(number)),
        _ => Err(wrong_words(
            rt.alloc(),
            "the record is that of --key or of --record; give one of them",
        )),
    }
}

/// The fields and values that the arguments give. Refused with a line for each argument without a value.
fn settings_of<'a>(rt: &HostRuntime, matches: &ArgMatches<'a>) -> Result<Vec<Setting<'a>>, Fault> {
    let mut settings = Vec::new(rt.alloc());
    let mut wrong = String::new(rt.alloc());
    for text in matches.get_strs("values").unwrap_or(&[]) {
        match (*text).split_once("=") {
            Some((name, value)) => settings.push(Setting {
                name: name.as_bytes(),
                value: value.as_bytes(),
            })?,
            None => push_no_setting(&mut wrong, *text)?,
        }
    }
    if wrong.is_empty() {
        Ok(settings)
    } else {
        Err(Fault::Usage(wrong))
    }
}

/// Appends the sentence of an argument without a value, on a line of its own.
fn push_no_setting(wrong: &mut String, text: &str) -> Result<(), AllocError> {
    if !wrong.is_empty() {
        wrong.push_str("\nerror: ")?;
    }
    let text = Shown(text);
    write!(
        wrong,
        "{text} has no = before a value; give each field with its value, as NAME='SMITH, J'"
    )
}

fn amend_record(rt: &HostRuntime, matches: &ArgMatches<'_>) -> Result<(), Fault> {
    if matches.get_flag("delete") {
        return Err(wrong_words(
            rt.alloc(),
            "a record can't be deleted, because the organization of files has no such operation; unload the file, take the row out of the table, and load the table with the capacity, retention and date of the file, which bureau list --table shows",
        ));
    }
    let asked = Asked::read(rt, matches)?;
    test_plain_text(rt, matches, is_input(asked.source))?;
    let settings = settings_of(rt, matches)?;
    let layout = amended_layout(rt, matches, asked.source)?;
    let (pack, locked) = pack_to_change(rt, matches, asked.path, asked.save)?;
    keep_input(rt, asked.save, asked.source)?;
    let journal = journal_for(rt, matches, asked.path, &pack, Posting::Nothing)?;
    let done = amended(rt, &asked, &layout, &settings, pack);
    let Amended { pack, changed } = unmade_if_refused(rt, &journal, done)?;
    let save = Save {
        locked,
        journal,
        work: Work::Amend,
    };
    let saved = saved(rt, matches, asked.save, save, &pack)?;
    tell_done(rt, done_sentence(rt.alloc(), &asked, &changed), saved);
    print_record(rt, &layout, &changed)
}

/// The layout of the deck, with the cells that the options ask for.
fn amended_layout(
    rt: &HostRuntime,
    matches: &ArgMatches<'_>,
    source: &str,
) -> Result<SourceLayout, Fault> {
    let reading = Reading {
        capitals: matches.get_flag("capitals"),
        thousands: matches.get_str("thousands"),
    };
    let layout = typed_layout_of(rt, matches, source)?;
    with_cells(rt, matches, source, layout, reading)
}

/// The pack with the record amended.
fn amended(
    rt: &HostRuntime,
    asked: &Asked<'_>,
    layout: &SourceLayout,
    settings: &[Setting<'_>],
    pack: Vec<u8>,
) -> Result<Amended, Fault> {
    let amendment = Amendment {
        area: asked.area,
        name: asked.name,
        layout: &layout.layout,
        chosen: &layout.records,
        which: asked.which,
        settings,
    };
    match amend(rt.alloc(), pack, &amendment) {
        Ok(amended) => Ok(amended),
        Err(fault) => Err(fault_of(rt, asked, layout, &fault)),
    }
}

/// What a refusal is to the command. Mistakes are reported before it, a line each.
fn fault_of(
    rt: &HostRuntime,
    asked: &Asked<'_>,
    layout: &SourceLayout,
    fault: &AmendFault,
) -> Fault {
    let words = Words::of_file(asked.path, asked.area, asked.label);
    match fault {
        AmendFault::NoMemory => Fault::NoMemory,
        AmendFault::Mount(fault) => refused(words.fill(rt.alloc(), mount_words(*fault))),
        AmendFault::Label(fault) => refused(words.fill(rt.alloc(), label_words(*fault))),
        AmendFault::OtherLength(length) => refused(
            words.with_number(u64::from(*length)).fill(
                rt.alloc(),
                "the records of {label} in area {area} of {path} have {number} bytes, and the layout's records have another length; give the source of a program that uses this file",
            ),
        ),
        AmendFault::Mistakes(mistakes) => refuse_mistakes(rt, asked, layout, mistakes),
    }
}

/// Reports mistakes, a line each.
fn refuse_mistakes(
    rt: &HostRuntime,
    asked: &Asked<'_>,
    layout: &SourceLayout,
    mistakes: &[Mistake],
) -> Fault {
    for mistake in mistakes {
        match mistake_sentence(rt.alloc(), mistake, layout, asked.key, asked.has_comma) {
            Ok(sentence) => {
                let sentence = sentence.as_str();
                let _ = writeln!(rt.stderr(), "{sentence}");
            }
            Err(_) => return Fault::NoMemory,
        }
    }
    let count = mistakes.len() as u64;
    let sentence = if count == 1 {
        "the amendment has 1 error; nothing is changed"
    } else {
        "the amendment has {number} errors; nothing is changed"
    };
    refused(
        Words::of_path("")
            .with_number(count)
            .fill(rt.alloc(), sentence),
    )
}

/// Which record was amended, or stays as it was.
fn done_sentence(
    alloc: Global,
    asked: &Asked<'_>,
    record: &AmendedRecord,
) -> Result<String, AllocError> {
    let number = u64::from(record.place) + 1;
    let sentence = if record.before.as_slice() == record.after.as_slice() {
        "record {number} of {label} in area {area} of {path} has these values already: it stays as it was"
    } else {
        "record {number} of {label} in area {area} of {path} is amended"
    };
    Words::of_file(asked.save, asked.area, asked.label)
        .with_number(number)
        .fill(alloc, sentence)
}

/// Prints the record on standard output: a line for each field, with its value, or with the values before and after.
fn print_record(
    rt: &HostRuntime,
    layout: &SourceLayout,
    record: &AmendedRecord,
) -> Result<(), Fault> {
    let mut text = Vec::new(rt.alloc());
    push_record(
        rt.alloc(),
        &mut text,
        &layout.layout,
        &record.before,
        &record.after,
    )?;
    match StandardOutput::new(rt).write_all(text.as_slice()) {
        Ok(()) => Ok(()),
        Err(error) => Err(Fault::File(unprinted_sentence(rt.alloc(), error)?)),
    }
}

/// The sentence for a record that can't be printed after the pack is saved.
fn unprinted_sentence(alloc: Global, error: io::Error) -> Result<String, AllocError> {
    let reason = OutputReason(error);
    format!(in alloc;
        "the pack is saved, but the record can't be printed, because standard output can't be written: {reason}"
    )
}
