//! `bureau unload`: the records of a file, for other programs.
ghost use Rattle.std.specs.Prelude.{◌≤◌};

use crate::cells::{Reading, with_cells};
use crate::fault::Fault;
use crate::fixed::{
    AS_ASCII, AS_EBCDIC, LINE_FEEDS, fixed_form, hidden_place, hidden_sentence, refuse_cells,
};
use crate::inputs::{delimiter_of, layout_of, test_plain_text, whole_records_of};
use crate::load::{MOST_TOLD, tell_others};
use crate::pack_words::{area_of, label_of, output_beside, pack_of, tell, wrong_words};
use crate::sentences::{
    hidden_values_sentence, other_records_sentence, others_sentence, output_sentence,
    unload_sentence, value_sentence,
};
use crate::words::{
    AREA, DATE_FIELDS, DECIMAL, DELIMITER, LABEL, LAYOUT, LAYOUT_FILE, LAYOUT_PLAIN, LAYOUT_TYPE,
    LEVEL_ALIAS, PACK, SAFE_CELLS,
};
use clap::ArgMatches;
use s3_cards::Name;
use s3_host_files::{StandardOutput, is_input};
use s3_labels::Area;
use s3_layout::SourceLayout;
use s3_paper_commands::status::{DONE, FILE_WRONG, OPTIONS_WRONG, PERSON_NEEDED, REFUSED};
use s3_paper_commands::words::{Choice, CommandWords, Example, Status, Takes, Word, value_of};
use s3_record_types::ChosenRecords;
use s3_unload::{FixedForm, LineForm, UnloadFault, find_file, hidden_values};
use std::alloc::Global;
use std::io::Write;

/// The forms in which records are written.
const FORMS: &'static [Choice] = &[
    Choice {
        name: "csv",
        help: "A table in CSV; needs --layout",
    },
    Choice {
        name: "text",
        help: "A line of characters for each record",
    },
    Choice {
        name: "hex",
        help: "A line of hexadecimal digits for each record",
    },
    AS_EBCDIC,
    AS_ASCII,
];

/// `bureau unload` and its options.
pub const UNLOAD: CommandWords = CommandWords {
    name: "unload",
    about: "Writes the records of a file as a table in CSV, as texts, in hexadecimal digits or as records of a fixed length",
    aliases: &[LEVEL_ALIAS],
    statuses: &[
        Status {
            number: DONE,
            meaning: "all records are written",
        },
        Status {
            number: REFUSED,
            meaning: "the pack, the file or the layout is refused, or memory ran out",
        },
        OPTIONS_WRONG,
        FILE_WRONG,
        Status {
            number: PERSON_NEEDED,
            meaning: "a value can't be shown; the records before it are written",
        },
    ],
    examples: &[
        Example {
            line: "bureau unload --pack shop.pack --area 1 --label CUSTOM --layout customers.rpg > customers.csv",
            purpose: "Writes a file as a table in CSV",
        },
        Example {
            line: "bureau unload --pack shop.pack --area 1 --label CUSTOM --as hex",
            purpose: "Shows the bytes of each record",
        },
        Example {
            line: "bureau unload --pack shop.pack --area 1 --label CUSTOM --as ebcdic > customers.dat",
            purpose: "Writes the records end to end, for another program",
        },
    ],
    words: &[
        PACK,
        AREA,
        LABEL,
        LAYOUT,
        LAYOUT_PLAIN,
        LAYOUT_FILE,
        LAYOUT_TYPE,
        Word {
            name: "as",
            takes: Takes::OneOf("FORM", FORMS),
            help: "How the records are written; by default csv with a layout, else text",
        },
        LINE_FEEDS,
        DELIMITER,
        SAFE_CELLS,
        DECIMAL,
        DATE_FIELDS,
    ],
};

/// Runs `bureau unload`, and returns the exit status: 0 if it is done, 4 if a value can't be shown and the rows before it are
/// written. After a refusal it is the status of the refusal, whose sentence was written on standard error.
pub fn unload(rt: &HostRuntime, matches: &ArgMatches<'_>) -> u8
    ensures { result ≤ 4 }
{
    match unload_file(rt, matches) {
        Ok(()) => DONE,
        Err(fault) => fault.tell(&mut rt.stderr()),
    }
}

fn unload_file(rt: &HostRuntime, matches: &ArgMatches<'_>) -> Result<(), Fault> {
    let area = area_of(rt, value_of(matches, "area"))?;
    let label = value_of(matches, "label");
    let name = label_of(rt, label)?;
    let path = value_of(matches, "pack");
    let reads_layout = matches
        .get_str("layout")
        .is_some_and(|source| is_input(source));
    test_plain_text(rt, matches, reads_layout)?;
    if let Some(form) = fixed_form(rt, matches)? {
        refuse_cells(rt, matches)?;
        test_choice(rt, matches)?;
        let file = PackFile {
            path,
            area,
            label,
            name,
        };
        return unload_fixed(rt, matches, file, form);
    }
    let form = form_of(rt, matches)?;
    test_words(rt, matches, form)?;
    let done = match (form, matches.get_str("layout")) {
        (Some(form), _) => unload_lines(rt, path, area, name, form)?,
        (None, Some(layout)) => {
            let file = PackFile {
                path,
                area,
                label,
                name,
            };
            unload_table(rt, matches, file, layout)?
        }
        (None, None) => {
            return Err(wrong_words(
                rt.alloc(),
                "--as csv needs a layout; name a deck with the source by --layout",
            ));
        }
    };
    match done {
        Ok(0) => Ok(()),
        Ok(others) => tell(rt, others_sentence(rt.alloc(), path, area, label, others)),
        Err(fault) => Err(fault_of(rt.alloc(), path, area, label, &fault)),
    }
}

/// A file of a pack, as the options name it.
#[derive(Clone, Copy)]
struct PackFile<'a> {
    /// The file of the pack.
    path: &'a str,
    /// The area of the file.
    area: Area,
    /// The label.
    label: &'a str,
    /// The label as a name.
    name: Name,
}

/// Writes the records of a file in a form of a fixed length: all of them, or those of the type that the options name.
fn unload_fixed(
    rt: &HostRuntime,
    matches: &ArgMatches<'_>,
    file: PackFile<'_>,
    form: FixedForm,
) -> Result<(), Fault> {
    let PackFile {
        path,
        area,
        label,
        name: _,
    } = file;
    let layout = chosen_layout(rt, matches)?;
    let pack = pack_of(rt, path)?;
    let mut output = output_beside(rt, path)?;
    match unload_chosen(rt.alloc(), &pack, file, form, &layout, &mut output) {
        Ok(0) => Ok(()),
        Ok(others) => tell(
            rt,
            other_records_sentence(rt.alloc(), path, area, label, others),
        ),
        Err(UnloadFault::File) => Err(unwritten(rt.alloc(), &output)),
        Err(fault) => Err(fixed_fault(rt.alloc(), path, area, label, &fault)),
    }
}

/// The layout that chooses the records, if the options name their type.
fn chosen_layout(
    rt: &HostRuntime,
    matches: &ArgMatches<'_>,
) -> Result<Option<SourceLayout>, Fault> {
    match (matches.get_str("type"), matches.get_str("layout")) {
        (Some(_), Some(source)) => Ok(Some(whole_records_of(rt, matches, source)?)),
        _ => Ok(None),
    }
}

/// Writes the records of a file of a pack that a layout chooses, all if there is none. Returns how many it leaves out.
fn unload_chosen(
    alloc: Global,
    pack: &[u8],
    file: PackFile<'_>,
    form: FixedForm,
    layout: &Option<SourceLayout>,
    output: &mut StandardOutput<'_>,
) -> Result<u32, UnloadFault> {
    let all = ChosenRecords::All;
    let chosen = match layout {
        Some(layout) => {
            test_length(alloc, pack, file, layout.layout.record_length)?;
            &layout.records
        }
        None => &all,
    };
    s3_unload::unload_fixed(alloc, pack, file.area, file.name, form, chosen, output)
}

/// Refuses a file whose records have another length than those of the layout.
fn test_length(
    alloc: Global,
    pack: &[u8],
    file: PackFile<'_>,
    record_length: u16,
) -> Result<(), UnloadFault> {
    let (_store, label) = find_file(alloc, pack, file.area, file.name)?;
    if label.record_length == record_length {
        Ok(())
    } else {
        Err(UnloadFault::OtherLength(label.record_length))
    }
}

/// What a refusal is to the command, if records of a fixed length were to be written.
fn fixed_fault(alloc: Global, path: &str, area: Area, label: &str, fault: &UnloadFault) -> Fault {
    let Some((record, position)) = hidden_place(fault) else {
        return fault_of(alloc, path, area, label, fault);
    };
    match hidden_sentence(alloc, label, record, position) {
        Ok(sentence) => Fault::Waits(sentence),
        Err(_) => Fault::NoMemory,
    }
}

/// Writes the records of a file as lines. Returns how many records have no line: 0.
fn unload_lines(
    rt: &HostRuntime,
    path: &str,
    area: Area,
    name: Name,
    form: LineForm,
) -> Result<Result<u32, UnloadFault>, Fault> {
    let pack = pack_of(rt, path)?;
    let mut output = output_beside(rt, path)?;
    match s3_unload::unload_lines(rt.alloc(), &pack, area, name, form, &mut output) {
        Ok(()) => Ok(Ok(0)),
        Err(UnloadFault::File) => Err(unwritten(rt.alloc(), &output)),
        Err(fault) => Ok(Err(fault)),
    }
}

/// Writes the table of a file. Returns the number of records of other types than the requested one, which have no row.
fn unload_table(
    rt: &HostRuntime,
    matches: &ArgMatches<'_>,
    file: PackFile<'_>,
    layout: &str,
) -> Result<Result<u32, UnloadFault>, Fault> {
    let delimiter = delimiter_of(rt, matches)?;
    let reading = Reading {
        capitals: false,
        thousands: None,
    };
    let layout = with_cells(
        rt,
        matches,
        layout,
        layout_of(rt, matches, layout)?,
        reading,
    )?;
    let pack = pack_of(rt, file.path)?;
    let mut output = output_beside(rt, file.path)?;
    let done = s3_unload::unload(
        rt.alloc(),
        &pack,
        file.area,
        file.name,
        &layout.layout,
        &layout.records,
        delimiter,
        &mut output,
    );
    match done {
        Err(UnloadFault::File) => return Err(unwritten(rt.alloc(), &output)),
        Err(UnloadFault::Hidden(first, ..)) => tell_hidden(rt, &pack, file, &layout, first)?,
        _ => {}
    }
    Ok(done)
}

/// What a failed write of standard output is to the command.
fn unwritten(alloc: Global, output: &StandardOutput<'_>) -> Fault {
    match output_sentence(alloc, output.failure()) {
        Ok(sentence) => Fault::File(sentence),
        Err(_) => Fault::NoMemory,
    }
}

/// Reports all values of a table that can't be shown, a line each, and refuses them, given the number of the first record that has one.
/// A single one is left to the caller.
fn tell_hidden(
    rt: &HostRuntime,
    pack: &[u8],
    file: PackFile<'_>,
    layout: &SourceLayout,
    first: u32,
) -> Result<(), Fault> {
    let found = match hidden_values(
        rt.alloc(),
        pack,
        file.area,
        file.name,
        &layout.layout,
        &layout.records,
        MOST_TOLD,
    ) {
        Ok(found) => found,
        Err(_) => return Err(Fault::NoMemory),
    };
    if found.count < 2 {
        return Ok(());
    }
    for value in &found.values {
        let sentence = value_sentence(rt.alloc(), file.label, *value)?;
        let sentence = sentence.as_str();
        let _ = writeln!(rt.stderr(), "{sentence}");
    }
    tell_others(rt, found.count);
    let PackFile {
        path,
        area,
        label,
        ..
    } = file;
    Err(Fault::Waits(hidden_values_sentence(rt.alloc(), path, area, label, found.count, first)?))
}

/// The form of lines that the options ask for; none for a table.
fn form_of(rt: &HostRuntime, matches: &ArgMatches<'_>) -> Result<Option<LineForm>, Fault> {
    let default = match matches.get_str("layout") {
        Some(_) => "csv",
        None => "text",
    };
    match matches.get_str("as").unwrap_or(default) {
        "text" => Ok(Some(LineForm::Text)),
        "hex" => Ok(Some(LineForm::Hexadecimal)),
        "csv" => Ok(None),
        _ => Err(wrong_words(rt.alloc(), "a file is unloaded as csv, text or hex")),
    }
}

/// Refuses options that choose in a layout if there is none.
fn test_choice(rt: &HostRuntime, matches: &ArgMatches<'_>) -> Result<(), Fault> {
    let chooses = matches.get_str("file").is_some() || matches.get_str("type").is_some();
    if chooses && matches.get_str("layout").is_none() {
        return Err(wrong_words(
            rt.alloc(),
            "--file and --type choose in a layout; name a deck with the source by --layout, or leave them out",
        ));
    }
    Ok(())
}

/// Refuses options that would have no effect: those that choose in a layout if there is none, and a delimiter if there are no
/// cells.
fn test_words(
    rt: &HostRuntime,
    matches: &ArgMatches<'_>,
    form: Option<LineForm>,
) -> Result<(), Fault> {
    test_choice(rt, matches)?;
    let is_styled = matches.get_flag("safe-cells")
        || matches.get_str("decimal").is_some()
        || matches.get_str("date-fields").is_some();
    if form.is_some() && is_styled {
        return Err(wrong_words(
            rt.alloc(),
            "--safe-cells, --decimal and --date-fields are about the cells of a table, and text and hex have none; leave them out, or give a layout and --as csv",
        ));
    }
    if form.is_some() && matches.get_str("type").is_some() {
        return Err(wrong_words(
            rt.alloc(),
            "--type chooses the rows of a table, and text and hex have all records; leave it out, or give a layout and --as csv",
        ));
    }
    if form.is_some() && matches.get_str("delimiter").is_some() {
        return Err(wrong_words(
            rt.alloc(),
            "--delimiter is for tables, and text and hex have no cells; leave it out, or give a layout and --as csv",
        ));
    }
    Ok(())
}

/// What a refusal is to the command.
fn fault_of(alloc: Global, path: &str, area: Area, label: &str, fault: &UnloadFault) -> Fault {
    match (fault, unload_sentence(alloc, path, area, label, fault)) {
        (_, Err(_)) => Fault::NoMemory,
        (UnloadFault::File, Ok(sentence)) => Fault::File(sentence),
        (UnloadFault::Hidden(..) | UnloadFault::NoCharacter(..), Ok(sentence)) => {
            Fault::Waits(sentence)
        }
        (_, Ok(sentence)) => Fault::Refused(sentence),
    }
}
