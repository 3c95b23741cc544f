//! `bureau dump` and `bureau restore`: a pack as text, and the pack that a text represents.
ghost use Rattle.std.specs.Prelude.{◌≤◌};

use crate::dump_layouts::{asked_files, file_layouts, layouts_found, missing_notes};
use crate::record_lines::{LongRecord, long_record};
use clap::ArgMatches;
use s3_data_commands::fault::{Fault, Use, of_call, of_pack};
use s3_data_commands::filled::{Words, push_name};
use s3_data_commands::pack_words::{
    Save, limit_of, output_beside, pack_of, refuse_file_there, refused, saved, tell, tell_done,
};
use s3_data_commands::sentences::{output_sentence, unread_sentence};
use s3_data_commands::standard_input::{InputFault, read_input};
use s3_data_commands::words::{LAYOUT_PLAIN, OVERWRITE, PACK, SAVE};
use s3_dump::{RestoreFault, Unlaid};
use s3_host_files::{Limit, StandardOutput, keep_save_apart, retried, save_new_pack};
use s3_journal::Work;
use s3_labels::{AreaSlots, MountFault};
use s3_listing::{ListFault, mount_slots};
use s3_paper_commands::status::{
    DONE, FILE_WRONG, NOTHING_SAVED, OPTIONS_WRONG, PACK_SAVED, PERSON_NEEDED, REFUSED,
};
use s3_paper_commands::words::{CommandWords, Example, Status, Takes, Word, value_of};
use s3_refusals::{WideText, beginning_words, begins_as_pack, wide_text};
use std::alloc::{AllocError, Global};
use std::io;
use std::io::{IsTerminal, Write};

/// The refusal of a text that is too long.
const TOO_LONG: &str =
    "standard input has more than 268,435,456 bytes, and no dump of a pack is as long; give the text that `bureau dump` printed, and nothing after it";

/// The first line of each dump.
const FIRST_NOTE: &[u8] = b"# a dump of `bureau`: [codes], *zeros, # notes";

/// The bytes of a sector.
const SECTOR: u64 = 256;

/// `bureau dump` and its options.
pub const DUMP: CommandWords = CommandWords {
    name: "dump",
    about: "Prints a pack as text, line by line",
    aliases: &[],
    statuses: &[
        Status {
            number: DONE,
            meaning: "the text is written",
        },
        Status {
            number: REFUSED,
            meaning: "the pack, a file or a layout is refused, or memory ran out",
        },
        OPTIONS_WRONG,
        FILE_WRONG,
    ],
    examples: &[
        Example {
            line: "bureau dump --pack shop.pack > shop.dump",
            purpose: "Writes a pack as text, for diff or a version control system",
        },
        Example {
            line: "bureau dump --pack shop.pack --layout CUSTOM=customers.rpg > shop.dump",
            purpose: "Writes the fields of the records of a file, too",
        },
    ],
    words: &[
        PACK,
        Word {
            name: "layout",
            takes: Takes::Values("[AREA:]LABEL=FILE"),
            help: "A file whose fields are printed, and a deck with the RPG source whose I sheet has them",
        },
        LAYOUT_PLAIN,
    ],
};

/// `bureau restore` and its options.
pub const RESTORE: CommandWords = CommandWords {
    name: "restore",
    about: "Makes the pack again whose dump is on standard input",
    aliases: &[],
    statuses: &[
        PACK_SAVED,
        NOTHING_SAVED,
        OPTIONS_WRONG,
        FILE_WRONG,
        Status {
            number: PERSON_NEEDED,
            meaning: "the pack is saved, and can't be used: its dump isn't whole, or it was damaged",
        },
    ],
    examples: &[Example {
        line: "bureau restore --save new.pack < shop.dump",
        purpose: "Makes a pack of its text",
    }],
    words: &[
        SAVE,
        Word {
            help: "Lets --save replace a pack or an empty file",
            ..OVERWRITE
        },
    ],
};

/// Runs `bureau dump`, and returns the exit status: 0 if it is done, else the status of the refusal, whose sentence
/// was written on standard error.
pub fn dump_pack(rt: &HostRuntime, matches: &ArgMatches<'_>) -> u8
    ensures { result ≤ 4 }
{
    match print_dump(rt, matches, value_of(matches, "pack")) {
        Ok(()) => DONE,
        Err(fault) => fault.tell(&mut rt.stderr()),
    }
}

fn print_dump(rt: &HostRuntime, matches: &ArgMatches<'_>, path: &str) -> Result<(), Fault> {
    let asked = asked_files(rt, matches)?;
    let pack = pack_of(rt, path)?;
    let found = layouts_found(rt, matches, path, &pack, &asked)?;
    let layouts = file_layouts(rt.alloc(), &found)?;
    let dump = s3_dump::dump(rt.alloc(), &pack, &layouts)?;
    let notes = missing_notes(rt.alloc(), &found)?;
    let mut output = output_beside(rt, path)?;
    if let Err(error) = write_texts(&mut output, dump.text.as_slice(), notes.as_str().as_bytes()) {
        return Err(Fault::File(output_sentence(rt.alloc(), Some(error))?));
    }
    for file in &dump.unlaid {
        tell(rt, unlaid_sentence(rt.alloc(), path, file))?;
    }
    Ok(())
}

/// Writes two texts to standard output, one after the other.
fn write_texts(output: &mut StandardOutput<'_>, one: &[u8], other: &[u8]) -> io::Result<()> {
    output.write_all(one)?;
    output.write_all(other)
}

/// The sentence that reports how many records of a file have no fields in its dump.
fn unlaid_sentence(alloc: Global, path: &str, file: &Unlaid) -> Result<String, AllocError> {
    let sentence = if file.count == 1 {
        "1 record of {field} in area {area} of {path} is printed without fields: it has the codes of no record type with fields in the layout"
    } else {
        "{number} records of {field} in area {area} of {path} are printed without fields: they have the codes of no record type with fields in the layout"
    };
    Words::of_file(path, file.area, "")
        .with_number(u64::from(file.count))
        .with_fields(Some(file.name), None)
        .fill(alloc, sentence)
}

/// Runs `bureau restore`, and returns the exit status: 0 if it is done, 4 if the pack is saved and can't be used,
/// else the status of the refusal, whose sentence was written on standard error; then nothing is saved.
pub fn restore_pack(rt: &HostRuntime, matches: &ArgMatches<'_>) -> u8
    ensures { result ≤ 4 }
{
    match save_restored(rt, matches, value_of(matches, "save")) {
        Ok(()) => DONE,
        Err(fault) => fault.tell(&mut rt.stderr()),
    }
}

fn save_restored(rt: &HostRuntime, matches: &ArgMatches<'_>, save: &str) -> Result<(), Fault> {
    if let Err(fault) = keep_save_apart(rt, save) {
        return Err(of_pack(rt, Use::Saves, &fault, save));
    }
    if !matches.get_flag("overwrite") {
        refuse_file_there(rt, save)?;
    }
    let text = dump_text(rt)?;
    refuse_second_dump(rt, &text)?;
    let pack = restored(rt, &text)?;
    match mount_slots(rt.alloc(), &pack) {
        Ok(areas) => {
            refuse_long_record(rt, &text, &areas)?;
            save_good(rt, matches, save, &pack)
        }
        Err(ListFault::Mount(fault)) => {
            let limit = limit_of(rt, matches)?;
            let words = Words::of_path(save).with_number(line_ends(&text));
            save_damaged(rt, save, words, fault, limit, &pack)
        }
        Err(_) => Err(Fault::NoMemory),
    }
}

/// Saves a pack that can be used.
fn save_good(
    rt: &HostRuntime,
    matches: &ArgMatches<'_>,
    save: &str,
    pack: &[u8],
) -> Result<(), Fault> {
    let how = Save {
        locked: None,
        journal: None,
        work: Work::Restore,
    };
    let saved = saved(rt, matches, save, how, pack)?;
    tell_done(rt, restored_sentence(rt.alloc(), save, pack), saved);
    Ok(())
}

/// Which pack is restored, and how many bytes it has after its sectors, if it has any.
fn restored_sentence(alloc: Global, save: &str, pack: &[u8]) -> Result<String, AllocError> {
    let sentence = match bytes_after(pack) {
        0 => "{path} is restored",
        1 =>
            "{path} is restored; 1 byte follows the sectors of its header, and no command reads it",
        _ =>
            "{path} is restored; {number} bytes follow the sectors of its header, and no command reads them",
    };
    Words::of_path(save)
        .with_number(bytes_after(pack))
        .fill(alloc, sentence)
}

/// How many bytes a pack has after the sectors of its header, whose number follows the mark of eight bytes.
fn bytes_after(pack: &[u8]) -> u64 {
    match pack.get(8..10) {
        Some([high, low]) => {
            let sectors = u64::from(*high) * 256 + u64::from(*low);
            (pack.len() as u64).saturating_sub(sectors * SECTOR)
        }
        _ => 0,
    }
}

/// Refuses a text in which a second dump begins, whose bytes would follow those of the first.
fn refuse_second_dump(rt: &HostRuntime, text: &[u8]) -> Result<(), Fault> {
    match second_dump(text) {
        Some(line) => Err(refused(
            Words::of_path("").with_number(line).fill(
                rt.alloc(),
                "line {number} of standard input begins a second dump; give the text that `bureau dump` printed for one pack",
            ),
        )),
        None => Ok(()),
    }
}

/// Refuses a text in which a record has more bytes than the records of its file.
fn refuse_long_record(rt: &HostRuntime, text: &[u8], areas: &AreaSlots) -> Result<(), Fault> {
    match long_record(text, areas) {
        Some(found) => Err(refused(long_sentence(rt.alloc(), found))),
        None => Ok(()),
    }
}

/// Why a dump with a record that is too long isn't restored.
fn long_sentence(alloc: Global, found: LongRecord) -> Result<String, AllocError> {
    let (line, bytes) = (found.line, found.bytes);
    let (area, length) = (found.area.number(), found.record_length);
    let mut text = String::new(alloc);
    write!(
        text,
        "line {line} of standard input has {bytes} bytes, and a record of "
    )?;
    push_name(&mut text, Some(found.name))?;
    write!(
        text,
        " in area {area} has {length}, so all bytes after it would be in the wrong place; shorten the line"
    )?;
    Ok(text)
}

/// The number of the line, from 1, with which a second dump begins in a text, if one does.
fn second_dump(text: &[u8]) -> Option<u64> {
    let mut number = 0u64;
    for line in text.split(|byte| *byte == b'\n') {
        number = number.saturating_add(1);
        if number > 1 && line == FIRST_NOTE {
            return Some(number);
        }
    }
    None
}

/// Saves a pack that can't be used, but only to a new name, even with `--overwrite`: its dump may have been cut off
/// after this line, and a good pack would be lost.
fn save_damaged(
    rt: &HostRuntime,
    save: &str,
    words: Words<'_>,
    fault: MountFault,
    limit: Option<Limit>,
    pack: &[u8],
) -> Result<(), Fault> {
    match retried::exists(rt, save) {
        Ok(false) => {}
        Ok(true) => return Err(refused(words.fill(rt.alloc(), kept_words(fault)))),
        Err(error) => return Err(of_call(rt, Use::Saves, &error, save)),
    }
    match save_new_pack(rt, save, limit, &[None], pack) {
        Ok(()) => Err(Fault::Waits(words.fill(rt.alloc(), damaged_words(fault))?)),
        Err(fault) => Err(of_pack(rt, Use::Saves, &fault, save)),
    }
}

/// Why a file isn't replaced by a pack that can't be used, and what helps.
fn kept_words(fault: MountFault) -> &'static str {
    match fault {
        MountFault::BadHeader =>
            "{path} isn't replaced, because the pack of the dump can't be used: its quotas are those of no pack; correct the dump, or save to a new name",
        MountFault::BadRegions =>
            "{path} isn't replaced, because the pack of the dump can't be used: its regions aren't whole tracks within it, or they meet; correct the dump, or save to a new name",
        MountFault::Short =>
            "{path} isn't replaced, because the dump isn't whole: it ends after line {number} of standard input, with fewer sectors than its header says, or than 168; give the whole text that `bureau dump` printed, or save to a new name",
    }
}

/// Why a pack that is saved can't be used, and what helps.
fn damaged_words(fault: MountFault) -> &'static str {
    match fault {
        MountFault::BadHeader =>
            "{path} is saved, but can't be used: its quotas are those of no pack; correct the dump, or take a copy that is whole",
        MountFault::BadRegions =>
            "{path} is saved, but can't be used: its regions aren't whole tracks within it, or they meet; correct the dump, or take a copy that is whole",
        MountFault::Short =>
            "{path} is saved, but can't be used: the dump ends after line {number} of standard input, with fewer sectors than its header says, or than 168; give the whole text that `bureau dump` printed",
    }
}

/// The pack that a dump represents.
fn restored(rt: &HostRuntime, text: &[u8]) -> Result<Vec<u8>, Fault> {
    let pack = match s3_dump::restore(rt.alloc(), text) {
        Ok(pack) => pack,
        Err(fault) => return Err(no_dump(rt, text, fault)),
    };
    if beginning_words(&pack).is_empty() {
        return Ok(pack);
    }
    Err(refused(String::from_str(
        rt.alloc(),
        "standard input isn't the dump of a pack: its bytes don't begin with S3PACK01 or S3PACK02; give the whole text that `bureau dump` printed",
    )))
}

/// The text of standard input. One that is too long is refused.
fn dump_text(rt: &HostRuntime) -> Result<Vec<u8>, Fault> {
    if rt.stdin().is_terminal() {
        let _ = writeln!(
            rt.stderr(),
            "restore waits for a dump on standard input, as `bureau restore --save NEW < DUMP` gives it"
        );
    }
    match read_input(rt.alloc(), rt.stdin()) {
        Ok(text) => Ok(text),
        Err(InputFault::TooLong) => Err(refused(String::from_str(rt.alloc(), TOO_LONG))),
        Err(InputFault::Failed(error)) => {
            Err(Fault::File(unread_sentence(rt.alloc(), error, "dump")?))
        }
        Err(InputFault::NoMemory) => Err(Fault::NoMemory),
    }
}

/// The refusal of standard input that is no dump.
fn no_dump(rt: &HostRuntime, text: &[u8], fault: RestoreFault) -> Fault {
    match fault {
        RestoreFault::NoMemory => Fault::NoMemory,
        RestoreFault::NoDump(line) => {
            refused(
                Words::of_path("")
                    .with_number(line)
                    .fill(rt.alloc(), no_dump_words(text, line)),
            )
        }
    }
}

/// What is wrong with a line, and what helps.
fn no_dump_words(text: &[u8], line: u64) -> &'static str {
    if let Some(words) = encoding_cure(text) {
        words
    } else if begins_as_pack(text) {
        "standard input is a pack, and no dump of one; copy it by `cp`, or give the text that `bureau dump` printed"
    } else if has_return(text, line) {
        "line {number} of standard input has a carriage return, which no dump has; take the carriage returns out first, as by `tr -d '\\r'`"
    } else {
        "line {number} of standard input isn't one of a dump; give the whole text that `bureau dump` printed"
    }
}

/// What is wrong with the encoding of a text, if it is one in which no dump is.
fn encoding_cure(text: &[u8]) -> Option<&'static str> {
    if text.starts_with(&[0xef, 0xbb, 0xbf]) {
        return Some(
            "standard input begins with a byte order mark (EF BB BF), which no dump has; leave it out, as by `tail -c +4 DUMP`",
        );
    }
    match wide_text(text)? {
        WideText::Utf16Marked | WideText::Utf16Low | WideText::Utf16High => Some(
            "standard input is text in UTF-16; convert it by `iconv -f UTF-16 -t UTF-8 DUMP`",
        ),
        WideText::Utf32Marked | WideText::Utf32Low | WideText::Utf32High => Some(
            "standard input is text in UTF-32; convert it by `iconv -f UTF-32 -t UTF-8 DUMP`",
        ),
    }
}

/// Whether a line of a text, from 1, has a carriage return.
fn has_return(text: &[u8], line: u64) -> bool {
    let mut number = 1u64;
    for character in text {
        match *character {
            b'\n' => number = number.saturating_add(1),
            b'\r' if number == line => return true,
            _ => {}
        }
    }
    false
}

/// How many lines of a text end.
fn line_ends(text: &[u8]) -> u64 {
    let mut count = 0u64;
    for character in text {
        if *character == b'\n' {
            count = count.saturating_add(1);
        }
    }
    count
}
