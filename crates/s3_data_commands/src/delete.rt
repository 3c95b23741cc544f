//! `bureau delete`: a file deleted from a pack.
ghost use Rattle.std.specs.Prelude.{◌≤◌};

use crate::fault::Fault;
use crate::filled::push_name;
use crate::journaling::{journal_for, unmade_if_refused};
use crate::pack_words::{
    Save, area_of, care_sentence, label_of, pack_to_change, refused, saved, tell_done, wrong_words,
};
use crate::words::{AGAIN, AREA, JOURNAL, LABEL, LEVEL_ALIAS, OVERWRITE, PACK, SAVE};
use clap::ArgMatches;
use s3_journal::{Posting, Work};
use s3_labels::Area;
use s3_listing::{SlotFile, file_in_slot};
use s3_pack_care::{CareFault, Chosen};
use s3_paper_commands::status::{DONE, FILE_WRONG, NOTHING_SAVED, OPTIONS_WRONG, PACK_SAVED};
use s3_paper_commands::words::{CommandWords, Example, Takes, Word, value_of};
use s3_refusals::Shown;
use std::alloc::{AllocError, Global};

/// `bureau delete` and its options.
pub const DELETE: CommandWords = CommandWords {
    name: "delete",
    about: "Deletes a file from a pack, or frees a damaged slot",
    aliases: &[LEVEL_ALIAS],
    statuses: &[PACK_SAVED, NOTHING_SAVED, OPTIONS_WRONG, FILE_WRONG],
    examples: &[
        Example {
            line: "bureau delete --pack shop.pack --save shop.pack --area 1 --label OLDDATA",
            purpose: "Deletes a file of level 1",
        },
        Example {
            line: "bureau delete --pack shop.pack --save shop.pack --area 1 --slot 3",
            purpose: "Frees a damaged slot",
        },
    ],
    words: &[
        PACK,
        SAVE,
        AREA,
        Word {
            takes: Takes::Value("LABEL"),
            ..LABEL
        },
        Word {
            name: "slot",
            takes: Takes::Number("N", 0, 31),
            help: "The slot, 0 to 31, in place of a label; `list --table` shows the numbers",
        },
        Word {
            name: "permanent",
            takes: Takes::Nothing,
            help: "Deletes the file even if it is permanent",
        },
        JOURNAL,
        AGAIN,
        OVERWRITE,
    ],
};

/// Runs `bureau delete`, and returns the exit status: 0 if it is done, else the status of the refusal, whose sentence was written
/// on standard error; then nothing was saved.
pub fn delete(rt: &HostRuntime, matches: &ArgMatches<'_>) -> u8
    ensures { result ≤ 4 }
{
    match delete_file(rt, matches) {
        Ok(()) => DONE,
        Err(fault) => fault.tell(&mut rt.stderr()),
    }
}

fn delete_file(rt: &HostRuntime, matches: &ArgMatches<'_>) -> Result<(), Fault> {
    let area = area_of(rt, value_of(matches, "area"))?;
    let chosen = chosen_file(rt, matches)?;
    let save = value_of(matches, "save");
    let path = value_of(matches, "pack");
    let (pack, locked) = pack_to_change(rt, matches, path, save)?;
    let journal = journal_for(rt, matches, path, &pack, Posting::Nothing)?;
    let freed = freed_file(rt.alloc(), area, chosen, &pack);
    let done = without(rt.alloc(), matches, area, chosen, pack);
    let pack = unmade_if_refused(rt, &journal, done)?;
    let how = Save {
        locked,
        journal,
        work: Work::Delete,
    };
    let saved = saved(rt, matches, save, how, &pack)?;
    tell_done(
        rt,
        deleted_sentence(rt.alloc(), matches, area, save, freed),
        saved,
    );
    Ok(())
}

/// The file of the slot that is to be freed, if its label is valid.
fn freed_file(alloc: Global, area: Area, chosen: Chosen, pack: &[u8]) -> Option<SlotFile> {
    let Chosen::Slot(slot) = chosen else {
        return None;
    };
    match file_in_slot(alloc, pack, area, slot) {
        Ok(found) => found,
        Err(_) => None,
    }
}

/// A pack without the file that is meant.
fn without(
    alloc: Global,
    matches: &ArgMatches<'_>,
    area: Area,
    chosen: Chosen,
    pack: Vec<u8>,
) -> Result<Vec<u8>, Fault> {
    match s3_pack_care::delete(alloc, pack, area, chosen, matches.get_flag("permanent")) {
        Ok(pack) => Ok(pack),
        Err(fault) => Err(refused(refusal_sentence(alloc, matches, area, fault))),
    }
}

/// The file that the options mean.
fn chosen_file(rt: &HostRuntime, matches: &ArgMatches<'_>) -> Result<Chosen, Fault> {
    match (matches.get_str("label"), matches.get_one::<u16>("slot")) {
        (Some(label), None) => Ok(Chosen::Label(label_of(rt, label)?)),
        (None, Some(slot)) => Ok(Chosen::Slot(slot)),
        _ => Err(wrong_words(
            rt.alloc(),
            "name the file by --label, or its slot by --slot, and not by both",
        )),
    }
}

/// Why nothing is deleted.
fn refusal_sentence(
    alloc: Global,
    matches: &ArgMatches<'_>,
    area: Area,
    fault: CareFault,
) -> Result<String, AllocError> {
    let file = file_meant(alloc, matches, fault)?;
    care_sentence(alloc, value_of(matches, "pack"), area, file.as_str(), fault)
}

/// The file that is meant: its label, or its slot in words.
fn file_meant(
    alloc: Global,
    matches: &ArgMatches<'_>,
    fault: CareFault,
) -> Result<String, AllocError> {
    let slot = matches.get_one::<u16>("slot").unwrap_or(0);
    match (matches.get_str("label"), fault) {
        (Some(label), _) => String::from_str(alloc, label),
        (None, CareFault::NoFile | CareFault::NoSlot) => format!(in alloc; "slot {slot}"),
        (None, _) => format!(in alloc; "the file in slot {slot}"),
    }
}

/// What was deleted.
fn deleted_sentence(
    alloc: Global,
    matches: &ArgMatches<'_>,
    area: Area,
    save: &str,
    freed: Option<SlotFile>,
) -> Result<String, AllocError> {
    let save = Shown(save);
    let area = area.number();
    if let Some(label) = matches.get_str("label") {
        return format!(in alloc; "{label} is deleted from area {area} of {save}");
    }
    let slot = matches.get_one::<u16>("slot").unwrap_or(0);
    let mut text = format!(in alloc; "slot {slot} in area {area} of {save} is freed")?;
    if let Some(file) = freed {
        push_freed(&mut text, file)?;
    }
    Ok(text)
}

/// Appends which file a freed slot had.
fn push_freed(text: &mut String, file: SlotFile) -> Result<(), AllocError> {
    text.push_str(", and its file ")?;
    push_name(text, Some(file.name))?;
    match file.records {
        1 => text.push_str(" with 1 record is deleted"),
        records => write!(text, " with {records} records is deleted"),
    }
}
