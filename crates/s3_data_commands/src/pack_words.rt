//! The values of the options for the care of a pack, and the sentences of its refusals.
use crate::fault::{Fault, Use, of_call, of_pack};
use crate::filled::Words;
use crate::journaling::OpenJournal;
use clap::ArgMatches;
use s3_cards::{LevelId, Name, is_name, to_ebcdic};
use s3_host_files::{
    FileFault, Limit, LockedPack, STANDARD_INPUT, StandardOutput, Target, is_empty_at, is_input,
    is_pack_at, keep_save_apart, read_pack, read_to_save, retried, save_new_pack, save_pack,
    shown_name,
};
use s3_journal::Work;
use s3_labels::{Area, LabelFault, MountFault};
use s3_listing::{FreeRoom, file_size, free_room};
use s3_pack_care::CareFault;
use s3_refusals::{Shown, beginning_words, is_closed};
use std::alloc::{AllocError, Global};
use std::io;
use std::io::Write;
use std::path::Path;

/// Why a text is no label.
pub const NO_LABEL: &str =
    "{label} is no label; one has 1 to 8 capital letters, digits, $, # or @, and begins with no digit";

/// Why no file is made in an area with a damaged slot.
pub const DAMAGED: &str =
    "slot {number} of area {area} of {path} is damaged, and it isn't known what it has: delete it by `bureau delete --slot {number}` first, or correct it";

/// The area that a word names.
pub fn area_of(rt: &HostRuntime, text: &str) -> Result<Area, Fault> {
    match area_named(text) {
        Some(area) => Ok(area),
        None => Err(wrong_words(
            rt.alloc(),
            "an area is 0, for the masters, or 1 or 2, for a level",
        )),
    }
}

/// The area of this number, if it is one: 0 for the masters, 1 or 2 for a level.
pub fn area_named(text: &str) -> Option<Area> {
    match text {
        "0" => Some(Area::Masters),
        "1" => Some(Area::Level(LevelId::One)),
        "2" => Some(Area::Level(LevelId::Two)),
        _ => None,
    }
}

/// The level that a word names.
pub fn level_of(rt: &HostRuntime, text: &str) -> Result<LevelId, Fault> {
    match text {
        "1" => Ok(LevelId::One),
        "2" => Ok(LevelId::Two),
        _ => Err(wrong_words(rt.alloc(), "a level is 1 or 2")),
    }
}

/// The label that a word gives.
pub fn label_of(rt: &HostRuntime, text: &str) -> Result<Name, Fault> {
    let mut codes = [0x40u8; 8];
    let mut count = 0usize;
    for character in text.chars() {
        match to_ebcdic(character) {
            Some(code) if count < 8 && code != 0x40 => {
                codes[count] = code;
                count += 1;
            }
            _ => return Err(no_label(rt, text)),
        }
    }
    if is_name(&codes) {
        Ok(Name { codes })
    } else {
        Err(no_label(rt, text))
    }
}

fn no_label(rt: &HostRuntime, text: &str) -> Fault {
    match no_label_sentence(rt.alloc(), text) {
        Ok(sentence) => Fault::Usage(sentence),
        Err(_) => Fault::NoMemory,
    }
}

/// Why a text is no label, and what one has.
pub fn no_label_sentence(alloc: Global, text: &str) -> Result<String, AllocError> {
    Words::of_file("", Area::Masters, text).fill(alloc, NO_LABEL)
}

/// A refusal of words by this sentence.
pub fn wrong_words(alloc: Global, sentence: &str) -> Fault {
    match String::from_str(alloc, sentence) {
        Ok(sentence) => Fault::Usage(sentence),
        Err(_) => Fault::NoMemory,
    }
}

/// The bytes of the pack at a path; a file that doesn't begin as a pack is refused.
pub fn pack_of(rt: &HostRuntime, path: &str) -> Result<Vec<u8>, Fault> {
    match read_pack(rt, path) {
        Ok(pack) => {
            test_begin(rt.alloc(), path, &pack)?;
            Ok(pack)
        }
        Err(fault) => Err(of_pack(rt, Use::Reads, &fault, path)),
    }
}

/// Standard output, before what a pack has is written to it. If it is a regular file, the file gets at most the access that the pack
/// gives, as far as the user may change that.
pub fn output_beside<'r>(rt: &'r HostRuntime, pack: &str) -> Result<StandardOutput<'r>, Fault> {
    match Limit::of(rt, pack) {
        Ok(Some(limit)) => {
            let _ = limit.restrict_output(rt);
        }
        Ok(None) => {}
        Err(error) => return Err(of_call(rt, Use::Reads, &error, pack)),
    }
    Ok(StandardOutput::new(rt))
}

/// Refuses a file that doesn't begin as a pack, as a text or a table that was named in a pack's place.
pub fn test_begin(alloc: Global, path: &str, pack: &[u8]) -> Result<(), Fault> {
    let words = beginning_words(pack);
    if words.is_empty() {
        return Ok(());
    }
    let path = Shown(shown_name(path));
    Err(refused(format!(in alloc; "{path} {words}")))
}

/// The bytes of the pack at a path, for a command that saves to another or the same, with the lock in the second case.
fn pack_to_save(
    rt: &HostRuntime,
    path: &str,
    save: &str,
) -> Result<(Vec<u8>, Option<LockedPack>), Fault> {
    if let Err(fault) = keep_save_apart(rt, save) {
        return Err(of_pack(rt, Use::Saves, &fault, save));
    }
    match read_to_save(rt, path, save) {
        Ok((pack, locked)) => {
            test_begin(rt.alloc(), path, &pack)?;
            Ok((pack, locked))
        }
        Err(fault) => Err(of_pack(rt, Use::Reads, &fault, path)),
    }
}

/// The bytes of the pack at a path, as `pack_to_save` gives them, for a command whose options may have `--overwrite`: without it
/// another file that is there isn't written over.
pub fn pack_to_change(
    rt: &HostRuntime,
    matches: &ArgMatches<'_>,
    path: &str,
    save: &str,
) -> Result<(Vec<u8>, Option<LockedPack>), Fault> {
    let (pack, locked) = pack_to_save(rt, path, save)?;
    if locked.is_none() && !matches.get_flag("overwrite") {
        refuse_file_there(rt, save)?;
    }
    Ok((pack, locked))
}

/// Refuses a path at which a file is there.
pub fn refuse_file_there(rt: &HostRuntime, save: &str) -> Result<(), Fault> {
    match retried::exists(rt, save) {
        Ok(false) => Ok(()),
        Ok(true) => match there_words(rt, save) {
            Ok(words) => Err(refused(Words::of_path(save).fill(rt.alloc(), words))),
            Err(error) => Err(of_call(rt, Use::Reads, &error, save)),
        },
        Err(error) => Err(of_call(rt, Use::Saves, &error, save)),
    }
}

/// Why a pack isn't saved over an existing file, and the cure: `--overwrite` writes only over packs and empty files. It fails if the file
/// can't be read for another reason than its mode.
fn there_words(rt: &HostRuntime, save: &str) -> io::Result<&'static str> {
    Ok(if is_folder(rt, save) {
        "{path} is a folder; give the name of a file"
    } else if is_closed(rt, save) {
        "{path} is there already, and permission to read it is denied, so it may be a pack; give another name"
    } else if is_pack_at(rt, Path::new(save))? {
        "{path} is there already; give another name, or --overwrite to write over it"
    } else if is_empty_at(rt, Path::new(save))? {
        "{path} is there already, and is empty; give another name, or --overwrite to write over it"
    } else {
        "{path} is there already and is no pack; give another name, or remove that file"
    })
}

/// Whether a folder is at a path.
fn is_folder(rt: &HostRuntime, path: &str) -> bool {
    match retried::metadata(rt, path) {
        Ok(found) => found.is_dir(),
        Err(_) => false,
    }
}

/// Refuses to save over a file that the command reads in addition to the pack that it changes: its other contents would be lost.
pub fn keep_input(rt: &HostRuntime, save: &str, input: &str) -> Result<(), Fault> {
    if is_input(input) || !is_same_file(rt, save, input) {
        return Ok(());
    }
    let shown = Shown(save);
    let read = Shown(input);
    Err(refused(format!(in rt.alloc();
        "--save {shown} names the file that is read as {read}, and its contents would be lost; give another name"
    )))
}

/// Whether two paths are known to name one file. If not, the command that reads or saves there reports why it can't.
fn is_same_file(rt: &HostRuntime, path: &str, other: &str) -> bool {
    match Target::find(rt, path) {
        Ok(target) => is_at(rt, &target, other),
        Err(_) => false,
    }
}

/// Whether a path is known to name this file.
fn is_at(rt: &HostRuntime, target: &Target, path: &str) -> bool {
    match Target::find(rt, path) {
        Ok(other) => target.is_same(&other),
        Err(_) => false,
    }
}

/// Where a pack was saved.
#[derive(Clone, Copy)]
pub struct SavedPack<'a> {
    /// The file.
    path: &'a str,
    /// Whether another pack that it had was replaced.
    is_other_replaced: bool,
}

/// Reports on standard error what was done, if there is memory for the sentence. It doesn't matter whether that can be written.
pub fn tell(rt: &HostRuntime, sentence: Result<String, AllocError>) -> Result<(), Fault> {
    let sentence = sentence?;
    let sentence = sentence.as_str();
    let _ = writeln!(rt.stderr(), "bureau: {sentence}");
    Ok(())
}

/// Reports what was done to a pack that is saved, and whether another pack was replaced; if there is no memory for the sentence, that the
/// pack is saved.
pub fn tell_done(rt: &HostRuntime, sentence: Result<String, AllocError>, saved: SavedPack<'_>) {
    let path = Shown(saved.path);
    let Ok(sentence) = sentence else {
        let _ = writeln!(rt.stderr(), "bureau: the pack is saved in {path}");
        return;
    };
    let sentence = sentence.as_str();
    let _ = if saved.is_other_replaced {
        writeln!(
            rt.stderr(),
            "bureau: {sentence}; the pack that {path} had is replaced"
        )
    } else {
        writeln!(rt.stderr(), "bureau: {sentence}")
    };
}

/// Why nothing is done to the files of a pack, as one sentence. The file is named by its label, or in words by its slot.
pub fn care_sentence<'a>(
    alloc: Global,
    path: &'a str,
    area: Area,
    label: &'a str,
    fault: CareFault,
) -> Result<String, AllocError> {
    let number = match fault {
        CareFault::NoMemory => return Err(AllocError),
        CareFault::Damaged(slot) | CareFault::Uncovers(slot) => slot,
        _ => 0,
    };
    Words::of_file(path, area, label)
        .with_number(u64::from(number))
        .fill(alloc, care_words(fault))
}

/// The sentence of a refusal.
fn care_words(fault: CareFault) -> &'static str {
    match fault {
        CareFault::Mount(fault) | CareFault::SourceMount(fault) => mount_words(fault),
        CareFault::NoMemory => "",
        CareFault::Label(fault) | CareFault::SourceLabel(fault) => label_words(fault),
        CareFault::NoFile =>
            "{label} in area {area} of {path} has no file; `bureau list --pack {given} --table` shows the slots that have one",
        CareFault::NoSlot => "area {area} of {path} has no {label}; its slots are 0 to 31",
        CareFault::Exists =>
            "area {area} of {path} has a file {label} already; delete it first, or give another label by --as",
        CareFault::Damaged(_) => DAMAGED,
        CareFault::NoName => NO_LABEL,
        CareFault::Permanent =>
            "{label} in area {area} of {path} is permanent; give --permanent to delete it",
        CareFault::Uncovers(_) =>
            "slot {number} in area {area} of {path}, which is damaged, would have a file again once {label} is gone; free it first by --slot {number}, or correct its label",
    }
}

/// A refusal with the sentence that was made for it.
pub fn refused(sentence: Result<String, AllocError>) -> Fault {
    match sentence {
        Ok(sentence) => Fault::Refused(sentence),
        Err(_) => Fault::NoMemory,
    }
}

/// How the changed pack gets its name.
#[derive(Drop)]
pub struct Save<'j> {
    /// The lock on the file, if the pack was read from it.
    pub locked: Option<LockedPack>,
    /// The journal that gets a line, if there is one. It stays locked until the pack is saved.
    pub journal: Option<OpenJournal<'j>>,
    /// What the command did, as the line has it.
    pub work: Work,
}

/// Saves a pack, whole or not at all, once its journal has the line of the command; the line is removed again if the save fails. Without
/// `--overwrite` a file that has appeared by now isn't overwritten. A new file has no more permissions than the pack that was read. The
/// packs that were read aren't taken for leftovers of a save.
pub fn saved<'a>(
    rt: &HostRuntime,
    matches: &ArgMatches<'_>,
    path: &'a str,
    save: Save<'_>,
    pack: &[u8],
) -> Result<SavedPack<'a>, Fault> {
    let Save {
        locked,
        mut journal,
        work,
    } = save;
    let limit = limit_of(rt, matches)?;
    if let Some(journal) = &mut journal {
        journal.append(rt, path, pack, work)?;
    }
    // a pack that can't be read isn't replaced: the save fails with the reason
    let is_pack = matches!(is_pack_at(rt, Path::new(path)), Ok(true));
    let saved = SavedPack {
        path,
        is_other_replaced: locked.is_none() && is_pack,
    };
    let done = save_at(rt, matches, path, limit, locked, pack);
    if let Some(journal) = &journal {
        journal.end_save(rt, &done);
    }
    match done {
        Ok(()) => Ok(saved),
        Err(fault) => Err(of_pack(rt, Use::Saves, &fault, path)),
    }
}

/// Saves a pack within a limit, as `saved` does.
fn save_at(
    rt: &HostRuntime,
    matches: &ArgMatches<'_>,
    path: &str,
    limit: Option<Limit>,
    locked: Option<LockedPack>,
    pack: &[u8],
) -> Result<(), FileFault> {
    let read = [matches.get_str("pack"), matches.get_str("into")];
    if locked.is_none() && !matches.get_flag("overwrite") {
        save_new_pack(rt, path, limit, &read, pack)
    } else {
        save_pack(rt, path, locked, limit, &read, pack)
    }
}

/// What a new file lets anyone do at most: what the pack does that the command changes, or standard input if it reads no pack.
pub fn limit_of(rt: &HostRuntime, matches: &ArgMatches<'_>) -> Result<Option<Limit>, Fault> {
    let read = match matches.get_str("into").or(matches.get_str("pack")) {
        Some(pack) => pack,
        None => STANDARD_INPUT,
    };
    match Limit::of(rt, read) {
        Ok(limit) => Ok(limit),
        Err(error) => Err(of_call(rt, Use::Reads, &error, read)),
    }
}

/// Why a file can't be used as a pack, and what helps.
pub fn mount_words(fault: MountFault) -> &'static str {
    match fault {
        MountFault::BadHeader =>
            "{path} can't be used: its quotas are those of no pack; take a copy that is whole",
        MountFault::BadRegions =>
            "{path} can't be used: its regions aren't whole tracks within it, or they meet; take a copy that is whole",
        MountFault::Short =>
            "{path} can't be used: it has fewer sectors than its header says, or than 168; take a copy that is whole",
    }
}

/// Why the labels of an area don't allow what is asked, and what helps.
pub fn label_words(fault: LabelFault) -> &'static str {
    match fault {
        LabelFault::NotFound =>
            "area {area} of {path} has no file {label}; `bureau list --pack {given}` shows those that it has",
        LabelFault::DamagedLabel =>
            "{label} in area {area} of {path} is damaged; `bureau check --pack {given}` reports its slot and why: correct its label, or free the slot by `bureau delete --slot`",
        LabelFault::Master => "a master of {path} has the label {label}; give another one by --as",
        LabelFault::NoSpace =>
            "area {area} of {path} has no space for {label}; delete a file there, or make a larger pack",
        LabelFault::Retained =>
            "{label} in area {area} of {path} is permanent; delete it first by `bureau delete --permanent`, or give another label",
        LabelFault::NoSlot =>
            "all 32 slots in area {area} of {path} are used; delete a file there that isn't needed, so that {label} gets one",
    }
}

/// Why an area has no space for a file that takes so many tracks, if that is known: with the tracks that are free there, and the
/// cures other than the deletion of another file.
pub fn no_room_sentence(
    alloc: Global,
    words: Words<'_>,
    wanted: Option<u16>,
    room: FreeRoom,
    otherwise: &str,
) -> Result<String, AllocError> {
    let mut text = String::new(alloc);
    push_no_room(&mut text, words, wanted, room, otherwise)?;
    Ok(text)
}

fn push_no_room(
    text: &mut String,
    words: Words<'_>,
    wanted: Option<u16>,
    room: FreeRoom,
    otherwise: &str,
) -> Result<(), AllocError> {
    words.push(text, "area {area} of {path} has no space for {label}")?;
    match wanted {
        Some(1) => text.push_str(", which takes 1 track")?,
        Some(tracks) => write!(text, ", which takes {tracks} tracks")?,
        None => {}
    }
    let free = room.tracks;
    let in_a_row = room.in_a_row;
    write!(
        text,
        " (tracks that are free there: {free}, in a row at most {in_a_row}); delete a file there, or {otherwise}"
    )
}

/// The refusal of a copy for which an area of a pack has no space.
pub fn no_room_for_copy<'a>(
    rt: &HostRuntime,
    from: &str,
    from_area: Area,
    name: Name,
    into: &'a str,
    area: Area,
    label: &'a str,
) -> Fault {
    let words = Words::of_file(into, area, label);
    let wanted = match tracks_of(rt, from, from_area, name) {
        Ok(tracks) => tracks,
        Err(fault) => return fault,
    };
    match room_in(rt, into, area) {
        Ok(Some(room)) => refused(no_room_sentence(
            rt.alloc(),
            words,
            wanted,
            room,
            "make a larger pack",
        )),
        Ok(None) => refused(words.fill(rt.alloc(), label_words(LabelFault::NoSpace))),
        Err(fault) => fault,
    }
}

/// How many tracks a file of the pack at a path takes, if it has the file. Standard input is read once, so it isn't known there.
fn tracks_of(rt: &HostRuntime, path: &str, area: Area, name: Name) -> Result<Option<u16>, Fault> {
    if is_input(path) {
        return Ok(None);
    }
    let pack = pack_of(rt, path)?;
    match file_size(rt.alloc(), &pack, area, name) {
        Ok(Some(size)) => Ok(Some(size.tracks)),
        _ => Ok(None),
    }
}

/// The free space of an area of the pack at a path; none if it isn't known, as that of standard input, which is read once.
pub fn room_in(rt: &HostRuntime, path: &str, area: Area) -> Result<Option<FreeRoom>, Fault> {
    if is_input(path) {
        return Ok(None);
    }
    let pack = pack_of(rt, path)?;
    Ok(free_room(rt.alloc(), &pack, area).ok())
}
