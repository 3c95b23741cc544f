//! The outputs of a day. None of them may overwrite a file that is read, another output or, without `--overwrite`, any file.

use crate::fault::{DayFault, unwritten};
use crate::keeping::{kept_name, place_of, test_keeping};
use crate::kind::{Kind, is_refused_log};
use crate::level_deck::TEXT_LIMIT;
use crate::named_output::{KeptOutput, lost_text};
use crate::order::Order;
use crate::paper::Paper;
pub use s3_host_files::Output;
use s3_host_files::{
    FileFault, Limit, LockedFolder, LockedPack, SHOWN_INPUT, STANDARD_INPUT, STREAMS,
    StandardStream, Target, WRITTEN, beginning_of, is_empty_at, is_input, is_pack_at, path_of,
    prepare_save, retried, stream_at,
};
use s3_refusals::{Shown, holder_of, is_closed};
use std::alloc::Global;
use std::fs::Metadata;
use std::io;
use std::io::{ErrorKind, Write};
use std::path::Path;

/// The outputs of a day, each of which can be written.
#[derive(Drop)]
pub struct Outputs<'a> {
    /// The script.
    pub script: Option<Output>,
    /// The log.
    pub log: Option<Output>,
    /// Level 1's deck as it is run.
    pub deck1: Option<Output>,
    /// Level 2's deck as it is run.
    pub deck2: Option<Output>,
    /// The lock on the file that the pack is saved to.
    pub locked: Option<LockedPack>,
    /// The handles that the end of the day needs.
    pub kept: KeptOutputs,
    /// The files that were made by trying, and the folder of the pages.
    pub made: Vec<&'a str>,
}

/// The handles of the outputs that the end of the day needs, when the desk has script and log.
#[derive(Drop)]
pub struct KeptOutputs {
    /// The script.
    pub script: Option<KeptOutput>,
    /// The log.
    pub log: Option<KeptOutput>,
    /// The folder of the pages, locked.
    folder: Option<LockedFolder>,
    /// The most that new files let anyone do.
    pub limit: Option<Limit>,
}

/// Where something is written or read.
#[derive(Drop)]
struct Named<'a> {
    /// The name that was given.
    name: &'a str,
    /// Where it leads.
    target: Target,
}

/// The files that a day reads, and those that it writes.
#[derive(Drop)]
pub struct Files<'a> {
    /// What is read, except the pack.
    texts: Vec<Named<'a>>,
    /// The pack that is read.
    pack: Option<Named<'a>>,
    /// What is written.
    written: Vec<Named<'a>>,
}

/// Where a path leads. It is refused if the file there is also one of these streams.
fn found<'a>(
    rt: &HostRuntime,
    name: &'a str,
    streams: &[StandardStream],
) -> Result<Named<'a>, DayFault<'a>> {
    let target = match Target::find(rt, name) {
        Ok(target) => target,
        Err(error) => return Err(DayFault::of(&error, name)),
    };
    if let Some(stream) = target.stream(rt, streams) {
        return Err(DayFault::Stream(name, stream));
    }
    Ok(Named { name, target })
}

/// Refuses standard input as a file that is read if it is also standard output or standard error.
fn keep_input_apart<'a>(rt: &HostRuntime) -> Result<(), DayFault<'a>> {
    match stream_at(rt, path_of(STANDARD_INPUT), &WRITTEN) {
        Some(stream) => Err(DayFault::Stream(SHOWN_INPUT, stream)),
        None => Ok(()),
    }
}

/// Refuses:
///
/// - a pack that doesn't exist, so that a misspelt name after `--pack` doesn't save a new pack over an old one;
/// - an output that is the same file as another output, as a file that is read or as a standard stream;
/// - a pack that exists as the place of the new pack of a day without `--pack`;
/// - without `--overwrite`, an output that exists;
/// - a file that is read and is also standard output or standard error.
pub fn test_outputs<'a>(rt: &HostRuntime, order: &Order<'a>) -> Result<(), DayFault<'a>> {
    let mut files = Files::new(rt.alloc());
    files.test(rt, order)
}

/// Refuses a file that is read and is also standard output or standard error.
pub fn test_decks<'a>(rt: &HostRuntime, order: &Order<'a>) -> Result<(), DayFault<'a>> {
    Files::new(rt.alloc()).add_texts(rt, order)
}

/// Refuses a journal that is the same file as one that is read, as the pack that is saved or as a standard stream, and a pack that
/// doesn't exist.
pub fn test_journal<'a>(rt: &HostRuntime, order: &Order<'a>) -> Result<(), DayFault<'a>> {
    let mut files = Files::new(rt.alloc());
    files.test_journal(rt, order)
}

/// Whether nothing has the name of a log, and it leads to no other file of the day.
pub(crate) fn is_log_free(rt: &HostRuntime, order: &Order<'_>, name: &str) -> bool {
    let Err(error) = retried::metadata(rt, name) else {
        return false;
    };
    match Target::find(rt, name) {
        Ok(log) => error.kind() == ErrorKind::NotFound && is_apart(rt, order, &log),
        Err(_) => false,
    }
}

/// Whether a log leads to no other file of the day.
fn is_apart(rt: &HostRuntime, order: &Order<'_>, log: &Target) -> bool {
    let others = [
        order.rules,
        order.redo,
        order.pack,
        order.save,
        order.journal,
        order.script,
        order.deck_out1,
        order.deck_out2,
    ];
    let is_other = others.iter().any(|name| leads_to(rt, *name, log));
    let is_deck = order
        .deck1
        .iter()
        .chain(order.deck2.iter())
        .any(|name| leads_to(rt, Some(*name), log));
    !is_other && !is_deck && !is_kept_name(rt, order, log) && !is_in_paper(rt, order, log)
}

/// Whether a name, if there is one, leads to a file, or that can't be found out.
fn leads_to(rt: &HostRuntime, name: Option<&str>, file: &Target) -> bool {
    match name {
        Some(name) => match Target::find(rt, name) {
            Ok(target) => target.is_same(file),
            Err(error) => !has_other_folder(error.kind()),
        },
        None => false,
    }
}

/// Whether a path that can't be followed for this reason has another folder than a path that can: the folder isn't there, or isn't
/// accessible.
fn has_other_folder(reason: ErrorKind) -> bool {
    matches!(
        reason,
        ErrorKind::NotFound | ErrorKind::NotADirectory | ErrorKind::PermissionDenied
    )
}

/// Whether a pack can be kept under the name of a file, or memory ran out.
fn is_kept_name(rt: &HostRuntime, order: &Order<'_>, file: &Target) -> bool {
    let mut files = Files::new(rt.alloc());
    match files.add_kept(rt, order) {
        Ok(()) => files.written.iter().any(|kept| kept.target.is_same(file)),
        Err(_) => true,
    }
}

/// Whether a file is in the folder of the pages, or has its name.
fn is_in_paper(rt: &HostRuntime, order: &Order<'_>, file: &Target) -> bool {
    let Some(paper) = order.paper else {
        return false;
    };
    match retried::metadata(rt, paper.folder) {
        Ok(found) => file.is_in(&found),
        Err(_) => leads_to(rt, Some(paper.folder), file),
    }
}

impl<'a> Files<'a> {
    fn new(alloc: Global) -> Files<'a> {
        Files {
            texts: Vec::new(alloc),
            pack: None,
            written: Vec::new(alloc),
        }
    }

    /// Adds what the day reads and writes, each file once it is tested, and tests the folder of the pages.
    fn test(&mut self, rt: &HostRuntime, order: &Order<'a>) -> Result<(), DayFault<'a>> {
        self.add_texts(rt, order)?;
        self.add_pack(rt, order.pack)?;
        self.add_saved(rt, order)?;
        self.add_kept(rt, order)?;
        self.add_journal(rt, order.journal)?;
        self.add_written(rt, order)?;
        match order.paper {
            Some(paper) => {
                self.test_paper(rt, paper.folder)?;
                paper.test_free(rt, order.overwrites, self)
            }
            None => Ok(()),
        }
    }

    /// Refuses a folder of pages that has the name of another output. All else that is wrong with it is found later.
    fn test_paper(&self, rt: &HostRuntime, folder: &'a str) -> Result<(), DayFault<'a>> {
        let Ok(target) = Target::find(rt, folder) else {
            return Ok(());
        };
        let folder_named = Named {
            name: folder,
            target,
        };
        if has_same(&self.written, &folder_named) {
            Err(DayFault::Same(folder))
        } else {
            Ok(())
        }
    }

    /// Adds what the day reads and the pack that it saves, and tests the journal.
    fn test_journal(&mut self, rt: &HostRuntime, order: &Order<'a>) -> Result<(), DayFault<'a>> {
        self.add_texts(rt, order)?;
        self.add_pack(rt, order.pack)?;
        if let Some(name) = order.save {
            self.written.push(found(rt, name, &STREAMS)?)?;
        }
        self.add_kept(rt, order)?;
        self.add_journal(rt, order.journal)
    }

    /// Adds the names under which packs are kept. No other output may have one of them.
    fn add_kept(&mut self, rt: &HostRuntime, order: &Order<'a>) -> Result<(), DayFault<'a>> {
        let Some(name) = order.save else {
            return Ok(());
        };
        if order.keep == 0 {
            return Ok(());
        }
        let place = place_of(rt, name)?;
        self.add_numbered(rt, name, place.as_path(), order.keep)
    }

    /// Adds the names under which so many packs are kept for a file.
    fn add_numbered(
        &mut self,
        rt: &HostRuntime,
        name: &'a str,
        place: Path<'_>,
        count: usize,
    ) -> Result<(), DayFault<'a>> {
        for number in 0..count.saturating_add(1) {
            let kept = kept_name(rt.alloc(), place, number)?;
            match Target::find(rt, kept.as_str()) {
                Ok(target) => self.written.push(Named { name, target })?,
                Err(error) => return Err(DayFault::of(&error, name)),
            }
        }
        Ok(())
    }

    /// Adds the journal. It may be no file that is read and no other output.
    fn add_journal(&mut self, rt: &HostRuntime, name: Option<&'a str>) -> Result<(), DayFault<'a>> {
        match name {
            Some(name) => self.add_output(rt, name, None, true),
            None => Ok(()),
        }
    }

    /// Adds what the day reads, except its pack.
    fn add_texts(&mut self, rt: &HostRuntime, order: &Order<'a>) -> Result<(), DayFault<'a>> {
        for name in order.deck1.iter().chain(order.deck2.iter()) {
            self.add_text(rt, *name)?;
        }
        for name in [order.rules, order.redo] {
            if let Some(name) = name {
                self.add_text(rt, name)?;
            }
        }
        Ok(())
    }

    fn add_text(&mut self, rt: &HostRuntime, name: &'a str) -> Result<(), DayFault<'a>> {
        if is_input(name) {
            return keep_input_apart(rt);
        }
        let text = found(rt, name, &WRITTEN)?;
        self.texts.push(text)?;
        Ok(())
    }

    /// Adds the pack that is read.
    fn add_pack(&mut self, rt: &HostRuntime, name: Option<&'a str>) -> Result<(), DayFault<'a>> {
        let Some(name) = name else {
            return Ok(());
        };
        if is_input(name) {
            return keep_input_apart(rt);
        }
        let pack = found(rt, name, &WRITTEN)?;
        if !pack.target.is_there() {
            return Err(no_pack(rt, name));
        }
        self.pack = Some(pack);
        Ok(())
    }

    /// Adds the file that the pack is saved to. It may be the pack that is read, but no text that is read, no pack if the day begins
    /// with a new one, and without `--overwrite` no other file that exists.
    fn add_saved(&mut self, rt: &HostRuntime, order: &Order<'a>) -> Result<(), DayFault<'a>> {
        let Some(name) = order.save else {
            return Ok(());
        };
        let save = found(rt, name, &STREAMS)?;
        if has_same(&self.texts, &save) {
            return Err(DayFault::Same(name));
        }
        if is_folder(rt, name) {
            return Err(DayFault::Call(name, io::Error::from(ErrorKind::IsADirectory)));
        }
        if order.pack.is_none() && is_pack_there(rt, name)? {
            return Err(DayFault::NewOverPack(name));
        }
        if !order.overwrites && save.target.is_there() && !self.is_pack(&save) {
            return Err(there_already(rt, name));
        }
        self.written.push(save)?;
        Ok(())
    }

    /// Adds all other outputs that are files.
    fn add_written(&mut self, rt: &HostRuntime, order: &Order<'a>) -> Result<(), DayFault<'a>> {
        let outputs = [
            (order.script, Kind::Script),
            (order.log, Kind::Log),
            (order.deck_out1, Kind::Deck),
            (order.deck_out2, Kind::Deck),
        ];
        for (name, kind) in outputs {
            if let Some(name) = name {
                self.add_output(rt, name, Some(kind), replaces(rt, order, name, kind))?;
            }
        }
        Ok(())
    }

    /// Adds an output. It may be no file that is read and no other output; without `--overwrite` no file that exists, and with it only one
    /// of its kind. A journal has none: it is read before it gets a line.
    fn add_output(
        &mut self,
        rt: &HostRuntime,
        name: &'a str,
        kind: Option<Kind>,
        overwrites: bool,
    ) -> Result<(), DayFault<'a>> {
        let output = found(rt, name, &STREAMS)?;
        if self.has(&output) {
            return Err(DayFault::Same(name));
        }
        if !overwrites && output.target.is_there() {
            return Err(taken(rt, name));
        }
        if let Some(kind) = kind {
            test_kind(rt, name, kind)?;
        }
        self.written.push(output)?;
        Ok(())
    }

    /// Whether a file is the pack that is read.
    fn is_pack(&self, file: &Named<'a>) -> bool {
        match &self.pack {
            Some(pack) => pack.target.is_same(&file.target),
            None => false,
        }
    }

    /// Whether a file is one of these.
    fn has(&self, file: &Named<'a>) -> bool {
        has_same(&self.texts, file) || self.is_pack(file) || has_same(&self.written, file)
    }

    /// The name of the first of these files that is in a folder, if one is.
    pub fn name_within(&self, folder: &Metadata) -> Option<&'a str> {
        if let Some(name) = first_within(&self.texts, folder) {
            return Some(name);
        }
        match &self.pack {
            Some(pack) if pack.target.is_in(folder) => Some(pack.name),
            _ => first_within(&self.written, folder),
        }
    }
}

/// Why an output isn't written over a file: another command writes that, or it may not be replaced.
fn taken<'a>(rt: &HostRuntime, name: &'a str) -> DayFault<'a> {
    match holder_of(rt, name) {
        Some(_process) => DayFault::InUse(name),
        None => DayFault::Exists(name),
    }
}

/// Whether an output may replace the file that has its name. A day's log replaces the log of a refused day.
fn replaces(rt: &HostRuntime, order: &Order<'_>, name: &str, kind: Kind) -> bool {
    order.overwrites || (matches!(kind, Kind::Log) && is_refused_log(rt, name))
}

/// Whether the log may replace the file that has its name.
fn replaces_log(rt: &HostRuntime, order: &Order<'_>) -> bool {
    match order.log {
        Some(name) => replaces(rt, order, name, Kind::Log),
        None => order.overwrites,
    }
}

/// Whether a pack is at a path.
fn is_pack_there<'a>(rt: &HostRuntime, name: &'a str) -> Result<bool, DayFault<'a>> {
    match is_pack_at(rt, Path::new(name)) {
        Ok(is_pack) => Ok(is_pack),
        Err(_) if is_closed(rt, name) => Err(DayFault::Closed(name)),
        Err(error) => Err(DayFault::of(&error, name)),
    }
}

/// Why a pack isn't saved over a file without `--overwrite`.
fn there_already<'a>(rt: &HostRuntime, name: &'a str) -> DayFault<'a> {
    match is_pack_there(rt, name) {
        Ok(true) => DayFault::OtherPack(name),
        Ok(false) => no_pack_there(rt, name),
        Err(fault) => fault,
    }
}

/// Why a pack isn't saved over a file that isn't one.
fn no_pack_there<'a>(rt: &HostRuntime, name: &'a str) -> DayFault<'a> {
    match is_empty_at(rt, Path::new(name)) {
        Ok(true) => DayFault::Exists(name),
        Ok(false) => DayFault::NoPack(name),
        Err(error) => DayFault::of(&error, name),
    }
}

/// Refuses an output in the place of a file of another kind, or of one that can't be read.
fn test_kind<'a>(rt: &HostRuntime, name: &'a str, kind: Kind) -> Result<(), DayFault<'a>> {
    match kind.may_replace(rt, name) {
        Ok(true) => Ok(()),
        Ok(false) => Err(not_replaced(rt, name, kind)),
        Err(error) => Err(DayFault::of(&error, name)),
    }
}

/// Why an output doesn't replace a file, even with `--overwrite`.
fn not_replaced<'a>(rt: &HostRuntime, name: &'a str, kind: Kind) -> DayFault<'a> {
    match is_pack_at(rt, Path::new(name)) {
        Ok(true) => DayFault::IsPack(name),
        Ok(false) => DayFault::NotReplaced(name, kind),
        Err(error) => DayFault::of(&error, name),
    }
}

/// Why no pack can be read at a path.
fn no_pack<'a>(rt: &HostRuntime, name: &'a str) -> DayFault<'a> {
    match retried::metadata(rt, name) {
        Ok(found) if found.is_dir() => {
            DayFault::Call(name, io::Error::from(ErrorKind::IsADirectory))
        }
        Ok(_) => DayFault::Device(name),
        Err(error) => DayFault::of(&error, name),
    }
}

/// Whether a folder is at a path.
fn is_folder(rt: &HostRuntime, path: &str) -> bool {
    match retried::metadata(rt, path) {
        Ok(found) => found.is_dir(),
        Err(_) => false,
    }
}

/// Whether a file is one of others.
fn has_same<'a>(others: &[Named<'a>], file: &Named<'a>) -> bool {
    others
        .iter()
        .any(|other| other.target.is_same(&file.target))
}

/// The name of the first of some files that is in a folder, if one is.
fn first_within<'a>(files: &[Named<'a>], folder: &Metadata) -> Option<&'a str> {
    for file in files {
        if file.target.is_in(folder) {
            return Some(file.name);
        }
    }
    None
}

impl<'a> Outputs<'a> {
    /// Opens all outputs: after `Ok` each can be written. After a fault the files that it made are removed.
    pub fn open(
        rt: &HostRuntime,
        order: &Order<'a>,
        locked: Option<LockedPack>,
    ) -> Result<Outputs<'a>, DayFault<'a>> {
        let limit = limit_of(rt, order)?;
        match save_prepared(rt, order, locked) {
            Ok(locked) => Outputs::open_kept(rt, order, limit, locked),
            Err(fault) => Err(fault),
        }
    }

    /// Opens all outputs except the file that the pack is saved to, if the replaced pack can be kept.
    fn open_kept(
        rt: &HostRuntime,
        order: &Order<'a>,
        limit: Option<Limit>,
        locked: Option<LockedPack>,
    ) -> Result<Outputs<'a>, DayFault<'a>> {
        match test_keeping(rt, order, &locked) {
            Ok(()) => Outputs::open_beside(rt, order, limit, locked),
            Err(fault) => Err(fault),
        }
    }

    /// Opens all outputs except the file that the pack is saved to.
    fn open_beside(
        rt: &HostRuntime,
        order: &Order<'a>,
        limit: Option<Limit>,
        locked: Option<LockedPack>,
    ) -> Result<Outputs<'a>, DayFault<'a>> {
        let mut outputs = Outputs {
            script: None,
            log: None,
            deck1: None,
            deck2: None,
            locked,
            kept: KeptOutputs {
                script: None,
                log: None,
                folder: None,
                limit,
            },
            made: Vec::new(rt.alloc()),
        };
        match outputs.open_all(rt, order) {
            Ok(()) => Ok(outputs),
            Err(fault) => {
                remove_made(rt, &outputs.made);
                Err(fault)
            }
        }
    }

    fn open_all(&mut self, rt: &HostRuntime, order: &Order<'a>) -> Result<(), DayFault<'a>> {
        // a day that is refused because of another output then finds this log, and makes none
        self.open_log(rt, order)?;
        self.open_script(rt, order)?;
        self.open_decks(rt, order)?;
        self.open_folder(rt, order.paper, order.overwrites)
    }

    /// Opens the script, with a second handle.
    fn open_script(&mut self, rt: &HostRuntime, order: &Order<'a>) -> Result<(), DayFault<'a>> {
        let script = self.open_one(rt, order.script, order.overwrites)?;
        self.kept.script = kept_of(rt, &script, order.script)?;
        self.script = script;
        Ok(())
    }

    /// Opens the log, with a second handle.
    fn open_log(&mut self, rt: &HostRuntime, order: &Order<'a>) -> Result<(), DayFault<'a>> {
        let log = self.open_one(rt, order.log, replaces_log(rt, order))?;
        self.kept.log = kept_of(rt, &log, order.log)?;
        self.log = log;
        Ok(())
    }

    /// Opens the files of the decks as they are run.
    fn open_decks(&mut self, rt: &HostRuntime, order: &Order<'a>) -> Result<(), DayFault<'a>> {
        self.deck1 = self.open_one(rt, order.deck_out1, order.overwrites)?;
        self.deck2 = self.open_one(rt, order.deck_out2, order.overwrites)?;
        Ok(())
    }

    /// Makes the folder of the pages, if they are asked for and it isn't there.
    fn open_folder(
        &mut self,
        rt: &HostRuntime,
        paper: Option<Paper<'a>>,
        overwrites: bool,
    ) -> Result<(), DayFault<'a>> {
        let Some(paper) = paper else {
            return Ok(());
        };
        if paper.make(rt, self.kept.limit)? {
            self.made.push(paper.folder)?;
        }
        self.kept.folder = Some(paper.lock(rt, overwrites)?);
        Ok(())
    }

    /// Opens an output, if one is named. Its old contents stay until something is written.
    fn open_one(
        &mut self,
        rt: &HostRuntime,
        name: Option<&'a str>,
        overwrites: bool,
    ) -> Result<Option<Output>, DayFault<'a>> {
        let Some(name) = name else {
            return Ok(None);
        };
        match Output::open(rt, name, overwrites, self.kept.limit) {
            Ok(output) => {
                if output.is_made() {
                    self.made.push(name)?;
                }
                Ok(Some(output))
            }
            Err(fault) => Err(DayFault::of_pack(&fault, name)),
        }
    }
}

/// The most that new files let anyone do: what the file lets them do that the pack is saved to, or else the file that it is read from.
pub fn limit_of<'a>(rt: &HostRuntime, order: &Order<'a>) -> Result<Option<Limit>, DayFault<'a>> {
    if let Some(limit) = limit_by(rt, order.save)? {
        return Ok(Some(limit));
    }
    limit_by(rt, order.pack)
}

fn limit_by<'a>(rt: &HostRuntime, name: Option<&'a str>) -> Result<Option<Limit>, DayFault<'a>> {
    let Some(name) = name else {
        return Ok(None);
    };
    match Limit::of(rt, name) {
        Ok(limit) => Ok(limit),
        Err(error) => Err(DayFault::of(&error, name)),
    }
}

/// A second handle of an output.
fn kept_of<'a>(
    rt: &HostRuntime,
    output: &Option<Output>,
    name: Option<&'a str>,
) -> Result<Option<KeptOutput>, DayFault<'a>> {
    let (Some(output), Some(name)) = (output, name) else {
        return Ok(None);
    };
    match KeptOutput::of(rt, name, output) {
        Ok(kept) => Ok(Some(kept)),
        Err(error) => Err(DayFault::of(&error, name)),
    }
}

/// The lock on the file that the pack is saved to, after a trial of the save; none if the pack isn't saved, or the file doesn't exist.
fn save_prepared<'a>(
    rt: &HostRuntime,
    order: &Order<'a>,
    locked: Option<LockedPack>,
) -> Result<Option<LockedPack>, DayFault<'a>> {
    let Some(name) = order.save else {
        return Ok(None);
    };
    match prepare_save(rt, name, locked) {
        Ok(locked) => Ok(locked),
        Err(FileFault::Call(error)) if error.kind() == ErrorKind::PermissionDenied => {
            Err(DayFault::FolderClosed(name))
        }
        Err(fault) => Err(DayFault::of_pack(&fault, name)),
    }
}

/// Removes files that were made by trying, and the folder of the pages.
pub fn remove_made(rt: &HostRuntime, made: &[&str]) {
    for name in made {
        if retried::remove_file(rt, *name).is_err() {
            let _ = retried::remove_dir(rt, *name);
        }
    }
}

/// Writes a deck as it is run, if that is asked for.
pub fn write_deck<'a>(
    rt: &HostRuntime,
    output: Option<Output>,
    name: Option<&'a str>,
    text: &[u8],
) -> Result<(), DayFault<'a>> {
    let (Some(mut output), Some(name)) = (output, name) else {
        return Ok(());
    };
    match replace_text(rt, &mut output, name, text) {
        Ok(old) => {
            if !old.is_empty() && old.as_slice() != text {
                report_replaced(rt, name, &old);
            }
            test_deck(rt, name, text)
        }
        Err(error) => Err(unwritten(rt, name, &error)),
    }
}

/// Writes a text to a file. Returns what it replaces there, up to a byte more than a deck may have.
fn replace_text(
    rt: &HostRuntime,
    output: &mut Output,
    name: &str,
    text: &[u8],
) -> io::Result<Vec<u8>> {
    let old = if output.is_made() || !retried::metadata(rt, name)?.is_file() {
        Vec::new(rt.alloc())
    } else {
        beginning_of(rt, name, TEXT_LIMIT + 1)?
    };
    write_whole(output, text)?;
    Ok(old)
}

/// Reports a deck of other cards that was replaced, given its text.
fn report_replaced(rt: &HostRuntime, name: &str, old: &[u8]) {
    let name = Shown(name);
    let ends = old.iter().filter(|byte| **byte == b'\n').count();
    let is_ended = old.ends_with(b"\n");
    let cards = if is_ended {
        ends
    } else {
        ends.saturating_add(1)
    };
    let most = if old.len() > TEXT_LIMIT {
        "at least "
    } else {
        ""
    };
    let plural = if cards == 1 { "" } else { "s" };
    let _ = writeln!(
        rt.stderr(),
        "{name}, another deck of {most}{cards} card{plural}, is replaced"
    );
}

/// Reports a deck that was written to a file which has lost its name.
fn test_deck<'a>(rt: &HostRuntime, name: &'a str, text: &[u8]) -> Result<(), DayFault<'a>> {
    match lost_text(rt, name, text) {
        Some(lost) => {
            let (shown, words) = (Shown(name), lost.words());
            let _ = writeln!(rt.stderr(), "{shown} isn't written: {words}");
            Err(DayFault::File(name))
        }
        None => Ok(()),
    }
}

fn write_whole(output: &mut Output, text: &[u8]) -> io::Result<()> {
    output.write_all(text)?;
    output.flush()
}
