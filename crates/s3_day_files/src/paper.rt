//! The folder of the pages, and how they are written, as the options ask.

use crate::fault::DayFault;
use crate::outputs::Files;
use clap::ArgMatches;
use s3_host_files::{
    Limit, LockedFolder, is_empty_folder, is_pack_at, make_folder, retried, stream_in, test_folder,
};
use s3_pages::{FormLook, PaperSize};
use std::io;
use std::io::ErrorKind;

/// How pages are written.
#[derive(Clone, Copy)]
pub enum Form {
    /// As a text.
    Text,
    /// As forms in a PDF document.
    Document {
        /// What the forms look like.
        look: FormLook,
        /// The paper on which they are drawn.
        size: PaperSize,
    },
    /// As a book of HTML pages: one for each job, and one for the day.
    Book,
}

impl Form {
    /// Whether it is a book.
    pub fn is_book(self) -> bool {
        matches!(self, Form::Book)
    }
}

/// Where each job's pages are written, and how.
#[derive(Clone, Copy)]
pub struct Paper<'a> {
    /// The name of the folder.
    pub folder: &'a str,
    /// How the pages are written.
    pub form: Form,
}

impl<'a> Paper<'a> {
    /// What the options ask for, if they ask for pages, or why they can't.
    pub fn read(words: &ArgMatches<'a>) -> Result<Option<Paper<'a>>, &'static str> {
        let named = words.get_str("form");
        let form = form_of(
            named,
            words.get_flag("plain"),
            words.get_str("form-look"),
            words.get_str("paper-size"),
        )?;
        match words.get_str("paper") {
            Some(folder) => Ok(Some(Paper { folder, form })),
            None if named.is_some() => Err("--form goes with --paper"),
            None => Ok(None),
        }
    }

    /// Refuses a folder that isn't empty, unless its files may be overwritten, and a folder with a file that is read or written, as by a
    /// standard stream. A folder that doesn't exist is made later.
    pub fn test_free(
        &self,
        rt: &HostRuntime,
        overwrites: bool,
        files: &Files<'a>,
    ) -> Result<(), DayFault<'a>> {
        match retried::metadata(rt, self.folder) {
            Ok(found) => {
                if let Some(name) = files.name_within(&found) {
                    return Err(DayFault::Within(name));
                }
                self.test_streams(rt)?;
                self.test_empty(rt, overwrites)
            }
            Err(error) if error.kind() == ErrorKind::NotFound => Ok(()),
            Err(error) => Err(DayFault::of(&error, self.folder)),
        }
    }

    /// Refuses a folder with a file that is also standard output or standard error.
    fn test_streams(&self, rt: &HostRuntime) -> Result<(), DayFault<'a>> {
        match stream_in(rt, self.folder) {
            Ok(Some(stream)) => Err(DayFault::Within(stream.name())),
            Ok(None) => Ok(()),
            Err(error) => Err(DayFault::of(&error, self.folder)),
        }
    }

    /// Refuses a folder that isn't empty, unless its files may be overwritten and none of them is a pack.
    fn test_empty(&self, rt: &HostRuntime, overwrites: bool) -> Result<(), DayFault<'a>> {
        match is_empty_folder(rt, self.folder) {
            Ok(true) => Ok(()),
            Ok(false) if overwrites => self.test_packs(rt),
            Ok(false) => Err(DayFault::NotEmpty(self.folder)),
            Err(error) => Err(DayFault::of(&error, self.folder)),
        }
    }

    /// Refuses a folder with a pack.
    fn test_packs(&self, rt: &HostRuntime) -> Result<(), DayFault<'a>> {
        match has_pack(rt, self.folder) {
            Ok(false) => Ok(()),
            Ok(true) => Err(DayFault::HasPack(self.folder)),
            Err(error) => Err(DayFault::of(&error, self.folder)),
        }
    }

    /// Makes the folder, if it doesn't exist. It returns whether it was made.
    pub fn make(&self, rt: &HostRuntime, limit: Option<Limit>) -> Result<bool, DayFault<'a>> {
        match make_folder(rt, self.folder, limit) {
            Ok(()) => Ok(true),
            Err(error) if error.kind() == ErrorKind::AlreadyExists => Ok(false),
            Err(error) => Err(DayFault::of(&error, self.folder)),
        }
    }

    /// Locks the folder for this day, tests again that it is empty, and tries whether files can be made in it.
    pub fn lock(&self, rt: &HostRuntime, overwrites: bool) -> Result<LockedFolder, DayFault<'a>> {
        let locked = match LockedFolder::lock(rt, self.folder) {
            Ok(locked) => locked,
            Err(fault) => return Err(DayFault::of_pack(&fault, self.folder)),
        };
        self.test_empty(rt, overwrites)?;
        match test_folder(rt, self.folder) {
            Ok(()) => Ok(locked),
            Err(error) => Err(DayFault::of(&error, self.folder)),
        }
    }
}

/// Whether a file in a folder is a pack.
fn has_pack(rt: &HostRuntime, folder: &str) -> io::Result<bool> {
    for entry in retried::entries(rt, folder)? {
        if let Ok(entry) = entry
            && is_pack_at(rt, entry.path())?
        {
            return Ok(true);
        }
    }
    Ok(false)
}

/// How pages are written, given the form, the look and the size that are named, and whether the bars are left out.
fn form_of(
    named: Option<&str>,
    is_plain: bool,
    look: Option<&str>,
    size: Option<&str>,
) -> Result<Form, &'static str> {
    match named.unwrap_or("text") {
        "text" | "html" if is_plain => Err("--plain goes with --form pdf"),
        "text" | "html" if look.is_some() => Err("--form-look goes with --form pdf"),
        "text" | "html" if size.is_some() => Err("--paper-size goes with --form pdf"),
        "text" => Ok(Form::Text),
        "html" => Ok(Form::Book),
        "pdf" => Ok(Form::Document {
            look: look_of(is_plain, look)?,
            size: size_of(size)?,
        }),
        _ => Err("--form takes text, pdf or html"),
    }
}

/// The look of the forms of a document, given the one that is named, and whether the bars are left out.
fn look_of(is_plain: bool, named: Option<&str>) -> Result<FormLook, &'static str> {
    match (is_plain, named) {
        (true, Some(_)) => Err("--plain and --form-look don't go together"),
        (true, None) | (false, Some("plain")) => Ok(FormLook::Plain),
        (false, None | Some("bars")) => Ok(FormLook::Bars),
        (false, Some("full")) => Ok(FormLook::Full),
        _ => Err("--form-look takes plain, bars or full"),
    }
}

/// The size of the pages of a document, given the one that is named.
fn size_of(named: Option<&str>) -> Result<PaperSize, &'static str> {
    match named.unwrap_or("form") {
        "form" => Ok(PaperSize::Form),
        "a4" => Ok(PaperSize::A4),
        "letter" => Ok(PaperSize::Letter),
        _ => Err("--paper-size takes form, a4 or letter"),
    }
}
