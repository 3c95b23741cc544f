//! The layouts that `bureau dump --layout` gives for files of a pack.

use clap::ArgMatches;
use s3_cards::Name;
use s3_data_commands::fault::Fault;
use s3_data_commands::filled::Words;
use s3_data_commands::inputs::{layouts_of, test_plain_text};
use s3_data_commands::pack_words::{area_of, label_of, mount_words, refused, tell};
use s3_data_commands::sentences::unload_sentence;
use s3_dump::FileLayout;
use s3_host_files::{is_input, is_standard_error};
use s3_labels::{Area, AreaSlots};
use s3_layout::SourceLayout;
use s3_listing::{ListFault, mount_slots};
use s3_paper_commands::status::{DONE, FILE_FAILED};
use s3_refusals::Shown;
use s3_slots::{Standing, standing_of};
use s3_unload::UnloadFault;
use std::alloc::{AllocError, Global};

/// A file that has a layout, and the deck with the layout.
#[derive(Clone, Copy)]
pub struct Asked<'a> {
    /// Its area; none for all areas that have the label.
    area: Option<Area>,
    label: &'a str,
    name: Name,
    deck: &'a str,
}

/// The layouts of a deck.
#[derive(Drop)]
pub struct DeckLayouts {
    /// The label of their file.
    name: Name,
    /// The area that the option names.
    area: Option<Area>,
    /// For each area, by its number, the record length of its file, if the layouts are for one there.
    lengths: [Option<u16>; 3],
    /// One for each record type.
    layouts: Vec<SourceLayout>,
}

/// Faults, all of which are reported except perhaps the last.
#[derive(Drop)]
struct Faults {
    /// The last fault, if it isn't reported yet.
    last: Option<Fault>,
    /// The exit status of the last that is reported; 0 if none is.
    status: u8,
}

impl Faults {
    fn none() -> Faults {
        Faults {
            last: None,
            status: DONE,
        }
    }

    /// Adds a fault, after the others are reported.
    fn add(self, rt: &HostRuntime, fault: Fault) -> Faults {
        let reported = self.reported(rt);
        Faults {
            last: Some(fault),
            status: reported.status,
        }
    }

    /// The same faults, all reported.
    fn reported(self, rt: &HostRuntime) -> Faults {
        match self.last {
            Some(fault) => Faults {
                last: None,
                status: fault.tell(&mut rt.stderr()),
            },
            None => Faults {
                last: None,
                status: self.status,
            },
        }
    }

    /// Refuses if there is a fault: with the last, or with a sentence about those that are reported.
    fn result(self, alloc: Global) -> Result<(), Fault> {
        match (self.last, self.status) {
            (Some(fault), _) => Err(fault),
            (None, DONE) => Ok(()),
            (None, status) => {
                let sentence = String::from_str(
                    alloc,
                    "nothing is printed; correct what is reported above",
                )?;
                Err(if status == FILE_FAILED {
                    Fault::File(sentence)
                } else {
                    Fault::Refused(sentence)
                })
            }
        }
    }
}

/// The files and decks that the options name. Each option that can't be followed is reported.
pub fn asked_files<'a>(
    rt: &HostRuntime,
    matches: &ArgMatches<'a>,
) -> Result<Vec<Asked<'a>>, Fault> {
    let texts = matches.get_strs("layout").unwrap_or(&[]);
    if texts.iter().any(|text| names_standard_error(rt, *text)) {
        return Err(Fault::StandardError);
    }
    let mut asked = Vec::new(rt.alloc());
    let mut faults = Faults::none();
    for text in texts {
        match next_asked(rt, *text, &asked) {
            Ok(next) => asked.push(next)?,
            Err(fault) => faults = faults.add(rt, fault),
        }
    }
    faults.result(rt.alloc())?;
    test_plain_text(rt, matches, asked.iter().any(|one| is_input(one.deck)))?;
    Ok(asked)
}

/// Whether the deck that an option names is the file of standard error, into which nothing may be written.
fn names_standard_error(rt: &HostRuntime, text: &str) -> bool {
    match text.split_once("=") {
        Some((_, deck)) => is_standard_error(rt, deck),
        None => false,
    }
}

/// The file and the deck that an option names, after these.
fn next_asked<'a>(
    rt: &HostRuntime,
    text: &'a str,
    asked: &[Asked<'a>],
) -> Result<Asked<'a>, Fault> {
    let next = match text.split_once("=") {
        Some((file, deck)) if !deck.is_empty() => asked_of(rt, file, deck)?,
        _ => return Err(no_deck(rt.alloc(), text)),
    };
    if asked.iter().any(|before| is_same_file(before, &next)) {
        return Err(Fault::Usage(Words::of_file("", Area::Masters, next.label).fill(
            rt.alloc(),
            "--layout names {label} twice; give each file one deck",
        )?));
    }
    Ok(next)
}

/// The file that a text names, as `CUSTOM` or `1:CUSTOM`, with its deck.
fn asked_of<'a>(rt: &HostRuntime, file: &'a str, deck: &'a str) -> Result<Asked<'a>, Fault> {
    let (area, label) = match file.split_once(":") {
        Some((area, label)) => (Some(area_of(rt, area)?), label),
        None => (None, file),
    };
    let name = label_of(rt, label)?;
    Ok(Asked {
        area,
        label,
        name,
        deck,
    })
}

/// The refusal of an option that doesn't name a file and a deck.
fn no_deck(alloc: Global, text: &str) -> Fault {
    let text = Shown(text);
    match format!(in alloc;
        "--layout {text} doesn't name a file and a deck; give them as CUSTOM=customers.rpg, or as 1:CUSTOM=customers.rpg for area 1 alone"
    ) {
        Ok(sentence) => Fault::Usage(sentence),
        Err(_) => Fault::NoMemory,
    }
}

/// Whether two options may mean the same file.
fn is_same_file(one: &Asked<'_>, other: &Asked<'_>) -> bool {
    let are_apart = match (one.area, other.area) {
        (Some(one), Some(other)) => one != other,
        _ => false,
    };
    one.name == other.name && !are_apart
}

/// The layouts of files of a pack. Each file that the pack at the path doesn't have is reported, and has none. Each deck without a
/// layout for its records is reported and refused.
pub fn layouts_found(
    rt: &HostRuntime,
    matches: &ArgMatches<'_>,
    path: &str,
    pack: &[u8],
    asked: &[Asked<'_>],
) -> Result<Vec<DeckLayouts>, Fault> {
    let mut found = Vec::new(rt.alloc());
    if asked.is_empty() {
        return Ok(found);
    }
    let areas = areas_of(rt.alloc(), path, pack)?;
    let mut faults = Faults::none();
    for one in asked {
        let lengths = match lengths_of(rt.alloc(), path, &areas, one) {
            Ok(Some(lengths)) => lengths,
            Ok(None) => {
                faults = faults.reported(rt);
                tell(rt, no_file_sentence(rt.alloc(), path, one))?;
                [None; 3]
            }
            Err(fault) => {
                faults = faults.add(rt, fault);
                [None; 3]
            }
        };
        // a deck's diagnostics come after the faults before
        faults = faults.reported(rt);
        match deck_layouts(rt, matches, path, one, lengths) {
            Ok(layouts) => found.push(layouts)?,
            Err(fault) => faults = faults.add(rt, fault),
        }
    }
    faults.result(rt.alloc())?;
    Ok(found)
}

/// The slots of a pack.
fn areas_of(alloc: Global, path: &str, pack: &[u8]) -> Result<AreaSlots, Fault> {
    match mount_slots(alloc, pack) {
        Ok(areas) => Ok(areas),
        Err(ListFault::Mount(fault)) => {
            Err(refused(Words::of_path(path).fill(alloc, mount_words(fault))))
        }
        Err(_) => Err(Fault::NoMemory),
    }
}

/// For each area the record length of the file that is meant there; none if there is no file. Refused if its label is damaged.
fn lengths_of(
    alloc: Global,
    path: &str,
    areas: &AreaSlots,
    asked: &Asked<'_>,
) -> Result<Option<[Option<u16>; 3]>, Fault> {
    let mut lengths = [None; 3];
    let mut is_there = false;
    let mut damaged = None;
    for area in Area::ALL {
        if asked.area.is_none() || asked.area == Some(area) {
            match standing_of(asked.name, areas.slots_of(area)) {
                Standing::Present(label) => {
                    lengths[usize::from(area.number())] = Some(label.record_length);
                    is_there = true;
                }
                Standing::Blocked => damaged = Some(area),
                Standing::Absent => {}
            }
        }
    }
    match damaged {
        _ if is_there => Ok(Some(lengths)),
        None => Ok(None),
        Some(area) => Err(refused(unload_sentence(
            alloc,
            path,
            area,
            asked.label,
            &UnloadFault::DamagedLabel,
        ))),
    }
}

/// Reports that a pack hasn't a file whose fields were to be printed.
fn no_file_sentence(alloc: Global, path: &str, asked: &Asked<'_>) -> Result<String, AllocError> {
    let sentence = match asked.area {
        Some(_) =>
            "{path} has no file {label} in area {area}, so no fields of it are printed; `bureau list --pack {given}` shows the files that it has",
        None =>
            "{path} has no file {label}, so no fields of it are printed; `bureau list --pack {given}` shows the files that it has",
    };
    Words::of_file(path, asked.area.unwrap_or(Area::Masters), asked.label).fill(alloc, sentence)
}

/// The notes at the end of a dump about the files that the pack hasn't.
pub fn missing_notes(alloc: Global, found: &[DeckLayouts]) -> Result<String, AllocError> {
    let mut notes = String::new(alloc);
    for deck in found {
        if deck.lengths.iter().all(|length| length.is_none()) {
            let sentence = match deck.area {
                Some(_) => "# no file {field} in area {area}\n",
                None => "# no file {field}\n",
            };
            Words::of_file("", deck.area.unwrap_or(Area::Masters), "")
                .with_fields(Some(deck.name), None)
                .push(&mut notes, sentence)?;
        }
    }
    Ok(notes)
}

/// The layouts of a deck for files with records of these lengths. Each file with records of another length is reported.
fn deck_layouts(
    rt: &HostRuntime,
    matches: &ArgMatches<'_>,
    path: &str,
    asked: &Asked<'_>,
    lengths: [Option<u16>; 3],
) -> Result<DeckLayouts, Fault> {
    let layouts = layouts_of(rt, matches, asked.deck, asked.label, asked.name)?;
    let mut faults = Faults::none();
    for area in Area::ALL {
        if let Some(length) = lengths[usize::from(area.number())] {
            if !have_length(&layouts, length) {
                let sentence = unload_sentence(
                    rt.alloc(),
                    path,
                    area,
                    asked.label,
                    &UnloadFault::OtherLength(length),
                );
                faults = faults.add(rt, refused(sentence));
            }
        }
    }
    faults.result(rt.alloc())?;
    Ok(DeckLayouts {
        name: asked.name,
        area: asked.area,
        lengths,
        layouts,
    })
}

/// Whether the records of layouts have this length.
fn have_length(layouts: &[SourceLayout], length: u16) -> bool {
    layouts
        .iter()
        .all(|layout| layout.layout.record_length == length)
}

/// The layouts of each file that has some.
pub fn file_layouts<'a>(
    alloc: Global,
    found: &'a [DeckLayouts],
) -> Result<Vec<FileLayout<'a>>, AllocError> {
    let mut files = Vec::new(alloc);
    for deck in found {
        for area in Area::ALL {
            if deck.lengths[usize::from(area.number())].is_some() {
                push_layouts(&mut files, area, deck)?;
            }
        }
    }
    Ok(files)
}

/// Adds the layouts of a deck for the file in an area.
fn push_layouts<'a>(
    files: &mut Vec<FileLayout<'a>>,
    area: Area,
    deck: &'a DeckLayouts,
) -> Result<(), AllocError> {
    for layout in &deck.layouts {
        files.push(FileLayout {
            area,
            name: deck.name,
            layout: &layout.layout,
            records: &layout.records,
        })?;
    }
    Ok(())
}
