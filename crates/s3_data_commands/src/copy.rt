//! `bureau copy`: a file copied into an area.
ghost use Rattle.std.specs.Prelude.{◌≤◌};

use crate::fault::Fault;
use crate::journaling::{journal_for, unmade_if_refused};
use crate::pack_words::{
    Save, area_of, care_sentence, keep_input, label_of, no_room_for_copy, pack_of, pack_to_change,
    refused, saved, tell_done,
};
use crate::words::{AGAIN, AREA, AREAS, JOURNAL, LABEL, LEVEL_ALIAS, OVERWRITE};
use clap::ArgMatches;
use s3_cards::Name;
use s3_journal::{Posting, Work};
use s3_labels::{Area, LabelFault};
use s3_pack_care::CareFault;
use s3_paper_commands::status::{DONE, FILE_WRONG, NOTHING_SAVED, OPTIONS_WRONG, PACK_SAVED};
use s3_paper_commands::words::{CommandWords, Example, Takes, Word, value_of};
use s3_refusals::Shown;
use std::alloc::{AllocError, Global};

/// `bureau copy` and its options.
pub const COPY: CommandWords = CommandWords {
    name: "copy",
    about: "Copies a file of a pack, with its index, into an area of another or the same",
    aliases: &[LEVEL_ALIAS],
    statuses: &[PACK_SAVED, NOTHING_SAVED, OPTIONS_WRONG, FILE_WRONG],
    examples: &[Example {
        line: "bureau copy --pack shop.pack --area 1 --label CUSTOM --into shop.pack --to-area 0 --save shop.pack",
        purpose: "Copies a file of level 1 to the masters",
    }],
    words: &[
        Word {
            name: "pack",
            takes: Takes::Needed("FILE"),
            help: "The pack that has the file; - is standard input, as for --into",
        },
        AREA,
        LABEL,
        Word {
            name: "into",
            takes: Takes::Needed("FILE"),
            help: "The pack that gets the copy",
        },
        Word {
            name: "to-area",
            takes: Takes::NeededOneOf("AREA", AREAS),
            help: "The area that gets it",
        },
        Word {
            name: "save",
            takes: Takes::Needed("FILE"),
            help: "Where the pack with the copy is written",
        },
        Word {
            name: "as",
            takes: Takes::Value("LABEL"),
            help: "The label of the copy, if it is another one",
        },
        Word {
            help: "The journal of the pack that gets the copy; it gets a line of this command",
            ..JOURNAL
        },
        AGAIN,
        Word {
            help: "Lets --save replace another pack than the one that gets the copy, or an empty file",
            ..OVERWRITE
        },
    ],
};

/// Runs `bureau copy`, and returns the exit status: 0 if it is done, else the status of the refusal, whose sentence was written
/// on standard error; then nothing was saved.
pub fn copy(rt: &HostRuntime, matches: &ArgMatches<'_>) -> u8
    ensures { result ≤ 4 }
{
    match copy_file(rt, matches) {
        Ok(()) => DONE,
        Err(fault) => fault.tell(&mut rt.stderr()),
    }
}

/// What is copied, and where to.
#[derive(Clone, Copy)]
struct Order<'a> {
    /// The pack that has the file.
    path: &'a str,
    area: Area,
    label: &'a str,
    name: Name,
    /// The pack that gets the copy.
    into: &'a str,
    to_area: Area,
    new_label: &'a str,
    new_name: Name,
    /// Where the pack with the copy is written.
    save: &'a str,
}

impl<'a> Order<'a> {
    /// What the options ask for.
    fn read(rt: &HostRuntime, matches: &ArgMatches<'a>) -> Result<Order<'a>, Fault> {
        let area = area_of(rt, value_of(matches, "area"))?;
        let to_area = area_of(rt, value_of(matches, "to-area"))?;
        let label = value_of(matches, "label");
        let name = label_of(rt, label)?;
        let new_label = matches.get_str("as").unwrap_or(label);
        let new_name = label_of(rt, new_label)?;
        Ok(Order {
            path: value_of(matches, "pack"),
            area,
            label,
            name,
            into: value_of(matches, "into"),
            to_area,
            new_label,
            new_name,
            save: value_of(matches, "save"),
        })
    }
}

fn copy_file(rt: &HostRuntime, matches: &ArgMatches<'_>) -> Result<(), Fault> {
    let order = Order::read(rt, matches)?;
    let (into, locked) = pack_to_change(rt, matches, order.into, order.save)?;
    if locked.is_none() {
        keep_input(rt, order.save, order.path)?;
    }
    let journal = journal_for(rt, matches, order.into, &into, Posting::Nothing)?;
    let pack = unmade_if_refused(rt, &journal, with_copy(rt, order, into))?;
    let save = Save {
        locked,
        journal,
        work: Work::Copy,
    };
    let saved = saved(rt, matches, order.save, save, &pack)?;
    tell_done(rt, copied_sentence(rt.alloc(), order), saved);
    Ok(())
}

/// The pack that gets the copy, with it.
fn with_copy(rt: &HostRuntime, order: Order<'_>, into: Vec<u8>) -> Result<Vec<u8>, Fault> {
    let from = pack_of(rt, order.path)?;
    let Order {
        area,
        name,
        to_area,
        new_name,
        ..
    } = order;
    match s3_pack_care::copy(rt.alloc(), from, area, name, into, to_area, new_name) {
        Ok(pack) => Ok(pack),
        Err(CareFault::Label(LabelFault::NoSpace)) => Err(no_room_for_copy(
            rt,
            order.path,
            area,
            name,
            order.into,
            to_area,
            order.new_label,
        )),
        Err(fault) => Err(refused(refusal_sentence(rt.alloc(), order, fault))),
    }
}

/// Why nothing is copied: what the pack lacks that has the file, or what doesn't allow it in the pack that was to get the copy.
fn refusal_sentence(
    alloc: Global,
    order: Order<'_>,
    fault: CareFault,
) -> Result<String, AllocError> {
    match fault {
        CareFault::SourceMount(_) | CareFault::SourceLabel(_) => {
            care_sentence(alloc, order.path, order.area, order.label, fault)
        }
        _ => care_sentence(alloc, order.into, order.to_area, order.new_label, fault),
    }
}

/// What was copied.
fn copied_sentence(alloc: Global, order: Order<'_>) -> Result<String, AllocError> {
    let Order {
        area,
        label,
        to_area,
        new_label,
        save,
        ..
    } = order;
    let save = Shown(save);
    let area = area.number();
    let to_area = to_area.number();
    format!(in alloc;
        "{label} of area {area} is copied into area {to_area} of {save} as {new_label}"
    )
}
