//! Files that are given twice among the decks of a day, under one name or under two.

use crate::inputs::read_text;
use crate::level_deck::TEXT_LIMIT;
use crate::order::Order;
use indexmap::IndexMap;
use s3_cards::LevelId;
use s3_day_log::checksum;
use s3_decks::cards_len;
use s3_host_files::{is_input, retried};
use s3_refusals::Shown;
use std::alloc::AllocError;
use std::io::Write;
use std::os::unix::fs::MetadataExt;

/// A regular file among the decks of a day.
#[derive(Clone, Copy)]
struct DeckFile<'a> {
    name: &'a str,
    level: LevelId,
    /// The number among the files of its level, from 1.
    number: usize,
    /// The number of its device, and its own on that.
    id: (u64, u64),
    /// How many bytes it has.
    len: u64,
}

/// Where a file was given first in each level.
#[derive(Clone, Copy)]
struct FirstPlaces<'a> {
    one: Option<DeckFile<'a>>,
    two: Option<DeckFile<'a>>,
}

impl<'a> FirstPlaces<'a> {
    /// A file that is given nowhere.
    const NOWHERE: FirstPlaces<'static> = FirstPlaces {
        one: None,
        two: None,
    };

    /// The first place of the same cards before a file, at which they may not be given too. A source may be in both levels, since each
    /// level compiles its own programs.
    fn before(self, file: &DeckFile<'_>) -> Option<DeckFile<'a>> {
        match file.level {
            LevelId::One => self.one,
            LevelId::Two if is_source(file.name) => self.two,
            LevelId::Two => match self.one {
                Some(first) => Some(first),
                None => self.two,
            },
        }
    }

    /// With a further place.
    fn with(self, file: DeckFile<'a>) -> FirstPlaces<'a> {
        match file.level {
            LevelId::One => FirstPlaces {
                one: first_of(self.one, file),
                two: self.two,
            },
            LevelId::Two => FirstPlaces {
                one: self.one,
                two: first_of(self.two, file),
            },
        }
    }
}

/// A first place, or a later one if there is none.
fn first_of<'a>(first: Option<DeckFile<'a>>, later: DeckFile<'a>) -> Option<DeckFile<'a>> {
    match first {
        Some(first) => Some(first),
        None => Some(later),
    }
}

/// Reports each file that is given once more among the decks of a day: by device and inode, or another file with the same bytes. How many
/// there are.
pub fn report_twice(rt: &HostRuntime, order: &Order<'_>) -> Result<usize, AllocError> {
    let mut files = Vec::new(rt.alloc());
    push_files(rt, &mut files, LevelId::One, &order.deck1)?;
    push_files(rt, &mut files, LevelId::Two, &order.deck2)?;
    let (others, count) = report_by_id(rt, &files)?;
    Ok(count.saturating_add(report_by_content(rt, &others)?))
}

/// Appends the regular files of a level's deck.
fn push_files<'a>(
    rt: &HostRuntime,
    files: &mut Vec<DeckFile<'a>>,
    level: LevelId,
    names: &[&'a str],
) -> Result<(), AllocError> {
    for (place, name) in names.iter().enumerate() {
        if let Some(file) = file_at(rt, level, place.saturating_add(1), *name) {
            files.push(file)?;
        }
    }
    Ok(())
}

/// The regular file that a name leads to; standard input is no file.
fn file_at<'a>(
    rt: &HostRuntime,
    level: LevelId,
    number: usize,
    name: &'a str,
) -> Option<DeckFile<'a>> {
    if is_input(name) {
        return None;
    }
    let found = retried::metadata(rt, name).ok()?;
    if !found.is_file() {
        return None;
    }
    Some(DeckFile {
        name,
        level,
        number,
        id: (found.dev(), found.ino()),
        len: found.len(),
    })
}

/// Reports the files that were given before under any name. The others, and how many were reported.
fn report_by_id<'a>(
    rt: &HostRuntime,
    files: &[DeckFile<'a>],
) -> Result<(Vec<DeckFile<'a>>, usize), AllocError> {
    let mut given = IndexMap::new(rt.alloc());
    let mut others = Vec::new(rt.alloc());
    let mut count: usize = 0;
    for file in files {
        let places = match given.get(&file.id) {
            Some(places) => *places,
            None => FirstPlaces::NOWHERE,
        };
        given.insert(file.id, places.with(*file))?;
        match places.before(file) {
            Some(first) => {
                report_same(rt, &first, file);
                count = count.saturating_add(1);
            }
            None => others.push(*file)?,
        }
    }
    Ok((others, count))
}

/// Reports the files with the bytes of one that was given before. How many they are. Only files of one length are read again.
fn report_by_content(rt: &HostRuntime, files: &[DeckFile<'_>]) -> Result<usize, AllocError> {
    let mut lengths: IndexMap<u64, usize> = IndexMap::new(rt.alloc());
    for file in files {
        let count = lengths.get(&file.len).map(|count| *count).unwrap_or(0);
        lengths.insert(file.len, count.saturating_add(1))?;
    }
    let mut given = IndexMap::new(rt.alloc());
    let mut count: usize = 0;
    for file in files {
        if lengths.get(&file.len).is_some_and(|count| *count > 1)
            && let Some(sum) = checksum_at(rt, file.name)?
        {
            let places = match given.get(sum.as_str()) {
                Some(places) => *places,
                None => FirstPlaces::NOWHERE,
            };
            given.insert(sum, places.with(*file))?;
            if let Some(first) = places.before(file)
                && first.id != file.id
            {
                report_copy(rt, &first, file);
                count = count.saturating_add(1);
            }
        }
    }
    Ok(count)
}

/// The checksum of a file with a card; none if it has no card or can't be read.
fn checksum_at(rt: &HostRuntime, name: &str) -> Result<Option<String>, AllocError> {
    match read_text(rt, name, TEXT_LIMIT) {
        Ok(bytes) if cards_len(&bytes) > 0 => Ok(Some(checksum(rt.alloc(), &bytes)?)),
        _ => Ok(None),
    }
}

/// Whether a file is the source of a program, by its name.
fn is_source(name: &str) -> bool {
    name.strip_suffix(".rpg").is_some()
}

/// Reports a file that is given twice, and where.
fn report_same(rt: &HostRuntime, one: &DeckFile<'_>, other: &DeckFile<'_>) {
    let (name, first, second) = (Shown(other.name), one.number, other.number);
    let (level, other_level) = (one.level.number(), other.level.number());
    let _ = if level == other_level {
        writeln!(
            rt.stderr(),
            "{name} is given twice, as file {first} and file {second} of --deck{level}: its jobs run twice"
        )
    } else {
        writeln!(
            rt.stderr(),
            "{name} is given twice, as file {first} of --deck{level} and file {second} of --deck{other_level}: its jobs run twice"
        )
    };
}

/// Reports a file that has the same bytes as one that was given before, and where both are.
fn report_copy(rt: &HostRuntime, one: &DeckFile<'_>, other: &DeckFile<'_>) {
    let (first_name, name) = (Shown(one.name), Shown(other.name));
    let (first, second) = (one.number, other.number);
    let (level, other_level) = (one.level.number(), other.level.number());
    let _ = writeln!(
        rt.stderr(),
        "{name}, file {second} of --deck{other_level}, has the same cards as {first_name}, file {first} of --deck{level}: its jobs run twice"
    );
}
