//! What a day reads: its pack, its decks, its rules and a log.

use crate::begun::{named_file, words_kept};
use crate::fault::DayFault;
use crate::level_deck::{HowRead, LevelDeck};
use crate::log_line::{first_sentence, line_sentence};
use crate::order::Order;
use crate::strays::{ListedDecks, look_for_strays};
use crate::taking_up::take_up;
use s3_cards::LevelId;
use s3_command_line::new_pack;
use s3_day_log::{Begun, DayLog, LogFault};
use s3_host_files::{LockedPack, read_pack, read_to_save, read_within, shown_name};
use s3_operating::DayDeck;
use s3_paper_commands::encoding_words;
use s3_refusals::{Shown, begins_as_pack};
use s3_replies::{Rules, RulesFault};
use std::alloc::AllocError;
use std::io::{ErrorKind, Write};

/// The most bytes of the rules that are read.
const RULES_LIMIT: usize = 4_194_304;

/// How many lines are reported that are no rules.
const MOST_TOLD: usize = 20;

/// The most bytes of a log that is read.
const LOG_LIMIT: usize = 268_435_456;

/// Why a day without a card isn't begun.
const NO_CARDS: &'static str =
    "the decks have no card; give --deck1 FILE, --deck2 FILE or both (`bureau operate --help` has all options)";

/// The pack that a day is given, or a new one.
#[derive(Drop)]
pub struct DayPack {
    /// Its bytes.
    pub bytes: Vec<u8>,
    /// The lock on its file, if it is saved there.
    pub locked: Option<LockedPack>,
}

impl DayPack {
    /// The pack that the options name, or a new one. If the day is logged, its beginning gets the name and the digest of a pack that
    /// is read.
    pub fn read<'a>(
        rt: &HostRuntime,
        order: &Order<'a>,
        begun: &mut Begun,
        is_logged: bool,
    ) -> Result<DayPack, DayFault<'a>> {
        let Some(path) = order.pack else {
            return DayPack::made(rt);
        };
        let pack = DayPack::read_file(rt, path, order.save)?;
        if is_logged {
            begun.pack = Some(named_file(rt.alloc(), path, &pack.bytes)?);
        }
        Ok(pack)
    }

    /// A new pack.
    fn made<'a>(rt: &HostRuntime) -> Result<DayPack, DayFault<'a>> {
        match new_pack(rt.alloc()) {
            Ok(bytes) => Ok(DayPack {
                bytes,
                locked: None,
            }),
            Err(fault) => Err(DayFault::Cli(fault)),
        }
    }

    /// The pack of a file, with the lock on the file if it is saved there.
    fn read_file<'a>(
        rt: &HostRuntime,
        path: &'a str,
        save: Option<&'a str>,
    ) -> Result<DayPack, DayFault<'a>> {
        let Some(save) = save else {
            return DayPack::read_alone(rt, path);
        };
        match read_to_save(rt, path, save) {
            Ok((bytes, locked)) => Ok(DayPack { bytes, locked }),
            Err(fault) => Err(DayFault::of_pack(&fault, shown_name(path))),
        }
    }

    /// The pack of a file that isn't saved.
    fn read_alone<'a>(rt: &HostRuntime, path: &'a str) -> Result<DayPack, DayFault<'a>> {
        match read_pack(rt, path) {
            Ok(bytes) => Ok(DayPack {
                bytes,
                locked: None,
            }),
            Err(fault) => Err(DayFault::of_pack(&fault, shown_name(path))),
        }
    }
}

/// The decks of a day, and with what it is begun.
#[derive(Drop)]
pub struct Decks<'a> {
    /// The deck of level 1.
    pub one: DayDeck<'a>,
    /// The deck of level 2.
    pub two: DayDeck<'a>,
    /// With what the day is begun, as its log has it, before its pack is read.
    pub begun: Begun,
}

impl<'a> Decks<'a> {
    /// The decks that the options name, with the digests of their files, if they are asked for.
    pub fn read(
        rt: &HostRuntime,
        order: &Order<'a>,
        words: &[String],
        is_logged: bool,
    ) -> Result<Decks<'a>, DayFault<'a>> {
        let how = HowRead {
            is_logged,
            is_quiet: order.is_quiet,
            is_input_plain: order.is_input_plain,
        };
        let one = LevelDeck::read(rt, LevelId::One, &order.deck1, how)?;
        let two = LevelDeck::read(rt, LevelId::Two, &order.deck2, how)?;
        let words = words_kept(rt.alloc(), words)?;
        Ok(Decks::of(words, one, two))
    }

    fn of(words: Vec<String>, one: LevelDeck<'a>, two: LevelDeck<'a>) -> Decks<'a> {
        let LevelDeck {
            joined: joined1,
            files: deck1,
        } = one;
        let LevelDeck {
            joined: joined2,
            files: deck2,
        } = two;
        Decks {
            one: DayDeck::Whole(joined1),
            two: DayDeck::Whole(joined2),
            begun: Begun {
                words,
                pack: None,
                deck1,
                deck2,
            },
        }
    }

    /// Takes each level up at the line that the options name for it, if they name one. A day without a card is refused, unless a log
    /// has such a day.
    pub fn take_up(&mut self, rt: &HostRuntime, order: &Order<'a>) -> Result<(), DayFault<'a>> {
        if order.redo.is_none() && self.one.text().is_empty() && self.two.text().is_empty() {
            return Err(DayFault::Usage(NO_CARDS));
        }
        take_up(rt, order, LevelId::One, &mut self.one)?;
        take_up(rt, order, LevelId::Two, &mut self.two)
    }

    /// Reads both decks, lists their jobs, and reports those that continue over statements of later jobs. `None` if the day isn't begun
    /// for them.
    pub fn look(
        &self,
        rt: &HostRuntime,
        order: &Order<'a>,
    ) -> Result<Option<ListedDecks>, DayFault<'a>> {
        look_for_strays(rt, order, &self.one, &self.two)
    }
}

/// The bytes of a file, or of standard input, up to a limit.
pub fn read_text<'a>(
    rt: &HostRuntime,
    path: &'a str,
    limit: usize,
) -> Result<Vec<u8>, DayFault<'a>> {
    match read_within(rt, path, limit) {
        Ok(bytes) => Ok(bytes),
        Err(error) if error.kind() == ErrorKind::FileTooLarge => Err(DayFault::TooLarge(shown_name(
            path,
        ))),
        Err(error) => Err(DayFault::of(&error, shown_name(path))),
    }
}

/// The text of a file of rules; an empty text if no file is named.
pub fn rules_text<'a>(rt: &HostRuntime, path: Option<&'a str>) -> Result<Vec<u8>, DayFault<'a>> {
    match path {
        Some(path) => read_text(rt, path, RULES_LIMIT),
        None => Ok(Vec::new(rt.alloc())),
    }
}

/// The rules of a text of a file, or none if no file is named. Lines that are no rules are reported.
pub fn read_rules<'a>(
    rt: &HostRuntime,
    path: Option<&'a str>,
    text: &[u8],
) -> Result<Rules, DayFault<'a>> {
    let Some(path) = path else {
        return Ok(Rules::none(rt.alloc()));
    };
    if let Some(words) = no_rules_words(text) {
        let path = Shown(path);
        let _ = writeln!(rt.stderr(), "{path} {words}");
        return Err(DayFault::Replies(1));
    }
    match Rules::read(rt.alloc(), text) {
        Ok(rules) => Ok(rules),
        Err(fault) => Err(rules_refused(rt, path, &fault)),
    }
}

/// Why a file has no rules, by the bytes with which it begins, and what to do: words after its name. `None` for a file that may have
/// rules.
fn no_rules_words(text: &[u8]) -> Option<&'static str> {
    if begins_as_pack(text) {
        Some("is a pack, not replies; name it after --pack, and after --replies a file of rules")
    } else if text.starts_with(b"//") {
        Some(
            "is a deck, not replies; name it after --deck1 or --deck2, and after --replies a file of rules",
        )
    } else {
        encoding_words(text)
    }
}

/// Why rules are refused. The first lines that are no rules are reported, and how many others there are.
fn rules_refused<'a>(rt: &HostRuntime, path: &str, fault: &RulesFault) -> DayFault<'a> {
    let RulesFault::IllFormed(lines) = fault else {
        return DayFault::from(AllocError);
    };
    for line in lines.iter().take(MOST_TOLD) {
        let path = Shown(path);
        let _ = writeln!(rt.stderr(), "{path}, {line}");
    }
    let others = lines.len().saturating_sub(MOST_TOLD);
    if others == 1 {
        let _ = writeln!(rt.stderr(), "1 other error isn't shown");
    } else if others > 1 {
        let _ = writeln!(rt.stderr(), "{others} other errors aren't shown");
    }
    match lines.first() {
        Some(first) => DayFault::Replies(first.number),
        None => DayFault::Replies(0),
    }
}

/// The log of a day that is done again.
pub fn read_log<'a>(rt: &HostRuntime, path: &'a str) -> Result<DayLog, DayFault<'a>> {
    let bytes = read_text(rt, path, LOG_LIMIT)?;
    let path = shown_name(path);
    if let Some(words) = encoding_words(&bytes) {
        let path = Shown(path);
        let _ = writeln!(rt.stderr(), "{path} {words}");
        return Err(DayFault::Redo);
    }
    let Ok(text) = str::from_utf8(&bytes) else {
        let path = Shown(path);
        let _ = writeln!(
            rt.stderr(),
            "{path} is no log, for it isn't text in UTF-8; give the file that --log wrote"
        );
        return Err(DayFault::Redo);
    };
    match DayLog::read(rt.alloc(), text) {
        Ok(log) => Ok(log),
        Err(LogFault::NoMemory) => Err(DayFault::from(AllocError)),
        Err(LogFault::Line(line)) => {
            let words = line_words(rt, text, line)?;
            let path = Shown(path);
            let _ = writeln!(rt.stderr(), "{path}: line {line} {words}");
            Err(DayFault::Redo)
        }
    }
}

/// Why a text is no log, by its first line that is refused: the end of a sentence that begins with the line.
fn line_words(rt: &HostRuntime, text: &str, line: usize) -> Result<String, AllocError> {
    if line <= 1 {
        first_sentence(rt.alloc(), first_line_of(text))
    } else if begins_log(rt, text, line) {
        String::from_str(
            rt.alloc(),
            "begins a second log; give each log in a file of its own",
        )
    } else {
        line_sentence(rt.alloc(), first_line_of(text_from(text, line)))
    }
}

/// The first line of a text, without its end.
fn first_line_of(text: &str) -> &str {
    match text.split_once('\n') {
        Some((line, _after)) => line,
        None => text,
    }
}

/// Whether a line of a text, from 1, begins a log.
fn begins_log(rt: &HostRuntime, text: &str, line: usize) -> bool {
    match DayLog::read(rt.alloc(), text_from(text, line)) {
        Ok(_) => true,
        Err(LogFault::Line(refused)) => refused > 1,
        Err(LogFault::NoMemory) => false,
    }
}

/// A text from a line on, from 1.
fn text_from(text: &str, line: usize) -> &str {
    let mut rest = text;
    for _line in 1..line {
        match rest.split_once('\n') {
            Some((_line, after)) => rest = after,
            None => return "",
        }
    }
    rest
}
