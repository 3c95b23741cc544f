//! The commands of the program, and their options.

use crate::defaults::{PACK_HELP, TRACKS_TEXT};
use crate::program::ABOUT;
use clap::{ArgMatches, Command};
use s3_data_commands::check_pack::CHECK;
use s3_data_commands::copy::COPY;
use s3_data_commands::delete::DELETE;
use s3_data_commands::load::LOAD;
use s3_data_commands::sort::SORT;
use s3_data_commands::unload::UNLOAD;
use s3_data_commands::words::{AGAIN, JOURNAL as JOURNAL_FILE, JSON, PACK, SAVE};
use s3_host_files::{is_input, is_input_standard_error, is_standard_error};
use s3_pack_commands::amend::AMEND;
use s3_pack_commands::dump::{DUMP, RESTORE};
use s3_paper_commands::status::{
    DONE, FILE_FAILED, FILE_WRONG, NOTHING_SAVED, OPTIONS_WRONG, PACK_SAVED, PASSED_OVER,
    PERSON_NEEDED, REFUSED,
};
use s3_paper_commands::words::{Choice, CommandWords, Example, Status, Takes, Word};
use s3_paper_commands::{COMPILE, ENTRIES, PUNCH};
use std::alloc::{AllocError, Global};

/// How many lines of a level may be queued in a new pack, by default.
const QUOTA: &str = "64";

/// The commands, in the order in which the help lists them.
pub fn commands() -> [CommandWords; 18] {
    [
        run_words(),
        operate_words(),
        journal_words(),
        punch_words(),
        compile_words(),
        entries_words(),
        init_words(),
        list_words(),
        check_words(),
        copy_words(),
        delete_words(),
        sort_words(),
        unload_words(),
        load_words(),
        amend_words(),
        dump_words(),
        restore_words(),
        migrate_words(),
    ]
}

/// The command of this name.
pub fn command_of(name: &str) -> Option<CommandWords> {
    commands().iter().find(|known| known.name == name).copied()
}

// A proof expands a constant in each function that names it. So each command has one function that does, and the others call it.

fn run_words() -> CommandWords {
    RUN
}

fn operate_words() -> CommandWords {
    OPERATE
}

fn journal_words() -> CommandWords {
    JOURNAL
}

fn punch_words() -> CommandWords {
    PUNCH
}

fn compile_words() -> CommandWords {
    COMPILE
}

fn entries_words() -> CommandWords {
    ENTRIES
}

fn init_words() -> CommandWords {
    INIT
}

fn list_words() -> CommandWords {
    LIST
}

fn check_words() -> CommandWords {
    CHECK
}

fn copy_words() -> CommandWords {
    COPY
}

fn delete_words() -> CommandWords {
    DELETE
}

fn sort_words() -> CommandWords {
    SORT
}

fn unload_words() -> CommandWords {
    UNLOAD
}

fn load_words() -> CommandWords {
    LOAD
}

fn amend_words() -> CommandWords {
    AMEND
}

fn dump_words() -> CommandWords {
    DUMP
}

fn restore_words() -> CommandWords {
    RESTORE
}

fn migrate_words() -> CommandWords {
    MIGRATE
}

/// `bureau run` and its options.
const RUN: CommandWords = CommandWords {
    name: "run",
    about: "Runs the decks and the script of standard input",
    aliases: &[],
    statuses: &[
        Status {
            number: DONE,
            meaning: "the script is performed, even if jobs halted",
        },
        Status {
            number: REFUSED,
            meaning: "the input, the script or the pack is refused, or memory ran out; nothing is saved",
        },
        OPTIONS_WRONG,
        FILE_WRONG,
    ],
    examples: &[
        Example {
            line: "bureau run < day.txt > report.txt",
            purpose: "Performs a script over a new pack",
        },
        Example {
            line: "bureau run --pack shop.pack --save shop.pack < day.txt",
            purpose: "Performs a script over a pack, and saves the pack",
        },
    ],
    words: &[
        Word {
            name: "pack",
            takes: Takes::Value("FILE"),
            help: PACK_HELP,
        },
        Word {
            name: "save",
            takes: Takes::Value("FILE"),
            help: "Where the pack is written as the run leaves it",
        },
        Word {
            help: "The journal of the pack, which gets a line of this run; needs --save",
            ..JOURNAL_FILE
        },
        Word {
            help: "Runs even if the journal has the decks, or doesn't have the pack last; needs --journal",
            ..AGAIN
        },
    ],
};

/// The forms in which pages are written.
const FORMS: &'static [Choice] = &[
    Choice {
        name: "text",
        help: "Plain text, with a form feed before each further page",
    },
    Choice {
        name: "pdf",
        help: "PDF documents of forms with bars",
    },
    Choice {
        name: "html",
        help: "A book of HTML pages, with index.html for the day",
    },
];

/// The sizes of the pages of documents.
const PAPER_SIZES: &'static [Choice] = &[
    Choice {
        name: "form",
        help: "The form itself, 14 7/8 by 11 inches",
    },
    Choice {
        name: "a4",
        help: "A4 on its side, with the form scaled",
    },
    Choice {
        name: "letter",
        help: "US Letter on its side, with the form scaled",
    },
];

/// The looks of forms of documents.
const FORM_LOOKS: &'static [Choice] = &[
    Choice {
        name: "plain",
        help: "White",
    },
    Choice {
        name: "bars",
        help: "Light bars of three lines",
    },
    Choice {
        name: "full",
        help: "Bars, holes at both edges, and numbers of lines in both margins",
    },
];

/// The statuses of a day that may become 0.
const EXIT_ZERO: &'static [Choice] = &[
    Choice {
        name: "5",
        help: "Of status 5: a job was passed over or ended by a reply",
    },
    Choice {
        name: "4",
        help: "Of status 4: a level isn't done",
    },
    Choice {
        name: "4,5",
        help: "Of both",
    },
];

/// `bureau operate` and its options.
const OPERATE: CommandWords = CommandWords {
    name: "operate",
    about: "Runs the decks of both levels until they are done, and asks for replies as halts come",
    aliases: &[],
    statuses: &[
        Status {
            number: DONE,
            meaning: "both levels are done, and each job came to its end",
        },
        Status {
            number: REFUSED,
            meaning: "the day is refused, or memory ran out; nothing is saved",
        },
        OPTIONS_WRONG,
        Status {
            number: FILE_FAILED,
            meaning: "a file failed, or the pack was changed meanwhile; nothing is saved unless a line says so",
        },
        Status {
            number: PERSON_NEEDED,
            meaning: "a level waits, was stopped or has a deck that can't be read, or the operator answered no",
        },
        Status {
            number: PASSED_OVER,
            meaning: "both levels are done, and a job was passed over or ended by a reply",
        },
    ],
    examples: &[
        Example {
            line: "bureau operate --pack shop.pack --save shop.pack --deck1 billing.deck --deck2 payroll.deck",
            purpose: "Runs a deck in each level, asks for replies, and saves the pack",
        },
        Example {
            line: "bureau operate --deck1 billing.rpg --jobs",
            purpose: "Lists the jobs of a deck, and runs none",
        },
        Example {
            line: "bureau operate --pack shop.pack --save shop.pack --deck1 day.deck --replies rules --log day.log --quiet > report.txt",
            purpose: "Runs a deck at night: rules answer the halts",
        },
    ],
    words: &[
        Word {
            name: "pack",
            takes: Takes::Value("FILE"),
            help: PACK_HELP,
        },
        Word {
            name: "save",
            takes: Takes::Value("FILE"),
            help: "Where the pack is written once both levels are done",
        },
        Word {
            name: "deck1",
            takes: Takes::Files,
            help: "The deck of level 1; several files are one deck, and those that end in .rpg or .punch are plain text; - is standard input, as for --deck2, --pack and --redo",
        },
        Word {
            name: "deck2",
            takes: Takes::Files,
            help: "The deck of level 2; several files are one deck, as for level 1",
        },
        Word {
            name: "plain-text",
            takes: Takes::Nothing,
            help: "Standard input, the file - of a deck, is plain text",
        },
        Word {
            name: "replies",
            takes: Takes::Files,
            help: "Rules that answer halts, a line each: LEVEL LETTERS DIGIT [PROGRAM]; with - the replies come from standard input",
        },
        Word {
            name: "turns",
            takes: Takes::Number("N", 0, u32::MAX),
            help: "Stops a level after N turns; 1000000000 by default",
        },
        Word {
            name: "lines",
            takes: Takes::Number("N", 0, u32::MAX),
            help: "Stops a level after N of its lines are printed; its queued lines, up to 127, are printed too; 1000000 by default",
        },
        Word {
            name: "script",
            takes: Takes::Value("FILE"),
            help: "Where the script that was performed is written",
        },
        Word {
            name: "log",
            takes: Takes::Value("FILE"),
            help: "Where the log of the day is written",
        },
        Word {
            name: "redo",
            takes: Takes::Value("LOG"),
            help: "Does the day of a log again",
        },
        Word {
            name: "from1",
            takes: Takes::Value("[FILE:]LINE"),
            help: "Takes level 1 up again at this line",
        },
        Word {
            name: "from2",
            takes: Takes::Value("[FILE:]LINE"),
            help: "Takes level 2 up again at this line",
        },
        Word {
            name: "deck-out1",
            takes: Takes::Value("FILE"),
            help: "Where the deck of level 1 is written as it is run",
        },
        Word {
            name: "deck-out2",
            takes: Takes::Value("FILE"),
            help: "Where the deck of level 2 is written as it is run",
        },
        Word {
            name: "paper",
            takes: Takes::Value("DIR"),
            help: "Where each job's printed lines are written, as pages, into a file of their own",
        },
        Word {
            name: "form",
            takes: Takes::OneOf("FORM", FORMS),
            help: "How pages are written; text by default; needs --paper",
        },
        Word {
            name: "held",
            takes: Takes::UnlistedFile,
            help: "An empty file that gets level 2's report as long as standard output waits for level 1",
        },
        Word {
            name: "plain",
            takes: Takes::Unlisted,
            help: "As --form-look plain",
        },
        Word {
            name: "form-look",
            takes: Takes::OneOf("LOOK", FORM_LOOKS),
            help: "What is on forms in pdf before they are printed; bars by default",
        },
        Word {
            name: "paper-size",
            takes: Takes::OneOf("SIZE", PAPER_SIZES),
            help: "The size of pages in pdf; form by default",
        },
        Word {
            name: "jobs",
            takes: Takes::Nothing,
            help: "Lists the jobs of the decks, and runs none; needs --deck1, --deck2 or both",
        },
        Word {
            name: "json",
            takes: Takes::Nothing,
            help: "With --jobs, prints a JSON object for each job, a line each",
        },
        Word {
            name: "save-unfinished",
            takes: Takes::Nothing,
            help: "Saves the pack even if a level isn't done; needs --save",
        },
        Word {
            name: "journal",
            takes: Takes::Value("FILE"),
            help: "The journal of the pack: a line for each day that is saved; needs --save",
        },
        Word {
            name: "again",
            takes: Takes::Nothing,
            help: "Does the day even if the journal has its decks, or doesn't have the pack last; needs --journal",
        },
        Word {
            name: "once",
            takes: Takes::Nothing,
            help: "Does nothing, with status 0, if the journal has the decks; needs --journal",
        },
        Word {
            name: "keep",
            takes: Takes::Number("N", 1, 999),
            help: "Keeps the last N packs that --save replaces, as FILE.1, the newest, to FILE.N; needs --save",
        },
        Word {
            name: "exit-zero",
            takes: Takes::OneOf("STATUS", EXIT_ZERO),
            help: "Ends with status 0 in place of another; log and journal keep the status of the day",
        },
        Word {
            name: "overwrite",
            takes: Takes::Nothing,
            help: "Replaces a script, a log, a deck or a pack that exists, and writes into a folder of pages that isn't empty",
        },
        Word {
            name: "quiet",
            takes: Takes::Nothing,
            help: "Prints no progress, no replies of rules or a log, and no summary of a day with status 0",
        },
    ],
};

/// `bureau journal` and its options.
const JOURNAL: CommandWords = CommandWords {
    name: "journal",
    about: "Lists the days of journals",
    aliases: &[],
    statuses: &[
        Status {
            number: DONE,
            meaning: "each line of the journals is valid",
        },
        Status {
            number: REFUSED,
            meaning: "a journal is refused, or memory ran out",
        },
        OPTIONS_WRONG,
        FILE_WRONG,
    ],
    examples: &[
        Example {
            line: "bureau journal shop.journal",
            purpose: "Lists the days of a pack",
        },
        Example {
            line: "bureau journal --verify shop.journal",
            purpose: "Prints how many lines the journal has",
        },
    ],
    words: &[
        Word {
            name: "file",
            takes: Takes::FollowingFiles,
            help: "Journals that --journal of `bureau operate` wrote; - is standard input, as for --pack",
        },
        Word {
            name: "verify",
            takes: Takes::Nothing,
            help: "Prints how many lines a journal has, if each has the checksum of the line before it",
        },
        Word {
            name: "json",
            takes: Takes::Nothing,
            help: "Prints a JSON object for each line of a journal",
        },
        Word {
            name: "pack",
            takes: Takes::Value("FILE"),
            help: "Shows which days' packs are this pack or are kept beside it",
        },
        Word {
            name: "restore",
            takes: Takes::Number("DAY", 0, u32::MAX),
            help: "Puts the kept pack back that this day left, 0 the one before day 1; needs --save",
        },
        Word {
            name: "save",
            takes: Takes::Value("FILE"),
            help: "The pack that --restore replaces, and keeps",
        },
    ],
};

/// `bureau init` and its options.
const INIT: CommandWords = CommandWords {
    name: "init",
    about: "Writes a new pack with free labels",
    aliases: &[],
    statuses: &[
        PACK_SAVED,
        Status {
            number: REFUSED,
            meaning: "refused: the regions are too large, the old pack is damaged, or with --new the file exists",
        },
        OPTIONS_WRONG,
        FILE_WRONG,
    ],
    examples: &[
        Example {
            line: "bureau init --new --save shop.pack",
            purpose: "Makes a pack with 10 tracks a region, if the file doesn't exist",
        },
        Example {
            line: "bureau init --new --save next.pack --from shop.pack --level1 20",
            purpose: "Makes a pack whose masters are the files of level 1 of another",
        },
    ],
    words: &[
        SAVE,
        Word {
            name: "new",
            takes: Takes::Nothing,
            help: "Refuses to replace anything that exists",
        },
        Word {
            name: "from",
            takes: Takes::Value("FILE"),
            help: "An old pack: the valid files of its level 1 become the masters; - is standard input",
        },
        Word {
            name: "masters",
            takes: Takes::U16Or("T", TRACKS_TEXT),
            help: "Tracks of the masters' region; not used with --from",
        },
        Word {
            name: "level1",
            takes: Takes::U16Or("T", TRACKS_TEXT),
            help: "Tracks of level 1's region",
        },
        Word {
            name: "level2",
            takes: Takes::U16Or("T", TRACKS_TEXT),
            help: "Tracks of level 2's region",
        },
        Word {
            name: "quota1",
            takes: Takes::U8Or("N", QUOTA),
            help: "How many lines of level 1 may be queued",
        },
        Word {
            name: "quota2",
            takes: Takes::U8Or("N", QUOTA),
            help: "How many lines of level 2 may be queued",
        },
    ],
};

/// `bureau list` and its options.
const LIST: CommandWords = CommandWords {
    name: "list",
    about: "Prints a line for each used label slot of a pack",
    aliases: &[],
    statuses: &[
        Status {
            number: DONE,
            meaning: "the list is printed",
        },
        Status {
            number: REFUSED,
            meaning: "the pack is refused, or memory ran out",
        },
        OPTIONS_WRONG,
        FILE_WRONG,
    ],
    examples: &[Example {
        line: "bureau list --pack shop.pack --table",
        purpose: "Shows files, regions and free space",
    }],
    words: &[
        PACK,
        Word {
            name: "table",
            takes: Takes::Nothing,
            help: "A table instead, with regions, free space, extents and dates",
        },
        JSON,
    ],
};

/// `bureau migrate` and its options.
const MIGRATE: CommandWords = CommandWords {
    name: "migrate",
    about: "Brings a pack of format 1 into format 2",
    aliases: &[],
    statuses: &[PACK_SAVED, NOTHING_SAVED, OPTIONS_WRONG, FILE_WRONG],
    examples: &[Example {
        line: "bureau migrate --pack old.pack --save new.pack",
        purpose: "Writes an old pack in the second format",
    }],
    words: &[PACK, SAVE],
};

/// What the help of the program prints at its end.
const AFTER_HELP: &str =
    "bureau help man prints the manual, and bureau help completions SHELL the completions of bash, zsh or fish.";

/// The command line of the program, for arguments of which the first is `named`. If that is a command, the other commands have no
/// options here, which makes the program start sooner. It is refused only if memory runs out.
pub fn command<'a>(alloc: Global, named: &str) -> Result<Command<'a>, AllocError> {
    let commands = parsers(alloc, named)?;
    Command::new(alloc, "bureau")
        .about(ABOUT)
        .after_help(AFTER_HELP)
        // `--version` prints what the executable has, and not the parser
        .version("")
        .subcommand_required(true)
        .subcommands(commands)
}

/// The parsers of all commands, with options for the one that is named, or for all if none is.
fn parsers<'a>(alloc: Global, named: &str) -> Result<Vec<Command<'a>>, AllocError> {
    let commands = commands();
    let is_command = commands.iter().any(|known| known.name == named);
    let mut parsers = Vec::new(alloc);
    for command in &commands {
        parsers.push(if is_command && command.name != named {
            command.parser_without_options(alloc)
        } else {
            command.parser(alloc)?
        })?;
    }
    Ok(parsers)
}

/// The option of a command that has an empty file name, if one has; an empty text for a file without an option.
pub fn option_without_name(command: &str, matches: &ArgMatches<'_>) -> Option<&'static str> {
    let command = command_of(command)?;
    let word = command
        .words
        .iter()
        .find(|word| has_empty_name(**word, matches))?;
    match word.takes {
        Takes::FollowingFiles => Some(""),
        _ => Some(word.name),
    }
}

/// Whether an option of a command names the file that standard error is. Nothing may be printed then: it would get into that file.
pub fn names_standard_error(rt: &HostRuntime, command: &str, matches: &ArgMatches<'_>) -> bool {
    let Some(command) = command_of(command) else {
        return false;
    };
    command
        .words
        .iter()
        .any(|word| is_standard_error_of(rt, *word, matches))
}

/// Whether an option names the file that standard error is.
fn is_standard_error_of(rt: &HostRuntime, word: Word, matches: &ArgMatches<'_>) -> bool {
    match word.takes {
        Takes::Files | Takes::FollowingFiles => {
            has_standard_error(rt, matches.get_strs(word.name).unwrap_or(&[]))
        }
        takes => takes.is_file() && is_error_value(rt, matches.get_str(word.name)),
    }
}

/// Whether a value, if it is given, leads to the file that standard error is.
fn is_error_value(rt: &HostRuntime, name: Option<&str>) -> bool {
    match name {
        Some(name) => is_error_name(rt, name),
        None => false,
    }
}

/// Whether a name leads to the file of standard error, or means standard input, which is that file.
fn is_error_name(rt: &HostRuntime, name: &str) -> bool {
    if is_input(name) {
        is_input_standard_error(rt)
    } else {
        is_standard_error(rt, name)
    }
}

/// Whether one of these names leads to the file that standard error is.
fn has_standard_error(rt: &HostRuntime, names: &[&str]) -> bool {
    for name in names {
        if is_error_name(rt, *name) {
            return true;
        }
    }
    false
}

/// Whether an option of a command line has an empty file name.
fn has_empty_name(word: Word, matches: &ArgMatches<'_>) -> bool {
    match word.takes {
        Takes::Files | Takes::FollowingFiles => {
            let names = matches.get_strs(word.name).unwrap_or(&[]);
            names.iter().any(|name| name.is_empty())
        }
        takes => takes.is_file() && matches.get_str(word.name) == Some(""),
    }
}
