//! Words that several commands over a pack take.

use s3_paper_commands::words::{Alias, Choice, Takes, Word};

/// The most records that a file has.
pub const MOST_RECORDS: u32 = 999_999;

/// The pack that is read.
pub const PACK: Word = Word {
    name: "pack",
    takes: Takes::Needed("FILE"),
    help: "The pack; - is standard input",
};

/// The form for other programs.
pub const JSON: Word = Word {
    name: "json",
    takes: Takes::Nothing,
    help: "Prints JSON, an object a line, for other programs",
};

/// Where the pack is written.
pub const SAVE: Word = Word {
    name: "save",
    takes: Takes::Needed("FILE"),
    help: "Where the pack is written",
};

/// Another pack that is there, or an empty file, is replaced. No other file is.
pub const OVERWRITE: Word = Word {
    name: "overwrite",
    takes: Takes::Nothing,
    help: "Lets --save replace another pack than the one that was read, or an empty file",
};

/// Level 1 as an area.
const LEVEL_1: Choice = Choice {
    name: "1",
    help: "Level 1",
};

/// Level 2 as an area.
const LEVEL_2: Choice = Choice {
    name: "2",
    help: "Level 2",
};

/// The areas of a pack.
pub const AREAS: &'static [Choice] = &[
    Choice {
        name: "0",
        help: "The masters",
    },
    LEVEL_1,
    LEVEL_2,
];

/// The areas that are levels.
pub const LEVELS: &'static [Choice] = &[LEVEL_1, LEVEL_2];

/// The area of a file.
pub const AREA: Word = Word {
    name: "area",
    takes: Takes::NeededOneOf("AREA", AREAS),
    help: "The area of the file",
};

/// The area of a file that is of a level.
pub const LEVEL_AREA: Word = Word {
    name: "area",
    takes: Takes::NeededOneOf("AREA", LEVELS),
    help: "The area of the file, a level",
};

/// Another name of `LEVEL_AREA`.
pub const LEVEL_ALIAS: Alias = Alias {
    word: "area",
    name: "level",
};

/// The label of a file.
pub const LABEL: Word = Word {
    name: "label",
    takes: Takes::Needed("LABEL"),
    help: "The label of the file",
};

/// The source that has the fields of the records.
pub const LAYOUT: Word = Word {
    name: "layout",
    takes: Takes::Value("FILE"),
    help: "A deck with the RPG source whose I sheet has the fields; one in .rpg or .punch is plain text",
};

/// Standard input has a layout as plain text.
pub const LAYOUT_PLAIN: Word = Word {
    name: "plain-text",
    takes: Takes::Nothing,
    help: "Standard input, the layout -, is plain text",
};

/// The file of a layout that is meant.
pub const LAYOUT_FILE: Word = Word {
    name: "file",
    takes: Takes::Value("NAME"),
    help: "The file of the source, if it has several on DISK",
};

/// The type of records that is meant.
pub const LAYOUT_TYPE: Word = Word {
    name: "type",
    takes: Takes::Value("INDICATOR"),
    help: "The record type: unload writes its records alone, load puts its codes in",
};

/// What is between the cells of a table.
pub const DELIMITER: Word = Word {
    name: "delimiter",
    // any character of ASCII may be one, which is no list
    takes: Takes::Value("C"),
    help: "The character between the cells, a comma by default",
};

/// An apostrophe before texts that begin as formulas do.
pub const SAFE_CELLS: Word = Word {
    name: "safe-cells",
    takes: Takes::Nothing,
    help: "A text that begins with = + - or @ has an apostrophe before it in the table",
};

/// The marks that a number may have before its decimals.
pub const DECIMALS: &'static [Choice] = &[
    Choice {
        name: ".",
        help: "A point",
    },
    Choice {
        name: ",",
        help: "A comma",
    },
];

/// The marks that a number may have between its thousands.
pub const THOUSANDS: &'static [Choice] = &[
    Choice {
        name: ".",
        help: "A point, with --decimal ,",
    },
    Choice {
        name: ",",
        help: "A comma",
    },
    Choice {
        name: " ",
        help: "A blank",
    },
    Choice {
        name: "'",
        help: "An apostrophe",
    },
];

/// What is before the decimals of a number.
pub const DECIMAL: Word = Word {
    name: "decimal",
    takes: Takes::OneOf("C", DECIMALS),
    help: "The mark before the decimals in the table; a point by default",
};

/// The fields that are dates.
pub const DATE_FIELDS: Word = Word {
    name: "date-fields",
    takes: Takes::Value("FIELD:YYYY-MM-DD,.."),
    help: "Fields of six digits MMDDYY that are dates of 1900 to 1999 in the table",
};

/// The journal of the pack.
pub const JOURNAL: Word = Word {
    name: "journal",
    takes: Takes::Value("FILE"),
    help: "The journal of the pack, which gets a line of this command",
};

/// The command is done whatever the journal has.
pub const AGAIN: Word = Word {
    name: "again",
    takes: Takes::Nothing,
    help: "Does it even if the journal doesn't have the pack last; needs --journal",
};
