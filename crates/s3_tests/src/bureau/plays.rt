//! Three sessions.

use crate::bureau::decks::{FIVE_RECORDS, LISTER, STOCK, THREE_RECORDS};
use crate::bureau::sessions::{Failed, Part, Session};
use s3_bureau::{Action, Entry};
use s3_cards::LevelId;

const TURN_ONE: Entry = Entry {
    level: LevelId::One,
    action: Action::Turn,
};

const TURN_TWO: Entry = Entry {
    level: LevelId::Two,
    action: Action::Turn,
};

const DRAIN_ONE: Entry = Entry {
    level: LevelId::One,
    action: Action::Drain,
};

/// A mount reads the header and the label sectors of three areas.
const MOUNT: u64 = 1 + 3 * 8;

/// How many sectors the pool holds.
const BUFFERS: u64 = 16;

const LISTED: Part = Part {
    deck: LISTER,
    lines: &[b"ABC", b"DEF"],
};

/// Both levels list cards. The mount has filled the pool, so each of the four lines is written to its block and read from it;
/// level 2's two are left to the finish.
pub const CARD_LISTER: Session = Session {
    one: LISTED,
    two: LISTED,
    round: &[TURN_ONE, TURN_TWO, DRAIN_ONE],
    rounds: 8,
    is_alone: false,
    least: Failed {
        in_open: MOUNT,
        in_steps: 4 + 2,
        in_finish: 2,
    },
};

/// What the store has to be given of `DATA`: the records' sectors, a label sector for each level and three spool blocks.
const WRITTEN_OF_DATA: u64 = 5 * 4 + 3 * 4 + 2 + 3;

/// Each level makes its own DATA and lists it. When the script ends, the pool holds at most its buffers of what is written. It
/// can't hold all of level 1's twenty sectors when they are read again. The last printed line is left to the finish.
pub const DATA_IN_BOTH_LEVELS: Session = Session {
    one: Part {
        deck: FIVE_RECORDS,
        lines: &[b"ANT", b"BEE", b"CAT", b"DOG", b"EEL"],
    },
    two: Part {
        deck: THREE_RECORDS,
        lines: &[b"FOX", b"GNU", b"HEN"],
    },
    round: &[TURN_ONE, DRAIN_ONE, TURN_TWO],
    rounds: 28,
    is_alone: false,
    least: Failed {
        in_open: MOUNT,
        in_steps: (WRITTEN_OF_DATA - BUFFERS) + (20 - BUFFERS),
        in_finish: 1,
    },
};

/// The sectors of six records of a stock.
const STOCK_RECORDS: u64 = 6 * 4;

/// What the store has to be given of them: their sectors, their index, a label sector and a spool block.
const WRITTEN_OF_STOCK: u64 = STOCK_RECORDS + 1 + 1 + 1;

/// Level 1 alone makes, changes and lists an indexed file, whose records are read again for the list.
pub const KEYS_ADDED_AND_CHANGED: Session = Session {
    one: Part {
        deck: STOCK,
        lines: &[b"A ANT", b"B BAT", b"C CAT", b"D DUG", b"E COW", b"F FOX"],
    },
    two: Part {
        deck: b"",
        lines: &[],
    },
    round: &[TURN_ONE, DRAIN_ONE],
    rounds: 42,
    is_alone: true,
    least: Failed {
        in_open: MOUNT,
        in_steps: (WRITTEN_OF_STOCK - BUFFERS) + (STOCK_RECORDS - BUFFERS),
        in_finish: 1,
    },
};
