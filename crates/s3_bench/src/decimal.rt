//! Each decimal operation over a table of numbers, and a checksum of its results.

use s3_decimal::{
    BadDigit, Dec, Form, Rounding, ZeroDivisor, add, compare, div_mvr, move_to, mult, packed_read,
    packed_write, sub, zoned_read, zoned_write,
};
use s3_edit::{EditCode, edit, width};
use std::cmp::Ordering;

pub const OPERATIONS: [&str; 11] = [
    "add",
    "sub",
    "mult",
    "div_mvr",
    "move_to",
    "compare",
    "zoned_read",
    "zoned_write",
    "packed_read",
    "packed_write",
    "edit",
];

/// Numbers of few and of many digits, with and without decimals, of both signs, and a zero.
const NUMBERS: [Dec; 12] = [
    Dec {
        value: 0,
        digits: 5,
        decimals: 2,
    },
    Dec {
        value: 7,
        digits: 1,
        decimals: 0,
    },
    Dec {
        value: -2,
        digits: 1,
        decimals: 0,
    },
    Dec {
        value: 123,
        digits: 3,
        decimals: 0,
    },
    Dec {
        value: -2345,
        digits: 4,
        decimals: 3,
    },
    Dec {
        value: 61576,
        digits: 6,
        decimals: 0,
    },
    Dec {
        value: 1234567,
        digits: 7,
        decimals: 2,
    },
    Dec {
        value: -1234567,
        digits: 7,
        decimals: 2,
    },
    Dec {
        value: 99999999,
        digits: 8,
        decimals: 4,
    },
    Dec {
        value: 314159265358,
        digits: 12,
        decimals: 9,
    },
    Dec {
        value: -1,
        digits: 15,
        decimals: 0,
    },
    Dec {
        value: 999999999999999,
        digits: 15,
        decimals: 6,
    },
];

/// Results of few and of many digits, with and without decimals.
const FORMS: [Form; 4] = [
    Form {
        digits: 3,
        decimals: 0,
    },
    Form {
        digits: 5,
        decimals: 2,
    },
    Form {
        digits: 9,
        decimals: 4,
    },
    Form {
        digits: 15,
        decimals: 9,
    },
];

const ROUNDINGS: [Rounding; 2] = [Rounding::Truncate, Rounding::HalfAdjust];

/// Bytes of fields, some with digits above 9.
const FIELDS: [[u8; 15]; 3] = [
    [
        0xf1, 0xf2, 0xf3, 0xf4, 0xf5, 0xf6, 0xf7, 0xf8, 0xf9, 0xf0, 0xf1, 0xf2, 0xf3, 0xf4, 0xd5,
    ],
    [
        0x40, 0x40, 0x40, 0x40, 0x40, 0x40, 0x40, 0x40, 0xf9, 0xf0, 0xf1, 0xf2, 0xf3, 0xf4, 0xc5,
    ],
    [
        0x12, 0x34, 0x56, 0x78, 0x9f, 0x12, 0x34, 0x5d, 0x00, 0x00, 0x1c, 0x99, 0xff, 0x7d, 0x3d,
    ],
];

/// The characters of the edit codes.
const CODES: [u8; 15] = [
    0xf1, 0xf2, 0xf3, 0xf4, 0xc1, 0xc2, 0xc3, 0xc4, 0xd1, 0xd2, 0xd3, 0xd4, 0xe7, 0xe8, 0xe9,
];

/// The operands of a benchmark, in memory. Each look-up begins at a number that no compiler knows.
#[derive(Drop)]
pub struct Table {
    numbers: [Dec; 12],
    forms: [Form; 4],
    roundings: [Rounding; 2],
    fields: [[u8; 15]; 3],
    codes: [u8; 15],
}

impl Table {
    /// The constants of this module as a table.
    pub fn new() -> Table {
        Table {
            numbers: NUMBERS,
            forms: FORMS,
            roundings: ROUNDINGS,
            fields: FIELDS,
            codes: CODES,
        }
    }

    fn number(&self, place: usize, turn: u64) -> Dec {
        self.numbers[place.wrapping_add((turn % 12) as usize) % 12]
    }

    fn form(&self, place: usize, turn: u64) -> Form {
        self.forms[place.wrapping_add((turn % 4) as usize) % 4]
    }

    fn rounding(&self, place: usize, turn: u64) -> Rounding {
        self.roundings[place.wrapping_add((turn % 2) as usize) % 2]
    }

    fn field(&self, place: usize, turn: u64) -> &[u8; 15] {
        &self.fields[place.wrapping_add((turn % 3) as usize) % 3]
    }

    fn code(&self, place: usize, turn: u64) -> u8 {
        self.codes[place.wrapping_add((turn % 15) as usize) % 15]
    }
}

fn with_value(checksum: u64, value: i64) -> u64 {
    checksum.rotate_left(5) ^ value.unsigned_abs()
}

fn with_bytes(checksum: u64, bytes: &[u8]) -> u64 {
    let mut checksum = checksum;
    for byte in bytes {
        checksum = checksum.rotate_left(5) ^ u64::from(*byte);
    }
    checksum
}

/// What an operation gives for each pair of numbers, each form and rounding.
fn over_pairs<F: Fn(Dec, Dec, Form, Rounding) -> i64>(table: &Table, turn: u64, operation: F) -> u64
    requires { F.IsAlwaysCallable operation }
{
    let mut checksum = turn;
    for left in 0..12 {
        for right in 0..12 {
            for form in 0..4 {
                for rounding in 0..2 {
                    let value = operation(
                        table.number(left, turn),
                        table.number(right, turn),
                        table.form(form, turn),
                        table.rounding(rounding, turn),
                    );
                    checksum = with_value(checksum, value);
                }
            }
        }
    }
    checksum
}

fn added(table: &Table, turn: u64) -> u64 {
    over_pairs(table, turn, |left, right, form, rounding| {
        add(left, right, form, rounding).value
    })
}

fn subtracted(table: &Table, turn: u64) -> u64 {
    over_pairs(table, turn, |left, right, form, rounding| {
        sub(left, right, form, rounding).value
    })
}

fn multiplied(table: &Table, turn: u64) -> u64 {
    over_pairs(table, turn, |left, right, form, rounding| {
        mult(left, right, form, rounding).value
    })
}

fn divided(table: &Table, turn: u64) -> u64 {
    over_pairs(table, turn, |left, right, form, rounding| {
        match div_mvr(left, right, form, rounding, FORMS[2]) {
            Ok(division) => division.quotient.value ^ division.remainder.value,
            Err(ZeroDivisor) => 1,
        }
    })
}

fn moved(table: &Table, turn: u64) -> u64 {
    let mut checksum = turn;
    for source in 0..12 {
        for target in 0..12 {
            let moved = move_to(table.number(source, turn), table.number(target, turn));
            checksum = with_value(checksum, moved.value);
        }
    }
    checksum
}

fn order_number(order: Ordering) -> i64 {
    match order {
        Ordering::Less => 1,
        Ordering::Equal => 2,
        Ordering::Greater => 3,
    }
}

fn compared(table: &Table, turn: u64) -> u64 {
    let mut checksum = turn;
    for left in 0..12 {
        for right in 0..12 {
            let order = compare(table.number(left, turn), table.number(right, turn));
            checksum = with_value(checksum, order_number(order));
        }
    }
    checksum
}

fn value_of(outcome: Result<Dec, BadDigit>) -> i64 {
    match outcome {
        Ok(number) => number.value,
        Err(bad) => bad.number.value,
    }
}

fn zoned_fields_read(table: &Table, turn: u64) -> u64 {
    let mut checksum = turn;
    for place in 0..3 {
        let field = table.field(place, turn);
        for length in 1..16usize {
            checksum = with_value(checksum, value_of(zoned_read(&field[..length], 0)));
        }
    }
    checksum
}

fn packed_fields_read(table: &Table, turn: u64) -> u64 {
    let mut checksum = turn;
    for place in 0..3 {
        let field = table.field(place, turn);
        for length in 1..9usize {
            checksum = with_value(checksum, value_of(packed_read(&field[..length], 0)));
        }
    }
    checksum
}

fn zoned_fields_written(table: &Table, turn: u64) -> u64 {
    let mut checksum = turn;
    let mut record = [0x40; 15];
    for place in 0..12 {
        let number = table.number(place, turn);
        zoned_write(number, &mut record[..usize::from(number.digits)]);
        checksum = with_bytes(checksum, &record);
    }
    checksum
}

fn packed_fields_written(table: &Table, turn: u64) -> u64 {
    let mut checksum = turn;
    let mut record = [0x40; 8];
    for place in 0..12 {
        let number = table.number(place, turn);
        packed_write(number, &mut record[..usize::from(number.digits / 2 + 1)]);
        checksum = with_bytes(checksum, &record);
    }
    checksum
}

fn edited(table: &Table, turn: u64) -> u64 {
    let mut checksum = turn;
    let mut record = [0x40; 32];
    for place in 0..12 {
        let number = table.number(place, turn);
        for place in 0..15 {
            if let Some(code) = EditCode::of(table.code(place, turn))
                && let Some(width) = width(code, number.digits, number.decimals)
                && width <= record.len()
            {
                edit(number, code, &mut record);
                checksum = with_bytes(checksum, &record);
            }
        }
    }
    checksum
}

/// The checksum of an operation over its table, after an earlier checksum.
fn once(table: &Table, operation: &str, checksum: u64) -> u64 {
    match operation {
        "add" => added(table, checksum),
        "sub" => subtracted(table, checksum),
        "mult" => multiplied(table, checksum),
        "div_mvr" => divided(table, checksum),
        "move_to" => moved(table, checksum),
        "compare" => compared(table, checksum),
        "zoned_read" => zoned_fields_read(table, checksum),
        "zoned_write" => zoned_fields_written(table, checksum),
        "packed_read" => packed_fields_read(table, checksum),
        "packed_write" => packed_fields_written(table, checksum),
        "edit" => edited(table, checksum),
        _ => checksum,
    }
}

/// What so many runs of an operation make of 0.
pub fn repeated(table: &Table, operation: &str, rounds: u32) -> u64 {
    let mut checksum = 0;
    for _ in 0..rounds {
        checksum = once(table, operation, checksum);
    }
    checksum
}
