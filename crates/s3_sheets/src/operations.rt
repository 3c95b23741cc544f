//! The operations of the C sheet by their words.

ghost use Rattle.std.specs.Prelude.{◌≡◌, map};
ghost use Rattle.s3_sheets.specs.Entries.{operations as operations_spec, operation_in as operation_in_spec, operation_of};
ghost use Rattle.s3_sheets.specs.Inner.RuleViews.{row_view};

use s3_cards::are_blank;
use s3_cards::ebcdic::{
    BLANK, LETTER_A, LETTER_B, LETTER_C, LETTER_D, LETTER_E, LETTER_F, LETTER_G, LETTER_H,
    LETTER_I, LETTER_L, LETTER_M, LETTER_N, LETTER_O, LETTER_P, LETTER_R, LETTER_S, LETTER_T,
    LETTER_U, LETTER_V, LETTER_X, LETTER_Z, MINUS,
};
use s3_lines::sheet::Operation;

/// A word and its operation.
#[derive(Clone, Copy)]
struct Row {
    word: [u8; 5],
    operation: Operation,
}

macro_rules! row {
    ([$($code:ident),*], $operation:expr) => {
        Row {
            word: [$($code),*],
            operation: $operation,
        }
    };
}

static OPERATIONS: [Row; 19] = [
    row!([LETTER_A, LETTER_D, LETTER_D, BLANK, BLANK], Operation::Add),
    row!(
        [LETTER_S, LETTER_U, LETTER_B, BLANK, BLANK],
        Operation::Subtract
    ),
    row!(
        [LETTER_M, LETTER_U, LETTER_L, LETTER_T, BLANK],
        Operation::Multiply
    ),
    row!(
        [LETTER_D, LETTER_I, LETTER_V, BLANK, BLANK],
        Operation::Divide
    ),
    row!(
        [LETTER_Z, MINUS, LETTER_A, LETTER_D, LETTER_D],
        Operation::ZeroAdd
    ),
    row!(
        [LETTER_Z, MINUS, LETTER_S, LETTER_U, LETTER_B],
        Operation::ZeroSubtract
    ),
    row!(
        [LETTER_M, LETTER_V, LETTER_R, BLANK, BLANK],
        Operation::MoveRemainder
    ),
    row!(
        [LETTER_C, LETTER_O, LETTER_M, LETTER_P, BLANK],
        Operation::Compare
    ),
    row!(
        [LETTER_M, LETTER_O, LETTER_V, LETTER_E, BLANK],
        Operation::Move
    ),
    row!(
        [LETTER_M, LETTER_O, LETTER_V, LETTER_E, LETTER_L],
        Operation::MoveLeft
    ),
    row!(
        [LETTER_S, LETTER_E, LETTER_T, LETTER_O, LETTER_N],
        Operation::SetOn
    ),
    row!(
        [LETTER_S, LETTER_E, LETTER_T, LETTER_O, LETTER_F],
        Operation::SetOff
    ),
    row!(
        [LETTER_G, LETTER_O, LETTER_T, LETTER_O, BLANK],
        Operation::GoTo
    ),
    row!([LETTER_T, LETTER_A, LETTER_G, BLANK, BLANK], Operation::Tag),
    row!(
        [LETTER_E, LETTER_X, LETTER_S, LETTER_R, BLANK],
        Operation::ExecuteSubroutine
    ),
    row!(
        [LETTER_B, LETTER_E, LETTER_G, LETTER_S, LETTER_R],
        Operation::BeginSubroutine
    ),
    row!(
        [LETTER_E, LETTER_N, LETTER_D, LETTER_S, LETTER_R],
        Operation::EndSubroutine
    ),
    row!(
        [LETTER_E, LETTER_X, LETTER_C, LETTER_P, LETTER_T],
        Operation::Except
    ),
    row!(
        [LETTER_C, LETTER_H, LETTER_A, LETTER_I, LETTER_N],
        Operation::Chain
    ),
];

#[tactic(auto, unfolding(crate::specs::Entries::operations, s3_cards::specs::Codes::ebcdic, s3_cards::specs::Codes::code_page))]
fn operations() -> &'static [Row]
    ensures { map row_view result.now ≡ operations_spec }
{
    &OPERATIONS
}

/// The operation of a word in a table, by the first row with the word.
fn operation_in(rows: &[Row], word: &[u8]) -> Operation
    ensures { result ≡ operation_in_spec (map row_view rows.now) word.now }
{
    for row in rows {
        if word == row.word.as_slice() {
            return row.operation;
        }
    }
    Operation::Unknown
}

/// The operation in five columns, `Unknown` for a word that isn't one; none if they are blank.
pub fn operation(columns: &[u8]) -> Option<Operation>
    ensures { result ≡ operation_of columns.now }
{
    if are_blank(columns) {
        None
    } else {
        Some(operation_in(operations(), columns))
    }
}
