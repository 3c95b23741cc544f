//! The kinds of warnings, with their numbers and texts.
ghost use Rattle.std.specs.Prelude.{◌≡◌, IfOk};
ghost use Rattle.s3_warnings.specs.Inner.Marking.{warned_if as warned_if_spec};
ghost use Rattle.s3_warnings.specs.Inner.Words.{number_of, words_of};

use std::alloc::{AllocError, Global};

/// What is legal in a source, and probably wrong.
#[derive(Clone, Copy)]
pub enum WarningKind {
    /// A card tests an indicator that no card turns on.
    NeverSet,
    /// A card turns an indicator on or off that no card tests.
    NeverTested,
    /// A card has conditions that can't hold together.
    Contradiction,
    /// A program never reads a file that it has for reading.
    NeverRead,
    /// A program never writes to a file that it has for writing.
    NeverWritten,
    /// A result has fewer digits before the point than a factor.
    ShortResult,
    /// A field covers positions of an earlier one of its output line.
    Overlap,
}

impl WarningKind {
    /// All kinds, in the order of their numbers.
    pub const ALL: [WarningKind; 7] = [
        WarningKind::NeverSet,
        WarningKind::NeverTested,
        WarningKind::Contradiction,
        WarningKind::NeverRead,
        WarningKind::NeverWritten,
        WarningKind::ShortResult,
        WarningKind::Overlap,
    ];

    /// The number after the W, from 1.
    pub fn number(self) -> u8
        ensures { result ≡ number_of self }
    {
        match self {
            WarningKind::NeverSet => 1,
            WarningKind::NeverTested => 2,
            WarningKind::Contradiction => 3,
            WarningKind::NeverRead => 4,
            WarningKind::NeverWritten => 5,
            WarningKind::ShortResult => 6,
            WarningKind::Overlap => 7,
        }
    }

    /// What it means. docs/MESSAGES.md has the same text, with causes and cures.
    pub fn words(self) -> &'static str
        ensures { result.now ≡ words_of self }
    {
        match self {
            WarningKind::NeverSet => "an indicator that nothing turns on",
            WarningKind::NeverTested => "an indicator that nothing tests",
            WarningKind::Contradiction => "conditions that can't hold together",
            WarningKind::NeverRead => "a file that is never read",
            WarningKind::NeverWritten => "a file that is never written",
            WarningKind::ShortResult => "a result that is shorter than what is put into it",
            WarningKind::Overlap => "a field that covers another one of its line",
        }
    }
}

/// A warning: an entry of a card, and what is probably wrong with it.
#[derive(Clone, Copy)]
pub struct Warning {
    /// What is probably wrong.
    pub kind: WarningKind,
    /// The number of the card in its deck, from 1.
    pub card: u16,
    /// The first column of the entry, from 1.
    pub from: usize,
    /// The last column of the entry.
    pub to: usize,
}

/// A warning, if what it warns of holds; refused only if memory runs out.
pub fn warned_if(alloc: Global, holds: bool, warning: Warning) -> Result<Vec<Warning>, AllocError>
    ensures { IfOk result (λ found. found.items ≡ warned_if_spec holds warning) }
{
    let mut found = Vec::new(alloc);
    if holds {
        found.push(warning)?;
    }
    Ok(found)
}
