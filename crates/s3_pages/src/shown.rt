//! What a printed line shows.
ghost use Rattle.std.specs.Prelude.{◌≡◌, ◌++◌, OnOk};
ghost use Rattle.s3_pages.specs.Inner.Shown.{shown};

use s3_cards::{PrintLine, push_characters, trim_end};
use std::alloc::AllocError;

/// Appends what a line shows: the characters of its text without the blanks at its end, `?` for a byte that has none.
#[tactic(auto, unfolding(crate::specs::Inner::Shown::shown))]
pub fn push_shown(text: &mut Vec<u8>, line: &PrintLine) -> Result<(), AllocError>
    ensures { OnOk result (text.new.items ≡ text.old.items ++ shown line.now) }
{
    push_characters(text, trim_end(line.text()))
}
