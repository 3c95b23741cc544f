//! Whether the pack of a line was saved.
ghost use Rattle.std.specs.Prelude.{◌≡◌};
ghost use Rattle.std.specs.Option.{option_copied};
ghost use Rattle.s3_journal.specs.Inner.Posted.{line_of};
ghost use Rattle.s3_journal.specs.Inner.Saved.{saved_of as saved_of_spec};

use crate::day::PostedDay;
use crate::standing::is_same;

/// Whether the pack of a line was saved.
#[derive(Clone, Copy)]
pub enum Saved {
    /// It was, or the command changed nothing.
    IsSaved,
    /// It wasn't, or the old pack was put back: it counts as never saved.
    NotSaved,
    /// No later pack shows it.
    NotKnown,
}

/// Whether the pack of a line was saved, given the checksum of the pack over which the next command began, or of the pack that is there
/// after the last line, if one is known.
pub fn saved_of(day: &PostedDay, found: Option<&str>) -> Saved
    ensures { result ≡ saved_of_spec (line_of day.now) (option_copied found.entry) }
{
    let Some(pack) = found else {
        return Saved::NotKnown;
    };
    if is_same(day.after.as_str(), pack) {
        Saved::IsSaved
    } else if is_same(day.before.as_str(), pack) {
        Saved::NotSaved
    } else {
        Saved::NotKnown
    }
}
