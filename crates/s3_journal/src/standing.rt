//! Which line of a journal a pack is of, and whether the same is posted.
ghost use Rattle.std.specs.Prelude.{◌≡◌, find};
ghost use Rattle.std.specs.List.{list_any};
ghost use Rattle.std.specs.Option.{option_copied, option_map};
ghost use Rattle.std.specs.Str.{bytes_eq};
ghost use Rattle.std.specs.String.{string_bytes};
ghost use Rattle.s3_journal.specs.Inner.Posted.{from_pack as from_pack_spec, has_pack as has_pack_spec, line_of, lines_of, made as made_spec, made_of_other, posted_by, posted_in, same_posted, standing_of as standing_spec, start_of as start_spec};

use crate::day::{PostedDay, Posting};

/// Which day of a journal a pack is of.
#[derive(Clone, Copy)]
pub(crate) enum Standing {
    /// The journal has no line.
    First,
    /// The pack is the pack that the last day left.
    Current,
    /// The pack is the pack on which the last day began: its new pack was never saved.
    NotPosted,
    /// The pack is an old copy: an earlier day left it or began on it.
    OldCopy,
    /// No line has the pack.
    Unknown,
}

/// What the start of a command is to do.
#[derive(Clone, Copy)]
pub enum Start {
    /// To do the work.
    Do,
    /// Nothing: the same is posted.
    IsPosted,
    /// To refuse: the pack is an old copy.
    IsOld,
    /// To refuse: no line has the pack.
    IsUnknown,
}

/// Whether two texts are the same.
pub(crate) fn is_same(one: &str, other: &str) -> bool
    ensures { result ≡ bytes_eq one.now other.now }
{
    one == other
}

/// Whether the pack was there before or after a day.
fn has_pack(day: &PostedDay, pack: &str) -> bool
    ensures { result ≡ has_pack_spec pack.now (line_of day.now) }
{
    is_same(day.after.as_str(), pack) || is_same(day.before.as_str(), pack)
}

/// Whether two commands post the same, which may be posted only once.
fn posts_same(one: Posting<'_>, other: Posting<'_>) -> bool
    ensures { result ≡ same_posted (posted_by one.entry) (posted_by other.entry) }
{
    match (one, other) {
        (
            Posting::Decks { one, two },
            Posting::Decks {
                one: first,
                two: second,
            },
        ) => { is_same(one, first) && is_same(two, second) }
        (
            Posting::Table { table, file },
            Posting::Table {
                table: added,
                file: into,
            },
        ) => { is_same(table, added) && is_same(file, into) }
        _ => false,
    }
}

/// Whether a line's command didn't put an earlier pack back, and left this one.
fn has_made(day: &PostedDay, pack: &str) -> bool
    ensures { result ≡ made_spec pack.now (line_of day.now) }
{
    !day.work.restores() && is_same(day.after.as_str(), pack)
}

/// Whether a line's command made this pack of another one.
fn has_made_of_other(day: &PostedDay, pack: &str) -> bool
    ensures { result ≡ made_of_other pack.now (line_of day.now) }
{
    has_made(day, pack) && !is_same(day.before.as_str(), pack)
}

/// Whether a line's command posted the same.
fn has_posted(day: &PostedDay, posting: Posting<'_>) -> bool
    ensures { result ≡ same_posted (line_of day.now).posted (posted_by posting.entry) }
{
    posts_same(day.work.posting(), posting)
}

/// Which day a pack is of, given the days of its journal, the last one first, and the checksum of the pack.
#[tactic(auto, using(crate::proofs::AnyLine::any_line))]
fn standing_of(days: &[PostedDay], pack: &str) -> Standing
    ensures { result ≡ standing_spec pack.now (lines_of days.now) }
{
    let Some((last, older)) = days.split_first() else {
        return Standing::First;
    };
    if is_same(last.after.as_str(), pack) {
        Standing::Current
    } else if is_same(last.before.as_str(), pack) {
        Standing::NotPosted
    } else if any_has_pack(older, pack) {
        Standing::OldCopy
    } else {
        Standing::Unknown
    }
}

/// Whether the pack was there before or after one of these days.
fn any_has_pack(days: &[PostedDay], pack: &str) -> bool
    ensures { result ≡ list_any (λ day. has_pack_spec pack.now (line_of day)) days.now }
{
    days.iter().any(|day| has_pack(day, pack))
}

/// The days from the last one before or after which the pack was there; none if there is no such day.
fn from_pack<'a>(days: &'a [PostedDay], pack: &str) -> &'a [PostedDay]
    ensures { lines_of result.now ≡ from_pack_spec pack.now (lines_of days.now) }
{
    let mut rest = days;
    while let Some((day, older)) = rest.split_first() {
        if has_pack(day, pack) {
            return rest;
        }
        rest = older;
    }
    rest
}

/// The last of these days that posted the same.
fn last_posted<'a>(days: &'a [PostedDay], posting: Posting<'_>) -> Option<&'a PostedDay>
    ensures { option_copied result ≡ find (λ day. same_posted (line_of day).posted (posted_by posting.entry)) days.now }
{
    days.iter().find(|day| has_posted(day, posting))
}

/// The last of these days that left the pack.
pub fn day_that_left<'a>(days: &'a [PostedDay], pack: &str) -> Option<&'a PostedDay>
    ensures { option_copied result ≡ find (λ day. bytes_eq (line_of day).after pack.now) days.now }
{
    days.iter().find(|day| is_same(day.after.as_str(), pack))
}

/// The last of these days that made the pack of another one. A day that changed nothing, and a restored pack, don't count.
pub fn day_that_made<'a>(days: &'a [PostedDay], pack: &str) -> Option<&'a PostedDay>
    ensures { option_copied result ≡ find (λ day. made_of_other pack.now (line_of day)) days.now }
{
    days.iter().find(|day| has_made_of_other(day, pack))
}

/// The last of these days before or after which the pack was there.
pub fn day_with<'a>(days: &'a [PostedDay], pack: &str) -> Option<&'a PostedDay>
    ensures { option_copied result ≡ find (λ day. has_pack_spec pack.now (line_of day)) days.now }
{
    days.iter().find(|day| has_pack(day, pack))
}

/// The last day that posted the same among those that made a pack, given the days of its journal, the last one first, and the checksum
/// of the pack. For a pack that no line has, each day counts.
pub fn posted_day<'a>(
    days: &'a [PostedDay],
    pack: &str,
    posting: Posting<'_>,
) -> Option<&'a PostedDay>
    ensures { option_map line_of (option_copied result) ≡ posted_in (posted_by posting.entry) pack.now (lines_of days.now) }
{
    let mut made = pack;
    let mut rest = days;
    while let Some((day, older)) = from_pack(rest, made).split_first() {
        if has_made(day, made) {
            if has_posted(day, posting) {
                return Some(day);
            }
            made = day.before.as_str();
        }
        rest = older;
    }
    last_posted(rest, posting)
}

/// What a command's start is to do, given the days of the journal, the last one first, the checksum of the pack and what is to be posted.
pub fn start_of(days: &[PostedDay], pack: &str, posting: Posting<'_>) -> Start
    ensures { result ≡ start_spec (posted_by posting.entry) pack.now (lines_of days.now) }
{
    let is_posted = posted_day(days, pack, posting).is_some();
    match standing_of(days, pack) {
        Standing::OldCopy => Start::IsOld,
        Standing::Unknown => Start::IsUnknown,
        Standing::First | Standing::Current | Standing::NotPosted if is_posted => Start::IsPosted,
        Standing::First | Standing::Current | Standing::NotPosted => Start::Do,
    }
}
