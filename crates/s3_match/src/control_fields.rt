//! Control fields, held level by level.

ghost use Rattle.std.specs.Prelude.{◌≡◌, ◌≤◌, ◌==◌, ◌&&◌, ℕ, not, IsTrue, Some, if◌then◌else◌};
ghost use Rattle.s3_meaning.specs.Selection.{same_key};
ghost use Rattle.s3_match.specs.Inner.Controls.{held_in};
ghost use Rattle.s3_match.specs.Inner.Keys.{held_key};
ghost use Rattle.s3_match.specs.Inner.LevelField.{compared_at, is_ranged};
ghost use Rattle.s3_match.specs.Inner.Holding as spec;

use crate::held::{HeldField, HeldFields};
use crate::keys::RecordKey;
use crate::levels::{LEVELS, LevelField, LevelFields};

/// Holds what a field compares, and says whether it was another value that was held. `value` serves to compare.
fn hold_field(held: &mut HeldField, value: &mut RecordKey, field: &LevelField, bytes: &[u8]) -> bool
    requires { IsTrue (is_ranged field.now) }
    ensures breaks { result ≡ not (same_key (Some (compared_at bytes.now field.now)) (held_key held.old)) }
    ensures held { held_key held.new ≡ Some (compared_at bytes.now field.now) }
{
    if held.is_field(value, field, bytes) {
        return false;
    }
    value.read_field(field, bytes);
    held.hold(value.bytes.as_slice());
    true
}

/// Holds what the field of a level compares, and says whether it was another value that was held.
fn hold_at(
    held: &mut HeldFields,
    value: &mut RecordKey,
    level: u8,
    field: &LevelField,
    bytes: &[u8],
) -> bool
    requires from_one { 1 ≤ level }
    requires to_nine { level ≤ 9 }
    requires ranged { IsTrue (is_ranged field.now) }
    ensures breaks { result ≡ not (same_key (Some (compared_at bytes.now field.now)) (held_in held.old level)) }
    ensures held { (other : ℕ) → held_in held.new other ≡ (if other == level then Some (compared_at bytes.now field.now) else held_in held.old other) }
{
    hold_field(&mut held.fields[(level - 1) as usize], value, field, bytes)
}

/// Holds the field of a level, if there is one, and says whether it was another value that was held.
fn hold_level(
    held: &mut HeldFields,
    value: &mut RecordKey,
    fields: &LevelFields,
    level: u8,
    bytes: &[u8],
) -> bool
    requires from_one { 1 ≤ level }
    requires to_nine { level ≤ 9 }
    ensures breaks { result ≡ spec.breaks_by fields.now.fields bytes.now (held_in held.old) level }
    ensures held { (other : ℕ) → held_in held.new other ≡ (if other == level then spec.held_by fields.now.fields bytes.now (held_in held.old) other else held_in held.old other) }
{
    match fields.at(level) {
        Some(field) => hold_at(held, value, level, &field, bytes),
        None => false,
    }
}

/// The greatest level that breaks so far, once the next lower one is looked at; 0 if none does.
fn greatest(broken: u8, level: u8, breaks: bool) -> u8
    ensures { result ≡ (if breaks && broken == 0 then level else broken) }
{
    if breaks && broken == 0 { level } else { broken }
}

/// Holds the control fields of a record whose type has these, and answers the greatest level, 1 to 9, of a field whose value
/// changes; 0 if none changes.
#[inline(never)]
pub fn hold_fields(
    held: &mut HeldFields,
    value: &mut RecordKey,
    fields: &LevelFields,
    bytes: &[u8],
) -> u8
    ensures { spec.AreHeld fields.now.fields bytes.now held.old held.new result }
{
    let mut broken = 0;
    for step in 0..LEVELS {
        let level = LEVELS - step;
        let breaks = hold_level(held, value, fields, level, bytes);
        broken = greatest(broken, level, breaks);
    }
    broken
}
