//! Which head is processed next.

ghost use Rattle.std.specs.Prelude.{◌≡◌, Some, IfSome, find, filter, not, is_some};
ghost use Rattle.std.specs.List.{All, list_any};
ghost use Rattle.s3_meaning.specs.Selection as meaning;
ghost use Rattle.s3_meaning.specs.Selection.{Selected, lesser, key_of};
ghost use Rattle.s3_program.specs.declared.program.Program.{Program};
ghost use Rattle.s3_match.specs.Inner.Heads.{IsInput};
ghost use Rattle.s3_match.specs.Inner.Keys.{key_in};
ghost use Rattle.s3_match.specs.Inner.Selecting.{reading_of, selected_at};
ghost use Rattle.s3_match.specs.Inner.Choice as spec;

use crate::heads::InputFile;
use crate::keys::RecordKey;
use crate::selection::{has_met_end, is_primary, is_secondary};
use s3_program::program::Program;

/// The heads, each a record at the head of its file, that the next one is chosen from.
#[derive(Clone, Copy)]
pub enum Group {
    /// The head of the primary file.
    Primary,
    /// The heads of the secondary files.
    Secondary,
    /// The heads whose key is the key of the last primary record with match fields.
    Matched,
}

fn is_in(program: &Program, input: &InputFile, group: Group, primary_key: &RecordKey) -> bool
    ensures { result ≡ spec.is_in program.now group (key_in primary_key.now) input.now }
{
    if !input.has_head() {
        return false;
    }
    match group {
        Group::Primary => is_primary(program, input),
        Group::Secondary => is_secondary(program, input),
        Group::Matched => input.key.is_same(primary_key),
    }
}

fn some_head_is_in(
    program: &Program,
    files: &[InputFile],
    group: Group,
    primary_key: &RecordKey,
) -> bool
    ensures { result ≡ list_any (spec.is_in program.now group (key_in primary_key.now)) files.now }
{
    files
        .iter()
        .any(|input| is_in(program, input, group, primary_key))
}

/// The head at the place, or the next one if its key is lower.
#[tactic(auto, using(crate::proofs::ChoiceLemmas::lower_of_two))]
fn lower_of(files: &[InputFile], place: usize, behind: Option<usize>) -> usize
    requires here { spec.IsHeadAt files.now place }
    requires behind { IfSome behind (spec.IsHeadAt files.now) }
    ensures head { spec.IsHeadAt files.now result }
    ensures lesser { (program : Program) (selected : Selected) → All (IsInput program) files.now → selected_at program files.now place ≡ Some selected
        → selected_at program files.now result ≡ Some (lesser selected (spec.standing_at program files.now behind)) }
{
    match behind {
        Some(other) => {
            if files[other].key.is_less(&files[place].key) {
                other
            } else {
                place
            }
        }
        None => place,
    }
}

/// The least head of a group and of one head after the group. Among heads with the same key, the first one.
fn least_onto(
    program: &Program,
    files: &[InputFile],
    group: Group,
    primary_key: &RecordKey,
    behind: Option<usize>,
) -> Option<usize>
    requires sound { All (IsInput program.now) files.now }
    requires behind { IfSome behind (spec.IsHeadAt files.now) }
    ensures head { IfSome result (spec.IsHeadAt files.now) }
    ensures least { spec.standing_at program.now files.now result ≡ spec.least_onto (filter (λ selected. spec.in_group group (key_in primary_key.now) selected.file (key_of selected)) (spec.heads program.now files.now)) (spec.standing_at program.now files.now behind) }
{
    let mut least = behind;
    for step in 0..files.len() {
        let place = files.len() - 1 - step;
        if is_in(program, &files[place], group, primary_key) {
            least = Some(lower_of(files, place, least));
        }
    }
    least
}

/// Whether the head has a record without match fields.
fn is_keyless(input: &InputFile) -> bool
    ensures { result ≡ spec.is_keyless input.now }
{
    input.has_head() && !input.key.is_given
}

/// Whether there is one file alone, and its head has no match fields. Mostly it is so, and then that head is taken at once.
pub fn is_keyless_alone(files: &[InputFile]) -> bool
    ensures { result ≡ spec.is_keyless_alone files.now }
{
    files.len() == 1 && is_keyless(&files[0])
}

fn first_without_key(files: &[InputFile]) -> Option<usize>
    ensures head { IfSome result (spec.IsHeadAt files.now) }
    ensures first { (program : Program) → All (IsInput program) files.now → spec.standing_at program files.now result ≡ find (λ selected. not (is_some (key_of selected))) (spec.heads program files.now) }
{
    for place in 0..files.len() {
        if is_keyless(&files[place]) {
            return Some(place);
        }
    }
    None
}

/// The head with the least key, the primary one before the secondary ones.
#[tactic(auto, using(crate::proofs::ChoiceLemmas::primary_then_secondary))]
fn select_by_key(program: &Program, files: &[InputFile], primary_key: &RecordKey) -> Option<usize>
    requires sound { All (IsInput program.now) files.now }
    ensures head { IfSome result (spec.IsHeadAt files.now) }
    ensures least { spec.standing_at program.now files.now result ≡ meaning.least (meaning.primary_first (spec.heads program.now files.now)) }
{
    let secondary = least_onto(program, files, Group::Secondary, primary_key, None);
    least_onto(program, files, Group::Primary, primary_key, secondary)
}

/// At the end secondary heads with the last primary key are still taken, if no primary head is left.
#[tactic(auto, using(crate::proofs::ChoiceLemmas::primary_stands, crate::proofs::ChoiceLemmas::no_primary_stands))]
fn select_at_end(program: &Program, files: &[InputFile], primary_key: &RecordKey) -> Option<usize>
    requires sound { All (IsInput program.now) files.now }
    ensures head { IfSome result (spec.IsHeadAt files.now) }
    ensures selected { spec.standing_at program.now files.now result ≡ meaning.select_at_end (spec.heads program.now files.now) (key_in primary_key.now) }
{
    if some_head_is_in(program, files, Group::Primary, primary_key) {
        return None;
    }
    least_onto(program, files, Group::Matched, primary_key, None)
}

/// The place of the file whose head is processed next, by the key of the last primary record with match fields; none if the job
/// ends.
#[tactic(auto, using(crate::proofs::ChoiceLemmas::selects_at_end, crate::proofs::ChoiceLemmas::selects_keyless, crate::proofs::ChoiceLemmas::selects_by_key))]
pub fn select(program: &Program, files: &[InputFile], primary_key: &RecordKey) -> Option<usize>
    requires sound { All (IsInput program.now) files.now }
    ensures head { IfSome result (spec.IsHeadAt files.now) }
    ensures selected { spec.standing_at program.now files.now result ≡ meaning.select (reading_of program.now files.now primary_key.now) }
{
    if is_keyless_alone(files) {
        return Some(0);
    }
    if has_met_end(program, files) {
        return select_at_end(program, files, primary_key);
    }
    let first = first_without_key(files);
    if first.is_some() {
        return first;
    }
    select_by_key(program, files, primary_key)
}
