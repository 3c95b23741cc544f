//! Which record is processed next, and whether it is matched.

ghost use Rattle.std.specs.Prelude.{◌≡◌, ◌<◌, Some, length};
ghost use Rattle.std.specs.List.{All, list_any};
ghost use Rattle.s3_lines.specs.declared.sheet.Designation.TheVariants.{Primary, Secondary};
ghost use Rattle.s3_meaning.specs.Source.{is_designated};
ghost use Rattle.s3_meaning.specs.Selection as meaning;
ghost use Rattle.s3_meaning.specs.Selection.{Selected};
ghost use Rattle.s3_match.specs.declared.heads.InputFile.{InputFile};
ghost use Rattle.s3_match.specs.Inner.Heads.{IsInput, file_at, has_head};
ghost use Rattle.s3_match.specs.Inner.Selecting as spec;

use crate::heads::InputFile;
use crate::keys::RecordKey;
use s3_program::program::Program;

/// Whether an input's file is a primary file of the program.
#[tactic(auto, using(crate::proofs::SelectLemmas::file_here, crate::proofs::SelectLemmas::file_past))]
pub fn is_primary(program: &Program, input: &InputFile) -> bool
    ensures { result ≡ is_designated Primary (file_at program.now input.now.file) }
{
    if input.file >= program.files.len() {
        return false;
    }
    program.files[input.file].is_primary()
}

/// Whether an input's file is a secondary file of the program.
#[tactic(auto, using(crate::proofs::SelectLemmas::file_here, crate::proofs::SelectLemmas::file_past))]
pub fn is_secondary(program: &Program, input: &InputFile) -> bool
    ensures { result ≡ is_designated Secondary (file_at program.now input.now.file) }
{
    if input.file >= program.files.len() {
        return false;
    }
    program.files[input.file].is_secondary()
}

#[tactic(auto, using(crate::proofs::SelectLemmas::file_here, crate::proofs::SelectLemmas::file_past))]
fn ends_job(program: &Program, input: &InputFile) -> bool
    ensures { result ≡ (file_at program.now input.now.file).ends_job }
{
    if input.file >= program.files.len() {
        return false;
    }
    program.files[input.file].ends_job
}

/// Whether the head has a record with this key.
fn has_key(input: &InputFile, key: &RecordKey) -> bool
    ensures { result ≡ spec.has_key key.now input.now }
{
    if !input.has_head() {
        return false;
    }
    input.key.is_same(key)
}

fn is_secondary_with_key(program: &Program, input: &InputFile, key: &RecordKey) -> bool
    ensures { result ≡ spec.is_secondary_with_key program.now key.now input.now }
{
    if !is_secondary(program, input) {
        return false;
    }
    has_key(input, key)
}

fn some_secondary_has(program: &Program, files: &[InputFile], key: &RecordKey) -> bool
    ensures { result ≡ list_any (spec.is_secondary_with_key program.now key.now) files.now }
{
    files
        .iter()
        .any(|input| is_secondary_with_key(program, input, key))
}

/// Whether MR is on for the head of a file: a primary head if a secondary head has its key, a secondary head if its key is the
/// key of the last primary record with match fields.
#[inline(always)]
pub fn is_matched(
    program: &Program,
    files: &[InputFile],
    primary_key: &RecordKey,
    place: usize,
) -> bool
    requires sound { All (IsInput program.now) files.now }
    requires within { place < length files.now }
    ensures { (selected : Selected) → spec.selected_at program.now files.now place ≡ Some selected → result ≡ meaning.is_matched (spec.reading_of program.now files.now primary_key.now) selected }
{
    let input = &files[place];
    if !input.key.is_given {
        return false;
    }
    if is_primary(program, input) {
        some_secondary_has(program, files, &input.key)
    } else {
        input.key.is_same(primary_key)
    }
}

/// Whether a file that counts for the end of the job has a head.
fn delays_end(program: &Program, input: &InputFile, some_end: bool) -> bool
    ensures { result ≡ spec.delays_end program.now some_end input.now }
{
    if !input.has_head() {
        return false;
    }
    if some_end {
        ends_job(program, input)
    } else {
        true
    }
}

fn some_ends(program: &Program, files: &[InputFile]) -> bool
    ensures { result ≡ list_any (λ input. (file_at program.now input.file).ends_job) files.now }
{
    files.iter().any(|input| ends_job(program, input))
}

fn some_delays(program: &Program, files: &[InputFile], some_end: bool) -> bool
    ensures { result ≡ list_any (spec.delays_end program.now some_end) files.now }
{
    files
        .iter()
        .any(|input| delays_end(program, input, some_end))
}

/// Whether the input of the job has ended: no file with E in its F line has a head left, or if none has E no file at all.
pub fn has_met_end(program: &Program, files: &[InputFile]) -> bool
    ensures { result ≡ meaning.has_met_end (spec.inputs_of program.now files.now) }
{
    let some_end = some_ends(program, files);
    let delayed = some_delays(program, files, some_end);
    !delayed
}
