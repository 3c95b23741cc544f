//! The jobs of a deck.
ghost use Rattle.std.specs.Prelude.{◌≡◌, IfOk, [], map};
ghost use Rattle.json.specs.Json.{null, string};
ghost use Rattle.s3_decks.specs.Inner.Decks.{line_of};
ghost use Rattle.s3_deck_json.specs.Inner.Objects.{faulty_word, job_head, job_json, kind_word, name_text, statement_json, used_file_json};
ghost use Rattle.s3_ocl.specs.Jobs.{is_compile as compiles};
ghost use Rattle.s3_json_lines.specs.Inner.Values.{array_of, cell_json, json_of, members_named, members_view};

use crate::messages::message_value;
use crate::names::characters_of;
use crate::places::{JobPlace, JobSpan, file_cell, line_cell};
use s3_cards::{Deck, LevelId};
use s3_decks::{DeckText, JobEntry, Statements, jobs_of};
use s3_json_lines::{Cell, Value, members, object, push_member};
use s3_ocl::{FileStatement, JobCards};
use s3_source_listing::messages_of_job;
use std::alloc::{AllocError, Global};

/// The program that a job loads, and what it does with the program.
#[derive(Clone, Copy)]
struct Loaded<'a> {
    program: Cell<'a>,
    kind: Cell<'a>,
}

/// The members of a job before its files.
fn head<'a>(
    alloc: Global,
    files: &'a DeckText<'a>,
    level: LevelId,
    job: JobSpan,
    loaded: Loaded<'a>,
) -> Result<Vec<(&'static str, Value)>, AllocError>
    ensures { IfOk result (λ made. members_view made.items ≡ members_named (job_head level job (cell_json loaded.entry.program) (cell_json loaded.entry.kind) (line_of job.start.card files.now) (line_of job.last files.now))) }
{
    let place = files.place_of(job.start.card).place;
    let last = files.place_of(job.last).place;
    members(
        alloc,
        &[
            ("level", Cell::Number(u64::from(level.number()))),
            ("job", Cell::Number(job.start.number as u64)),
            ("program", loaded.program),
            ("kind", loaded.kind),
            ("card", Cell::Number(job.start.card as u64)),
            ("file", file_cell(&place)),
            ("line", line_cell(&place)),
            ("last_card", Cell::Number(job.last as u64)),
            ("last_file", file_cell(&last)),
            ("last_line", line_cell(&last)),
        ],
    )
}

/// A file of a job as an object.
fn used_file_object<'a>(alloc: Global, name: &'a str, label: &'a str) -> Result<Value, AllocError>
    ensures { IfOk result (λ value. json_of value ≡ used_file_json name.now label.now) }
{
    object(
        alloc,
        &[("name", Cell::Text(name)), ("label", Cell::Text(label))],
    )
}

/// The file of a FILE statement as an object.
fn statement_value(alloc: Global, statement: &FileStatement) -> Result<Value, AllocError>
    ensures { IfOk result (λ value. json_of value ≡ statement_json statement.now) }
{
    let name = characters_of(alloc, statement.name)?;
    let label = characters_of(alloc, statement.label)?;
    used_file_object(alloc, name.as_str(), label.as_str())
}

/// The files of FILE statements as a list of objects.
#[tactic(auto, using(s3_json_lines::proofs::Views::view_list))]
fn statements_value(alloc: Global, statements: &[FileStatement]) -> Result<Value, AllocError>
    ensures { IfOk result (λ value. json_of value ≡ array_of (map statement_json statements.now)) }
{
    let mut values = Vec::new(alloc);
    for statement in statements {
        values.push(statement_value(alloc, statement)?)?;
    }
    Ok(Value::List(values))
}

/// What a job does, in one word.
fn kind_of(is_compile: bool) -> &'static str
    ensures { result.now ≡ kind_word is_compile }
{
    if is_compile { "compile" } else { "run" }
}

/// The error of a job's statements as an object.
fn error_value(
    alloc: Global,
    files: &DeckText<'_>,
    deck: &Deck,
    job: &JobEntry,
) -> Result<Value, AllocError> {
    let found = messages_of_job(alloc, deck, job)?;
    match found.messages.first() {
        Some(message) => message_value(alloc, files, message),
        None => Ok(Value::Nothing),
    }
}

/// The object of a job, from its files, its error and what comes before them.
#[tactic(auto, using(s3_json_lines::proofs::Views::view_object))]
fn job_object<'a>(
    alloc: Global,
    files: &'a DeckText<'a>,
    level: LevelId,
    job: JobSpan,
    loaded: Loaded<'a>,
    used: Value,
    error: Value,
) -> Result<Value, AllocError>
    ensures { IfOk result (λ value. json_of value ≡ job_json files.now level job (cell_json loaded.entry.program) (cell_json loaded.entry.kind) (json_of used) (json_of error)) }
{
    let mut made = head(alloc, files, level, job, loaded)?;
    push_member(&mut made, "files", used)?;
    push_member(&mut made, "error", error)?;
    Ok(Value::Object(made))
}

/// A job with sound statements, which loads a program, as an object.
fn sound_value(
    alloc: Global,
    files: &DeckText<'_>,
    level: LevelId,
    job: JobSpan,
    cards: &JobCards,
) -> Result<Value, AllocError>
    ensures { IfOk result (λ value. json_of value ≡ job_json files.now level job (string (name_text cards.now.program)) (string (kind_word (compiles cards.now))) (array_of (map statement_json cards.now.files)) null) }
{
    let used = statements_value(alloc, cards.files())?;
    let name = characters_of(alloc, cards.program())?;
    let loaded = Loaded {
        program: Cell::Text(name.as_str()),
        kind: Cell::Text(kind_of(cards.is_compile())),
    };
    job_object(alloc, files, level, job, loaded, used, Value::Nothing)
}

/// A job with statements in error as an object. It has no files.
#[tactic(auto, using(s3_json_lines::proofs::Views::view_list))]
fn faulty_value(
    alloc: Global,
    files: &DeckText<'_>,
    level: LevelId,
    job: JobSpan,
    error: Value,
) -> Result<Value, AllocError>
    ensures { IfOk result (λ value. json_of value ≡ job_json files.now level job null (string faulty_word) (array_of []) (json_of error)) }
{
    let loaded = Loaded {
        program: Cell::Nothing,
        kind: Cell::Text("faulty"),
    };
    let used = Value::List(Vec::new(alloc));
    job_object(alloc, files, level, job, loaded, used, error)
}

/// The job of a number as an object.
fn job_value(
    alloc: Global,
    files: &DeckText<'_>,
    deck: &Deck,
    level: LevelId,
    number: usize,
    job: &JobEntry,
) -> Result<Value, AllocError> {
    let span = JobSpan {
        start: JobPlace {
            number,
            card: job.first_card(),
        },
        last: job.after(),
    };
    match &job.statements {
        Statements::Sound(cards) => sound_value(alloc, files, level, span, cards),
        Statements::Faulty(_) => {
            let error = error_value(alloc, files, deck, job)?;
            faulty_value(alloc, files, level, span, error)
        }
    }
}

/// Appends an object for each job of the deck of a level. It is refused only if memory runs out.
pub fn push_jobs_of_deck(
    alloc: Global,
    values: &mut Vec<Value>,
    level: LevelId,
    files: &DeckText<'_>,
    deck: &Deck,
) -> Result<(), AllocError> {
    let jobs = jobs_of(alloc, deck)?;
    for (place, job) in jobs.iter().enumerate() {
        let number = place.saturating_add(1);
        values.push(job_value(alloc, files, deck, level, number, job)?)?;
    }
    Ok(())
}
