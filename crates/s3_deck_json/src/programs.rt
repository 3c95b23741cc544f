//! The programs of a deck.
ghost use Rattle.std.specs.Prelude.{◌≡◌, ◌≤◌, length, IfOk, OnOk};
ghost use Rattle.s3_decks.specs.Inner.Decks.{line_of};
ghost use Rattle.s3_deck_json.specs.Inner.Objects.{program_head, program_json, table_members, with_members};
ghost use Rattle.s3_json_lines.specs.Inner.Values.{cell_json, json_of, members_named, members_view};

use crate::messages::messages_value;
use crate::names::characters_of;
use crate::places::{JobPlace, file_cell, line_cell};
use crate::tables::Tables;
use s3_cards::{Deck, Name};
use s3_decks::{DeckText, JobEntry, Statements, jobs_of, program_of};
use s3_json_lines::{Cell, Value, members, push_member};
use s3_ocl::JobCards;
use s3_sheets::{SheetFault, read_sheets};
use s3_source_listing::{Outcome, messages_of_job};
use std::alloc::{AllocError, Global};

/// The programs of a deck as values.
#[derive(Drop)]
pub struct Programs {
    /// An object for each job that compiles a program or has statements in error.
    pub values: Vec<Value>,
    /// How many sources, errors and warnings the deck has.
    pub outcome: Outcome,
}

/// A deck and its files.
#[derive(Clone, Copy)]
struct Cards<'a> {
    files: &'a DeckText<'a>,
    deck: &'a Deck,
}

/// A job of a deck, with its number from 1.
#[derive(Clone, Copy)]
struct NumberedJob<'a> {
    number: usize,
    job: &'a JobEntry,
}

/// The members of a program before its messages.
fn head<'a>(
    alloc: Global,
    files: &'a DeckText<'a>,
    job: JobPlace,
    program: Cell<'a>,
) -> Result<Vec<(&'static str, Value)>, AllocError>
    ensures { IfOk result (λ made. members_view made.items ≡ members_named (program_head job (cell_json program.entry) (line_of job.card files.now))) }
{
    let place = files.place_of(job.card).place;
    members(
        alloc,
        &[
            ("job", Cell::Number(job.number as u64)),
            ("program", program),
            ("card", Cell::Number(job.card as u64)),
            ("file", file_cell(&place)),
            ("line", line_cell(&place)),
        ],
    )
}

/// Adds what a program has to its members.
#[tactic(auto, using(s3_json_lines::proofs::Views::view_list))]
fn push_tables(members: &mut Vec<(&'static str, Value)>, tables: Tables) -> Result<(), AllocError>
    ensures { OnOk result (members_view members.new.items ≡ with_members (members_view members.old.items) (table_members tables)) }
{
    let Tables {
        files,
        fields,
        indicators,
        labels,
    } = tables;
    push_member(members, "files", Value::List(files))?;
    push_member(members, "fields", Value::List(fields))?;
    push_member(members, "indicators", Value::List(indicators))?;
    push_member(members, "labels", Value::List(labels))
}

/// A program as an object.
#[tactic(auto, using(s3_json_lines::proofs::Views::view_object))]
fn program_value<'a>(
    alloc: Global,
    files: &'a DeckText<'a>,
    job: JobPlace,
    program: Cell<'a>,
    messages: Value,
    tables: Tables,
) -> Result<Value, AllocError>
    ensures { IfOk result (λ value. json_of value ≡ program_json files.now job (cell_json program.entry) (json_of messages) tables) }
{
    let mut made = head(alloc, files, job, program)?;
    push_member(&mut made, "messages", messages)?;
    push_tables(&mut made, tables)?;
    Ok(Value::Object(made))
}

/// The program of a source, which is in a deck from a place up to but without another.
fn program_at(deck: &Deck, from: usize, to: usize) -> Name {
    match deck.cards().get(from..to) {
        Some(source) => program_of(source),
        None => program_of(&[]),
    }
}

/// What a program has; empty lists if a card of its source can't be read as a line.
fn tables_of(alloc: Global, deck: &Deck, from: usize, to: usize) -> Result<Tables, AllocError>
    requires order { from ≤ to }
    requires within { to ≤ length deck.now }
{
    match read_sheets(alloc, deck, from, to) {
        Ok(lines) => Tables::of(alloc, &lines),
        Err(SheetFault::NoMemory) => Err(AllocError),
        Err(SheetFault::Diagnostics(_)) => Ok(Tables::none(alloc)),
    }
}

/// The messages of a job, and how many they are.
fn found_in(
    alloc: Global,
    cards: &Cards<'_>,
    job: &JobEntry,
) -> Result<(Value, Outcome), AllocError> {
    let found = messages_of_job(alloc, cards.deck, job)?;
    let outcome = found.outcome;
    let messages = messages_value(alloc, cards.files, &found.messages);
    drop(found);
    Ok((messages?, outcome))
}

impl Programs {
    /// Adds an object.
    fn add(
        &mut self,
        alloc: Global,
        cards: &Cards<'_>,
        entry: NumberedJob<'_>,
        program: Cell<'_>,
        tables: Tables,
    ) -> Result<(), AllocError> {
        let (messages, outcome) = found_in(alloc, cards, entry.job)?;
        let place = JobPlace {
            number: entry.number,
            card: entry.job.first_card(),
        };
        let value = program_value(alloc, cards.files, place, program, messages, tables)?;
        self.values.push(value)?;
        self.outcome = self.outcome.with(outcome);
        Ok(())
    }

    /// Adds the program of a compile job.
    fn add_compiled(
        &mut self,
        alloc: Global,
        cards: &Cards<'_>,
        entry: NumberedJob<'_>,
        compiled: &JobCards,
    ) -> Result<(), AllocError> {
        let (from, to) = (compiled.data_from(), compiled.data_to());
        // a job is within its deck, which the type of a job doesn't say
        if to > cards.deck.len() {
            return Ok(());
        }
        let name = characters_of(alloc, program_at(cards.deck, from, to))?;
        let tables = tables_of(alloc, cards.deck, from, to)?;
        self.add(alloc, cards, entry, Cell::Text(name.as_str()), tables)
    }

    /// Adds the program of a job, or the error of its statements.
    fn add_job(
        &mut self,
        alloc: Global,
        cards: &Cards<'_>,
        entry: NumberedJob<'_>,
    ) -> Result<(), AllocError> {
        match &entry.job.statements {
            Statements::Sound(compiled) if compiled.is_compile() => {
                self.add_compiled(alloc, cards, entry, compiled)
            }
            Statements::Sound(_) => Ok(()),
            Statements::Faulty(_) => {
                self.add(alloc, cards, entry, Cell::Nothing, Tables::none(alloc))
            }
        }
    }
}

/// An object for each program of a deck, with its messages and with what it has; and for each job with statements in error. It is refused
/// only if memory runs out.
pub fn programs_of_deck(
    alloc: Global,
    files: &DeckText<'_>,
    deck: &Deck,
) -> Result<Programs, AllocError> {
    let cards = Cards { files, deck };
    let jobs = jobs_of(alloc, deck)?;
    let programs = programs_of_jobs(alloc, &cards, &jobs);
    drop(jobs);
    programs
}

/// An object for each program of these jobs.
fn programs_of_jobs(
    alloc: Global,
    cards: &Cards<'_>,
    jobs: &[JobEntry],
) -> Result<Programs, AllocError> {
    let mut programs = Programs {
        values: Vec::new(alloc),
        outcome: Outcome::NONE,
    };
    for (place, job) in jobs.iter().enumerate() {
        let number = place.saturating_add(1);
        programs.add_job(alloc, cards, NumberedJob { number, job })?;
    }
    Ok(programs)
}
