//! Jobs in words.

use crate::inherited::Inherited;
use crate::job_list::{JobEntry, Statements};
use crate::names::Shown;
use crate::{CardPlace, DeckText, push_characters, push_name};
use s3_ocl::{FaultyJob, FileStatement, JobCards, Switch};
use std::alloc::AllocError;

/// Appends the list of a deck's jobs: for each a line with its number, its program and its lines, and a line for each of its
/// files; for a faulty one what is wrong.
pub fn push_jobs(
    text: &mut String,
    deck: &DeckText<'_>,
    jobs: &[JobEntry],
) -> Result<(), AllocError> {
    for (place, job) in jobs.iter().enumerate() {
        let number = place.saturating_add(1);
        write!(text, "  job {number}, ")?;
        match &job.statements {
            Statements::Sound(cards) => push_name(text, cards.program())?,
            Statements::Faulty(_) => text.push_str("faulty")?,
        }
        text.push_str(", ")?;
        push_lines(
            text,
            deck.place_of(job.first_card()),
            deck.place_of(job.after()),
        )?;
        text.push('\n')?;
        match &job.statements {
            Statements::Sound(cards) => push_files(text, cards)?,
            Statements::Faulty(faulty) => push_fault(text, deck, faulty)?,
        }
    }
    Ok(())
}

/// Appends `day1.job, lines 1 to 12`, or both ends if a job continues in another file.
pub(crate) fn push_lines(
    text: &mut String,
    first: CardPlace<'_>,
    last: CardPlace<'_>,
) -> Result<(), AllocError> {
    match (first.place, last.place) {
        (Some(from), Some(to)) if from.file == to.file && from.line <= to.line => {
            let file = Shown(from.file);
            let first_line = from.line;
            let last_line = to.line;
            write!(text, "{file}, lines {first_line} to {last_line}")
        }
        _ => write!(text, "{first} to {last}"),
    }
}

/// Appends what is wrong with a job, and on which card.
fn push_fault(
    text: &mut String,
    deck: &DeckText<'_>,
    faulty: &FaultyJob,
) -> Result<(), AllocError> {
    let place = deck.place_of(usize::from(faulty.card));
    let fault = faulty.fault;
    writeln!(text, "    {place}: {fault}")
}

fn push_files(text: &mut String, job: &JobCards) -> Result<(), AllocError> {
    for file in job.files() {
        text.push_str("    file ")?;
        push_file(text, file)?;
        text.push('\n')?;
    }
    Ok(())
}

fn push_file(text: &mut String, file: &FileStatement) -> Result<(), AllocError> {
    push_name(text, file.name)?;
    if file.label != file.name {
        text.push_str(", label ")?;
        push_name(text, file.label)?;
    }
    Ok(())
}

/// Appends what a kept job would inherit and from which job, and then the cards that it needs.
pub fn push_inherited(
    text: &mut String,
    deck: &DeckText<'_>,
    jobs: &[JobEntry],
    lost: &Inherited,
) -> Result<(), AllocError> {
    let Some(Statements::Sound(job)) = jobs.get(lost.job).map(|entry| &entry.statements) else {
        return Ok(());
    };
    let number = lost.job.saturating_add(1);
    if let Some(date) = lost.date {
        push_setter(text, deck, jobs, date.setter)?;
        push_heir(text, "the date", number, job)?;
    }
    if let Some(switches) = lost.switches {
        push_setter(text, deck, jobs, switches.setter)?;
        push_heir(text, "switches", number, job)?;
    }
    let run = deck.place_of(usize::from(job.run_card()));
    writeln!(text, "  add in job {number}, in front of its RUN, {run}:")?;
    if let Some(date) = lost.date {
        push_date(text, date.digits)?;
    }
    if let Some(switches) = lost.switches {
        push_switches(text, switches.card)?;
    }
    Ok(())
}

/// Appends `job 3 (day1.job, line 12), which is left out, sets `.
fn push_setter(
    text: &mut String,
    deck: &DeckText<'_>,
    jobs: &[JobEntry],
    place: usize,
) -> Result<(), AllocError> {
    let number = place.saturating_add(1);
    write!(text, "  job {number}")?;
    let line = match jobs.get(place) {
        Some(entry) => deck.place_of(entry.first_card()).place,
        None => None,
    };
    if let Some(line) = line {
        write!(text, " ({line})")?;
    }
    text.push_str(", which is left out, sets ")
}

/// Appends `the date of job 5, PAYREG`.
fn push_heir(
    text: &mut String,
    what: &str,
    number: usize,
    job: &JobCards,
) -> Result<(), AllocError> {
    write!(text, "{what} of job {number}, ")?;
    push_name(text, job.program())?;
    text.push('\n')
}

fn push_date(text: &mut String, date: [u8; 6]) -> Result<(), AllocError> {
    text.push_str("    // DATE ")?;
    push_characters(text, &date)?;
    text.push('\n')
}

/// Appends a SWITCH card.
fn push_switches(text: &mut String, switches: [Switch; 8]) -> Result<(), AllocError> {
    text.push_str("    // SWITCH ")?;
    for switch in switches {
        text.push(match switch {
            Switch::On => '1',
            Switch::Off => '0',
            Switch::Leave => 'X',
        })?;
    }
    text.push_str("    in place of its own SWITCH card, if it has one\n")
}
