//! Which jobs of a level printed, and how much.

use crate::clock::Clock;
use crate::desk::Desk;
use s3_cards::ebcdic::DIGIT_0;
use s3_cards::{LevelId, Name};
use s3_day_log::{Ledger, Purpose};
use std::alloc::{AllocError, Global};
use std::io::{Read, Write};

/// The date of a level before a job has set one: six digits mmddyy, in EBCDIC.
const NO_DATE: [u8; 6] = [DIGIT_0; 6];

/// A job that was begun, as its paper has it.
#[derive(Clone, Copy)]
pub struct PrintedJob {
    /// Its number in the level, counted from 1 and on past 999.
    pub number: usize,
    /// The program that it compiles or runs, if its statements name one.
    pub program: Option<Name>,
    /// Whether it compiles the program.
    pub is_compile: bool,
    /// The date that it had: six digits mmddyy, in EBCDIC, all 0 if no job has set one.
    pub date: [u8; 6],
    /// How many lines it printed.
    pub lines: u64,
}

impl<'a, R: Read + Drop, W: Write + Drop, F: Write + Drop, C: Clock + Drop> Desk<'a, R, W, F, C> {
    /// The jobs of a level that were begun, in order, once the desk is closed: each line of the level's report is of one of them, and
    /// those of a job come after those of the jobs before it.
    pub fn printed_jobs(&self, level: LevelId) -> Result<Vec<PrintedJob>, AllocError> {
        printed_jobs_of(self.levels.alloc, &self.levels.seat(level).ledger)
    }
}

fn printed_jobs_of(alloc: Global, ledger: &Ledger) -> Result<Vec<PrintedJob>, AllocError> {
    let mut jobs = Vec::new(alloc);
    let mut date = NO_DATE;
    for (place, job) in ledger.begun().iter().enumerate() {
        if let Some(given) = ledger.date_given(place) {
            date = given;
        }
        jobs.push(PrintedJob {
            number: place.saturating_add(1),
            program: job.purpose.program(),
            is_compile: matches!(job.purpose, Purpose::Compiles(_)),
            date,
            lines: job.lines,
        })?;
    }
    Ok(jobs)
}
