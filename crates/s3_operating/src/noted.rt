//! What a book shows of a day in addition to its printed lines: the turns and the end of each job, and halts with their replies.

use crate::clock::Clock;
use crate::closing::push_end_of_job;
use crate::desk::Desk;
use crate::message::Message;
use crate::seat::Seat;
use s3_cards::LevelId;
use s3_day_log::{LevelEnd, Replier};
use std::alloc::AllocError;
use std::io::{Read, Write};

/// A halt that was noted.
#[derive(Drop)]
pub struct NotedHalt {
    /// The number of its job in the level, from 1.
    pub job: usize,
    /// Its two letters, in ASCII.
    pub letters: [u8; 2],
    /// How many turns both levels had taken when it came.
    pub turn: u64,
    /// Its block.
    pub block: String,
    /// The digit of the reply and who gave it, if it has one.
    pub reply: Option<(u8, Replier)>,
    /// How many turns both levels had taken when the reply was given, if it has one.
    pub replied: Option<u64>,
}

/// When a job was at work, as the number of turns that both levels had taken.
#[derive(Clone, Copy)]
pub struct JobTurns {
    /// The turns when the job before it in its level was over; 0 for the first job.
    pub first: u64,
    /// The turns when it was over. If a reply ended it, and no job came after it, those when the reply was given. If it wasn't over,
    /// those of the whole day.
    pub last: u64,
}

impl<'a, R: Read + Drop, W: Write + Drop, F: Write + Drop, C: Clock + Drop> Desk<'a, R, W, F, C> {
    /// The halts of a level, in their order; none if halts aren't noted.
    pub fn noted_halts(&self, level: LevelId) -> &[NotedHalt] {
        &self.levels.seat(level).noted
    }

    /// How many turns both levels have taken.
    pub fn turns(&self) -> u64 {
        self.levels.tally.turns()
    }

    /// When the job at a place, from 0, was at work.
    pub fn job_turns(&self, level: LevelId, place: usize) -> JobTurns {
        turns_of(self.levels.seat(level), place, self.turns())
    }

    /// How the job at a place, from 0, ended, given how its level did.
    pub fn job_ending(
        &self,
        level: LevelId,
        place: usize,
        end: LevelEnd,
    ) -> Result<String, AllocError> {
        let mut message = Message::new(self.levels.alloc);
        if let Some(job) = self.levels.seat(level).ledger.begun().get(place) {
            push_end_of_job(&mut message, job, end);
        }
        message.finish()
    }
}

/// When the job at a place was at work, given the turns of the whole day.
fn turns_of(seat: &Seat<'_>, place: usize, turns: u64) -> JobTurns {
    let last = match seat.over_at.get(place) {
        Some(over) => *over,
        // the operator doesn't follow a level that has nothing left to do
        None if is_ended_by_reply(seat, place) => seat.replied_at,
        None => turns,
    };
    let first = match place.checked_sub(1) {
        Some(before) => seat.over_at.get(before).copied().unwrap_or(last),
        None => 0,
    };
    JobTurns { first, last }
}

/// Whether a reply ended the job at a place, or passed over it.
fn is_ended_by_reply(seat: &Seat<'_>, place: usize) -> bool {
    match seat.ledger.begun().get(place) {
        Some(job) => job.ending.is_some(),
        None => false,
    }
}
