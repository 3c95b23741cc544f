//! How far the work has come, and jobs as messages have them.

use crate::message::Message;
use crate::seat::Seat;
use crate::tally::Counts;
use s3_day_log::{Ledger, Purpose};
use s3_level::Level;

/// Appends the last job that was begun: `job 2, BILL`.
pub(crate) fn push_last_job(message: &mut Message, ledger: &Ledger) {
    match ledger.begun().len() {
        0 => message.push("no job yet"),
        begun => push_job_at(message, ledger, begun.saturating_sub(1)),
    }
}

/// Appends the job at a place, from 0, among those that were begun.
pub(crate) fn push_job_at(message: &mut Message, ledger: &Ledger, place: usize) {
    push_job_number(message, place);
    match ledger.begun().get(place) {
        Some(job) => push_purpose(message, job.purpose),
        None => push_purpose(message, Purpose::Unknown),
    }
}

/// Appends `job 2, ` of the job at a place, from 0.
pub(crate) fn push_job_number(message: &mut Message, place: usize) {
    message.push("job ");
    message.push_number(place.saturating_add(1) as u64);
    message.push(", ");
}

fn push_purpose(message: &mut Message, purpose: Purpose) {
    match purpose {
        Purpose::Runs(program) => message.push_name(program),
        Purpose::Compiles(program) => {
            message.push("compiling ");
            message.push_name(program);
        }
        Purpose::Unknown => message.push("whose statements are faulty"),
    }
}

/// Appends how far a level has come: `level 1: job 2, BILL (turns: 176339000, lines: 412)`, or that it is done.
pub(crate) fn push_progress(
    message: &mut Message,
    seat: &Seat<'_>,
    level: &Level,
    queued: usize,
    counts: Counts,
) {
    message.push_level(seat.level);
    message.push(": ");
    if queued == 0 && !level.has_work() {
        message.push("done");
    } else {
        push_last_job(message, &seat.ledger);
        push_counts(message, counts);
    }
}

fn push_counts(message: &mut Message, counts: Counts) {
    message.push(" (turns: ");
    message.push_number(counts.turns);
    message.push(", lines: ");
    message.push_number(counts.lines);
    message.push(")");
}
