//! The log of a day that is refused before its first turn.

use crate::fault::DayFault;
use crate::order::Order;
use crate::outputs::{Output, is_log_free, limit_of, remove_made};
use crate::watch::Watch;
use s3_day_log::{DayRefused, Event, line_at};
use s3_operating::Clock;
use s3_paper_commands::status::WRONG_WORDS;
use std::alloc::Global;
use std::io::Write;

/// Makes the log of a day that is refused before its first turn, with the line of the refusal. It makes none if no log is asked for, if
/// a file has its name, if the options are wrong, or if another command has a file of the day: that may be the same day, which makes
/// its log. It returns the fault.
pub fn log_refusal<'a>(rt: &HostRuntime, order: &Order<'a>, fault: DayFault<'a>) -> DayFault<'a> {
    if let Some(name) = order.log
        && fault.status() != WRONG_WORDS
        && !fault.is_in_use()
        && is_log_free(rt, order, name)
    {
        // the fault that is reported is the one that came first
        let _ = make_log(rt, order, name, &fault);
    }
    fault
}

/// Makes a log with the line of a refusal. If it can't be written, it is removed again.
fn make_log<'a>(
    rt: &HostRuntime,
    order: &Order<'a>,
    name: &'a str,
    fault: &DayFault<'a>,
) -> Result<(), DayFault<'a>> {
    let line = event_line(rt, fault)?;
    let limit = limit_of(rt, order)?;
    let mut output = match Output::open(rt, name, false, limit) {
        Ok(output) => output,
        Err(fault) => return Err(DayFault::of_pack(&fault, name)),
    };
    if output.write_all(line.as_bytes()).is_err() || output.flush().is_err() {
        remove_made(rt, &[name]);
    }
    Ok(())
}

/// The line of the log for a refusal at this time.
fn event_line<'a>(rt: &HostRuntime, fault: &DayFault<'_>) -> Result<String, DayFault<'a>> {
    let line = last_line(rt.alloc(), fault)?;
    let day = DayRefused {
        status: fault.status(),
        line,
    };
    let seconds = Watch::new(rt).seconds();
    Ok(line_at(rt.alloc(), seconds, Event::Refused(day))?)
}

/// The line with which a refusal is reported, without its end.
fn last_line<'a>(alloc: Global, fault: &DayFault<'_>) -> Result<String, DayFault<'a>> {
    let mut told = Vec::new(alloc);
    fault.tell(&mut told);
    let text = str::from_utf8(&told).unwrap_or("");
    Ok(String::from_str(alloc, text.trim_end_matches('\n'))?)
}
