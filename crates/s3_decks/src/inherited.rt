//! Date and switches that jobs which are left out would have set for later ones.

use crate::day_deck::is_left_out;
use crate::job_list::{JobEntry, Statements};
use s3_cards::ebcdic::DIGIT_0;
use s3_ocl::{JobCards, Switch};

/// How many switches a level has.
const SWITCHES: usize = 8;

/// The date that a kept job would inherit.
#[derive(Clone, Copy)]
pub struct InheritedDate {
    /// The date mmddyy, in EBCDIC.
    pub digits: [u8; 6],
    /// The place of the job that sets it among all jobs of the deck, from 0.
    pub setter: usize,
}

/// The switches that a kept job would inherit.
#[derive(Clone, Copy)]
pub struct InheritedSwitches {
    /// What its SWITCH has to say of U1 to U8, with what it says already.
    pub card: [Switch; SWITCHES],
    /// The place of the last job that sets one of those that it would inherit, among all jobs of the deck, from 0.
    pub setter: usize,
}

/// What a kept job would inherit from jobs that are left out. In the deck of the day it must have cards of its own for it.
#[derive(Clone, Copy)]
pub struct Inherited {
    /// The place of the kept job among all jobs of the deck, from 0.
    pub job: usize,
    /// The date, if it would be another one without the jobs that are left out.
    pub date: Option<InheritedDate>,
    /// The switches, if one of them would be different.
    pub switches: Option<InheritedSwitches>,
}

/// Date and switches of a level.
#[derive(Clone, Copy)]
struct Settings {
    date: [u8; 6],
    are_on: [bool; SWITCHES],
}

impl Settings {
    /// Those of a level before its first job.
    fn at_first() -> Settings {
        Settings {
            date: [DIGIT_0; 6],
            are_on: [false; SWITCHES],
        }
    }

    /// Those after the start of a job.
    fn after(&self, job: &JobCards) -> Settings {
        let mut are_on = self.are_on;
        for (place, switch) in job.switches().iter().enumerate() {
            match switch {
                Switch::On => are_on[place] = true,
                Switch::Off => are_on[place] = false,
                Switch::Leave => {}
            }
        }
        Settings {
            date: job.date().unwrap_or(self.date),
            are_on,
        }
    }
}

/// What the first kept job of a day that is taken up at a card, by its number from 1, would inherit from those that are left
/// out; `None` if that is nothing. It hands on what its cards then say, so no later job loses anything. Jobs that compile
/// need neither date nor switches, and a job whose statements are faulty sets and uses none.
pub fn lost_settings(jobs: &[JobEntry], card: usize) -> Option<Inherited> {
    let mut whole = Settings::at_first();
    let mut kept = Settings::at_first();
    for (place, entry) in jobs.iter().enumerate() {
        let Statements::Sound(job) = &entry.statements else {
            continue;
        };
        whole = whole.after(job);
        if is_left_out(entry, card) {
            continue;
        }
        kept = kept.after(job);
        if !job.is_compile() {
            let lost = Inherited {
                job: place,
                date: lost_date(jobs, card, &whole, &kept),
                switches: lost_switches(jobs, card, job.switches(), &whole, &kept),
            };
            return (lost.date.is_some() || lost.switches.is_some()).then_some(lost);
        }
    }
    None
}

/// The date, if it is another one without the jobs that are left out.
fn lost_date(
    jobs: &[JobEntry],
    card: usize,
    whole: &Settings,
    kept: &Settings,
) -> Option<InheritedDate> {
    if whole.date == kept.date {
        return None;
    }
    let setter = jobs
        .iter()
        .rposition(|entry| is_left_out(entry, card) && sets_date(entry))?;
    Some(InheritedDate {
        digits: whole.date,
        setter,
    })
}

/// Whether a job sets the date.
fn sets_date(entry: &JobEntry) -> bool {
    match &entry.statements {
        Statements::Sound(job) => job.date().is_some(),
        Statements::Faulty(_) => false,
    }
}

/// What a job's SWITCH must say in addition to its own entries, if a switch is different without the jobs that are left out.
fn lost_switches(
    jobs: &[JobEntry],
    card: usize,
    own: [Switch; SWITCHES],
    whole: &Settings,
    kept: &Settings,
) -> Option<InheritedSwitches> {
    let mut said = own;
    let mut are_lost = [false; SWITCHES];
    for place in 0..SWITCHES {
        if whole.are_on[place] != kept.are_on[place] {
            are_lost[place] = true;
            said[place] = if whole.are_on[place] {
                Switch::On
            } else {
                Switch::Off
            };
        }
    }
    let setter = jobs.iter().rposition(|entry| is_left_out(entry, card)
        && sets_switch(entry, are_lost))?;
    Some(InheritedSwitches { card: said, setter })
}

/// Whether a job sets one of these switches.
fn sets_switch(entry: &JobEntry, sought: [bool; SWITCHES]) -> bool {
    match &entry.statements {
        Statements::Sound(job) => {
            let switches = job.switches();
            switches.iter().zip(sought.iter()).any(|(switch, is_sought)| *is_sought
                && *switch != Switch::Leave)
        }
        Statements::Faulty(_) => false,
    }
}
