//! Exit statuses that are 0 for the program that started the command.
ghost use Rattle.std.specs.Prelude.{◌≡◌, ◌==◌, ◌||◌, ◌&&◌, if◌then◌else◌};

use s3_paper_commands::status::{DONE, PASSED_OVER, PERSON_NEEDED};

/// Why a value isn't taken. The table of options lists the values, so that the parser reports any other first.
const WRONG: &str = "--exit-zero takes 5, 4 or 4,5";

/// In place of which exit statuses the command ends with 0.
#[derive(Clone, Copy, Debug, PartialEq, Eq)]
pub struct ExitZero {
    /// Status 4: a level isn't done.
    pub is_unfinished: bool,
    /// Status 5: a job was passed over or ended by a reply.
    pub is_passed: bool,
}

impl ExitZero {
    /// What the value of the option says; without one each status stays.
    pub fn read(value: Option<&str>) -> Result<ExitZero, &'static str> {
        let (is_unfinished, is_passed) = match value {
            None => (false, false),
            Some("4") => (true, false),
            Some("5") => (false, true),
            Some("4,5") => (true, true),
            Some(_) => return Err(WRONG),
        };
        Ok(ExitZero {
            is_unfinished,
            is_passed,
        })
    }

    /// The exit status of the command, given that of its day.
    pub fn status_for(self, status: u8) -> u8
        ensures { result ≡ (if (status == 4 && self.is_unfinished) || (status == 5 && self.is_passed) then 0 else status) }
    {
        match status {
            PERSON_NEEDED if self.is_unfinished => DONE,
            PASSED_OVER if self.is_passed => DONE,
            _ => status,
        }
    }
}
