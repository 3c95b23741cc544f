//! Scripts: the entries of both levels in their order, a line for each or for so many of one kind.
ghost use Rattle.std.specs.Prelude.{◌≡◌};
ghost use Rattle.s3_bureau.specs.Script.{level_named, count_of, times_of, digit_behind, command_of, entries_of};
ghost use Rattle.s3_bureau.specs.Inner.Script.{ReadsScript};

use super::entry::Entry;
use s3_cards::{LevelId, first_line, number_spelled};
use s3_level::Action;
use std::alloc::{AllocFailed, Global};

/// What a line of a script asks for: an entry, so many times.
#[derive(Clone, Copy)]
pub struct Command {
    /// The entry.
    pub entry: Entry,
    /// How many times, 1 to 9,999.
    pub count: u16,
}

/// Why a script can't be read.
#[derive(Clone, Copy)]
pub enum ScriptFault {
    /// Memory ran out: a growth was refused.
    NoMemory,
    /// The number of the first ill-formed line, from 1.
    Line(usize),
}

impl From<AllocFailed<Command>> for ScriptFault {
    ghost use Rattle.std.specs.Prelude.{◌≡◌};
    ghost use Rattle.s3_bureau.specs.declared.script.ScriptFault.TheVariants.{NoMemory};

    ghost from_gives = { λ _ fault. fault ≡ NoMemory };

    fn from(_: AllocFailed<Command>) -> ScriptFault {
        ScriptFault::NoMemory
    }
}

/// The commands of a script (docs/RUNNING.md, "The script"), or the number of its first ill-formed line.
#[tactic(auto, using(crate::proofs::Scripts::none_read, crate::proofs::Scripts::all_read, crate::proofs::Scripts::passed_over, crate::proofs::Scripts::one_more, crate::proofs::Scripts::ill_formed))]
pub fn read_script(alloc: Global, text: &[u8]) -> Result<Vec<Command>, ScriptFault>
    ensures { ReadsScript (entries_of text.now) result }
{
    let mut commands = Vec::new(alloc);
    let mut passed: usize = 0;
    let mut rest = text;
    while let Some((line, after)) = first_line(rest) {
        if !line.is_empty() {
            match read_command(line) {
                Some(command) => commands.push(command)?,
                None => return Err(ScriptFault::Line(passed + 1)),
            }
        }
        passed += 1;
        rest = after;
    }
    Ok(commands)
}

/// The command of a line, if the line is well formed.
#[tactic(auto, unfolding(crate::specs::Script::command_of))]
fn read_command(line: &[u8]) -> Option<Command>
    ensures { result ≡ command_of line.now }
{
    let [kind, digit, rest @ ..] = line else {
        return None;
    };
    let level = level_named_by(*digit)?;
    let (action, count) = match kind {
        b'T' => (Action::Turn, times(rest)?),
        b'D' => (Action::Drain, times(rest)?),
        b'R' => (Action::Reply(digit_after_blank(rest)?), 1),
        _ => return None,
    };
    Some(Command {
        entry: Entry { level, action },
        count,
    })
}

/// The level of a digit.
fn level_named_by(digit: u8) -> Option<LevelId>
    ensures { result ≡ level_named digit }
{
    match digit {
        b'1' => Some(LevelId::One),
        b'2' => Some(LevelId::Two),
        _ => None,
    }
}

/// How many times an entry is done: once, or as often as the count after a blank says.
fn times(rest: &[u8]) -> Option<u16>
    ensures { result ≡ times_of rest.now }
{
    match rest {
        [] => Some(1),
        [b' ', digits @ ..] => count(digits),
        _ => None,
    }
}

/// A count from 1 to 9,999 in one to four digits.
#[tactic(auto, using(crate::proofs::Counts::of_four_digits))]
fn count(digits: &[u8]) -> Option<u16>
    ensures { result ≡ count_of digits.now }
{
    if digits.len() > 4 {
        return None;
    }
    match number_spelled(b'0', digits)? {
        0 => None,
        number => Some(number as u16),
    }
}

/// The only digit after a blank.
fn digit_after_blank(rest: &[u8]) -> Option<u8>
    ensures { result ≡ digit_behind rest.now }
{
    match rest {
        [b' ', digit] if digit.is_ascii_digit() => Some(*digit - b'0'),
        _ => None,
    }
}
