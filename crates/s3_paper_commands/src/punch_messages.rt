//! Errors of plain text as editors read them.

use s3_punch::{Part, PunchFault, PunchReason, Punched};
use s3_refusals::{Shown, is_shown};
use std::alloc::AllocError;

/// What is missing before a source that is in no job, if its tabs make a card too wide: among statements a tab doesn't go to the
/// columns of a sheet. None for any other text.
pub fn missing_statements(punched: &Punched) -> Option<&'static str> {
    let is_bare = matches!(punched.part, Part::Statements) && !punched.text.starts_with(b"/");
    if is_bare && is_wide_by_tabs(punched) {
        Some(
            "a source stands in a job, where tabs go to the columns of its sheets; put // LOAD $RPG,F1 and // RUN before its first line, where they are missing, and /* after its last one",
        )
    } else {
        None
    }
}

/// Whether the first card that is too wide was typed with tabs.
fn is_wide_by_tabs(punched: &Punched) -> bool {
    let mut faults = punched.faults.iter();
    match faults.find(|fault| matches!(fault.reason, PunchReason::TooWide(_))) {
        Some(wide) => punched.changes.iter().any(|change| change.line == wide.line
            && change.changes.has_tabs),
        None => false,
    }
}

/// Appends all errors of a file as editors read them, a line each.
pub fn push_messages(text: &mut String, file: &str, punched: &Punched) -> Result<(), AllocError> {
    for fault in &punched.faults {
        push_message(text, file, fault)?;
    }
    if let Some(words) = missing_statements(punched) {
        let file = Shown(file);
        writeln!(text, "{file}:1:1: error: {words}")?;
    }
    Ok(())
}

/// Appends an error as editors read it.
fn push_message(text: &mut String, file: &str, fault: &PunchFault) -> Result<(), AllocError> {
    let line = fault.line;
    let column = fault.column;
    let reason = fault.reason;
    let file = Shown(file);
    match unprintable(reason) {
        Some(code) => writeln!(
            text,
            "{file}:{line}:{column}: error: no card has the unprintable character U+{code:04X}; take it out"
        ),
        None => writeln!(text, "{file}:{line}:{column}: error: {reason}"),
    }
}

/// The code of the character that a reason is about, if a terminal doesn't show it as it is.
pub fn unprintable(reason: PunchReason) -> Option<u32> {
    match reason {
        PunchReason::NoCardHas(character) if !is_shown(character) => Some(character as u32),
        _ => None,
    }
}
