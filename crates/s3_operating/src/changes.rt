//! What a job at work has changed in its files.
ghost use Rattle.std.specs.Prelude.{◌≡◌, ◌==◌, ◌&&◌, not};
ghost use Rattle.std.specs.List.{list_any};
ghost use Rattle.s3_operating.specs.Inner.Changes.{added_to as added_to_spec, is_changed as is_changed_spec};

use crate::message::Message;
use s3_job_files::OpenFile;
use s3_level::Level;

/// Whether a reply ends a job that has changed files: it has made one, has added records to one or has updated some.
pub(crate) fn is_grave(digit: u8, files: &[OpenFile]) -> bool
    ensures { result ≡ (not (digit == 0) && list_any is_changed_spec files.now) }
{
    digit != 0 && has_changed(files)
}

/// Whether a job has changed one of its files.
fn has_changed(files: &[OpenFile]) -> bool
    ensures { result ≡ list_any is_changed_spec files.now }
{
    files.iter().any(|file| is_changed(file))
}

/// Whether a job has changed a file. A file that was under the label of one that it made is gone, also if it made a scratch file.
fn is_changed(file: &OpenFile) -> bool
    ensures { result ≡ is_changed_spec file.now }
{
    file.is_made || added_to(file) > 0 || file.updates > 0
}

/// How many records a job has added to a file.
fn added_to(file: &OpenFile) -> u32
    ensures { result ≡ added_to_spec file.now }
{
    file.records.len().saturating_sub(file.label.count)
}

/// Appends what a job at work has changed in its files: `; CHECKS is made anew, with 3 records; 2 records are added to LEDGER; STOCK is
/// updated 571 times`. A record that is updated twice counts twice.
pub(crate) fn push_changes(message: &mut Message, level: &Level) {
    for file in level.files() {
        if file.is_made {
            push_made(message, file, added_to(file));
        } else {
            push_added(message, file, added_to(file));
        }
        push_updates(message, file);
    }
}

fn push_made(message: &mut Message, file: &OpenFile, added: u32) {
    message.push("; ");
    message.push_name(file.name);
    message.push(" is made anew, ");
    if added == 0 {
        message.push("without records");
    } else {
        message.push("with ");
        message.push_counted(u64::from(added), "record");
    }
}

fn push_added(message: &mut Message, file: &OpenFile, added: u32) {
    if added == 0 {
        return;
    }
    message.push("; ");
    message.push_counted(u64::from(added), "record");
    message.push(if added == 1 {
        " is added to "
    } else {
        " are added to "
    });
    message.push_name(file.name);
}

fn push_updates(message: &mut Message, file: &OpenFile) {
    if file.updates == 0 {
        return;
    }
    message.push("; ");
    message.push_name(file.name);
    if file.updates == 1 {
        message.push(" is updated once");
    } else {
        message.push(" is updated ");
        message.push_counted(u64::from(file.updates), "time");
    }
}
