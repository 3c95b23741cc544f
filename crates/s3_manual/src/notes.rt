//! What `--help` prints after the options of a command.

use crate::draft::Draft;
use s3_paper_commands::words::{CommandWords, Example, Status};
use std::alloc::{AllocError, Global};

/// The exit statuses and the examples of a command.
pub fn help_notes(alloc: Global, command: &CommandWords) -> Result<String, AllocError> {
    let mut draft = Draft::new(alloc);
    draft.put("\nExit status:\n");
    for status in command.statuses {
        put_status(&mut draft, *status);
    }
    draft.put("\nExamples:\n");
    for example in command.examples {
        put_example(&mut draft, *example);
    }
    draft.finish()
}

fn put_status(draft: &mut Draft, status: Status) {
    draft.put("  ");
    draft.put_number(status.number);
    draft.put("  ");
    draft.put(status.meaning);
    draft.put("\n");
}

fn put_example(draft: &mut Draft, example: Example) {
    draft.put("  ");
    draft.put(example.purpose);
    draft.put(":\n      ");
    draft.put(example.line);
    draft.put("\n");
}
