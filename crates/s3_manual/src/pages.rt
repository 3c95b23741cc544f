//! The pages of the manual, in roff.

use crate::draft::Draft;
use crate::roff::{
    put_bold, put_italic, put_name, put_reference, put_section, put_text, put_title,
};
use crate::taken::{default_of, is_repeated};
use s3_command_line::{ABOUT, commands};
use s3_paper_commands::words::{Choice, CommandWords, Example, Status, Word};
use std::alloc::{AllocError, Global};

/// What a page of a command is called before the command's name.
pub const PREFIX: &str = "bureau-";

/// The page of a command.
pub fn command_page(alloc: Global, command: &CommandWords) -> Result<String, AllocError> {
    let page = page_name(alloc, command)?;
    let mut draft = Draft::new(alloc);
    put_title(&mut draft, page.as_str());
    put_name(&mut draft, page.as_str(), command.about);
    put_synopsis(&mut draft, command);
    put_description(&mut draft, command.about);
    put_options(&mut draft, command);
    put_statuses(&mut draft, command.statuses);
    put_examples(&mut draft, command.examples);
    put_section(&mut draft, "SEE ALSO");
    put_reference(&mut draft, "bureau", "");
    draft.finish()
}

/// The name of a command's page.
pub fn page_name(alloc: Global, command: &CommandWords) -> Result<String, AllocError> {
    let name = command.name;
    format!(in alloc; "{PREFIX}{name}")
}

fn put_synopsis(draft: &mut Draft, command: &CommandWords) {
    put_section(draft, "SYNOPSIS");
    draft.put("\\fBbureau ");
    put_text(draft, command.name);
    draft.put("\\fR\n");
    for word in command.words {
        put_use(draft, word);
    }
}

/// Appends how a word is used, in brackets if it may be left out.
fn put_use(draft: &mut Draft, word: &Word) {
    if word.takes.is_hidden() {
        return;
    }
    let is_optional = !word.takes.is_needed();
    if is_optional {
        draft.put("[");
    }
    put_word(draft, word);
    if is_optional {
        draft.put("]");
    }
    if is_repeated(word.takes) {
        draft.put("...");
    }
    draft.put("\n");
}

/// Appends a word with what it takes.
fn put_word(draft: &mut Draft, word: &Word) {
    let is_option = !word.takes.is_following();
    if is_option {
        put_option(draft, word.name);
    }
    if let Some(shown) = word.takes.shown() {
        draft.put(if is_option { "\\ " } else { "" });
        put_italic(draft, shown);
    }
}

/// Appends the name of an option.
fn put_option(draft: &mut Draft, name: &str) {
    draft.put("\\fB\\-\\-");
    put_text(draft, name);
    draft.put("\\fR");
}

fn put_description(draft: &mut Draft, about: &str) {
    put_section(draft, "DESCRIPTION");
    put_text(draft, about);
    draft.put(".\n");
}

fn put_options(draft: &mut Draft, command: &CommandWords) {
    put_section(draft, "OPTIONS");
    for word in command.words {
        put_explained(draft, word);
    }
    put_help(draft);
}

/// Appends a word with its help, and with the values that it may have.
fn put_explained(draft: &mut Draft, word: &Word) {
    if word.takes.is_hidden() {
        return;
    }
    draft.put(".TP\n");
    put_word(draft, word);
    draft.put("\n");
    put_text(draft, word.help);
    if let Some(default) = default_of(word.takes) {
        draft.put("; ");
        put_text(draft, default);
        draft.put(" by default");
    }
    draft.put(".\n");
    if let Some(choices) = word.takes.choices() {
        put_choices(draft, choices);
    }
}

fn put_choices(draft: &mut Draft, choices: &[Choice]) {
    draft.put(".RS\n");
    for choice in choices {
        put_item(draft, choice.name, choice.help);
    }
    draft.put(".RE\n");
}

/// Appends a name in bold and what it is.
fn put_item(draft: &mut Draft, name: &str, text: &str) {
    draft.put(".TP\n");
    put_bold(draft, name);
    draft.put("\n");
    put_text(draft, text);
    draft.put(".\n");
}

/// Appends the option that each command has.
fn put_help(draft: &mut Draft) {
    put_item(draft, "--help", "Prints help");
}

fn put_statuses(draft: &mut Draft, statuses: &[Status]) {
    put_section(draft, "EXIT STATUS");
    for status in statuses {
        put_status(draft, *status);
    }
}

fn put_status(draft: &mut Draft, status: Status) {
    draft.put(".TP\n\\fB");
    draft.put_number(status.number);
    draft.put("\\fR\n");
    put_text(draft, status.meaning);
    draft.put(".\n");
}

fn put_examples(draft: &mut Draft, examples: &[Example]) {
    put_section(draft, "EXAMPLES");
    let mut is_first = true;
    for example in examples {
        if !is_first {
            draft.put(".PP\n");
        }
        is_first = false;
        put_example(draft, *example);
    }
}

fn put_example(draft: &mut Draft, example: Example) {
    put_text(draft, example.purpose);
    draft.put(":\n.PP\n.RS 4\n.nf\n");
    put_text(draft, example.line);
    draft.put("\n.fi\n.RE\n");
}

/// The page of the program, which lists the commands.
pub fn program_page(alloc: Global) -> Result<String, AllocError> {
    let mut draft = Draft::new(alloc);
    put_title(&mut draft, "bureau");
    put_name(&mut draft, "bureau", ABOUT);
    put_section(&mut draft, "SYNOPSIS");
    draft.put(SYNOPSIS);
    put_section(&mut draft, "DESCRIPTION");
    draft.put(DESCRIPTION);
    put_section(&mut draft, "COMMANDS");
    for command in &commands() {
        put_command(&mut draft, command);
    }
    draft.put(HELP);
    put_section(&mut draft, "OPTIONS");
    put_help(&mut draft);
    put_item(
        &mut draft,
        "--version",
        "Prints the version, and what the program was made from",
    );
    put_section(&mut draft, "EXIT STATUS");
    draft.put(STATUSES);
    draft.finish()
}

/// Appends a command with the name of its page.
fn put_command(draft: &mut Draft, command: &CommandWords) {
    draft.put(".TP\n\\fBbureau\\-");
    put_text(draft, command.name);
    draft.put("\\fR(1)\n");
    put_text(draft, command.about);
    draft.put(".\n");
}

/// How the program is called.
const SYNOPSIS: &str = "\\fBbureau\\fR \\fICOMMAND\\fR [\\fIOPTION\\fR]...
.br
\\fBbureau help\\fR [\\fICOMMAND\\fR]
.br
\\fBbureau help man\\fR [\\fB\\-\\-list\\fR | \\fIPAGE\\fR]
.br
\\fBbureau help completions\\fR \\fBbash\\fR | \\fBzsh\\fR | \\fBfish\\fR
";

/// What the program is.
const DESCRIPTION: &str =
    "\\fBbureau\\fR compiles and runs programs in RPG II, the language of the IBM System/3.
Two departments run their job streams on one disk pack at the same time, and neither can disturb the other.
.PP
A pack is a file.
Each command that changes a pack reads it from \\fB\\-\\-pack\\fR, and writes it to \\fB\\-\\-save\\fR, which may be the same file.
Each command has a page of its own.
";

/// The command that prints this manual.
const HELP: &str = ".TP
\\fBbureau help\\fR
Prints the help of the program, or of a command.
With \\fBman\\fR it prints a page of this manual, by default this one, and with \\fBman \\-\\-list\\fR the names of all pages.
With \\fBcompletions\\fR it prints a script with which a shell completes commands, options and their values.
";

/// What the exit statuses have in common.
const STATUSES: &str = ".TP
\\fB0\\fR
The command is done.
.TP
\\fB1\\fR
It is refused, or memory ran out.
.TP
\\fB2\\fR
The options are wrong.
.TP
\\fB3\\fR
A file, standard input or standard output failed.
.TP
\\fB4\\fR
The command is done, and something waits for a person.
.TP
\\fB5\\fR
A day is done, and a job of it was passed over or ended by a reply.
";
