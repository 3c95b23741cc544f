//! Completions for fish.

use crate::draft::Draft;
use crate::shells::SHELLS;
use crate::taken::is_completed;
use s3_command_line::commands;
use s3_paper_commands::words::{Choice, CommandWords, Word};
use std::alloc::{AllocError, Global};

/// The script with which fish completes.
pub fn fish_script(alloc: Global) -> Result<String, AllocError> {
    let commands = commands();
    let mut draft = Draft::new(alloc);
    draft.put(START);
    put_choices(&mut draft, SHELLS);
    draft.put("\n");
    for command in &commands {
        put_name(&mut draft, command);
    }
    draft.put("complete -c bureau -n '__bureau_words help; or __bureau_words help man' -a '");
    for command in &commands {
        draft.put(command.name);
        draft.put(" ");
    }
    draft.put("'\ncomplete -c bureau -n '__bureau_words help' -a 'man completions'\n");
    for command in &commands {
        put_command(&mut draft, command);
    }
    draft.finish()
}

/// Appends a command with what it does.
fn put_name(draft: &mut Draft, command: &CommandWords) {
    draft.put("complete -c bureau -n __bureau_words -a ");
    draft.put(command.name);
    put_description(draft, command.about);
}

/// Appends the completions of the options of a command.
fn put_command(draft: &mut Draft, command: &CommandWords) {
    for word in command.words {
        put_word(draft, command.name, word);
    }
    put_start(draft, command.name);
    draft.put(" -s h -l help -d 'Print help'\n");
}

/// Appends the beginning of a line that holds after a command.
fn put_start(draft: &mut Draft, command: &str) {
    draft.put("complete -c bureau -n '__bureau_after ");
    draft.put(command);
    draft.put("'");
}

/// Appends what completes a word and its value.
fn put_word(draft: &mut Draft, command: &str, word: &Word) {
    if word.takes.is_hidden() {
        return;
    }
    if word.takes.is_following() {
        put_files(draft, command, word);
        return;
    }
    put_start(draft, command);
    draft.put(" -l ");
    draft.put(word.name);
    put_value(draft, word);
    put_description(draft, word.help);
}

/// Appends that files complete what follows a command, if it takes files.
fn put_files(draft: &mut Draft, command: &str, word: &Word) {
    if word.takes.is_file() {
        put_start(draft, command);
        draft.put(" -F\n");
    }
}

/// Appends what completes the value of a word, if it takes one.
fn put_value(draft: &mut Draft, word: &Word) {
    if word.takes.shown().is_none() {
        return;
    }
    if word.takes.is_file() {
        draft.put(" -r -F");
        return;
    }
    draft.put(" -x");
    if let Some(choices) = word.takes.choices() {
        put_choices(draft, choices);
    }
}

fn put_choices(draft: &mut Draft, choices: &[Choice]) {
    draft.put(" -a \"");
    let mut before = "";
    for choice in choices {
        if is_completed(choice.name) {
            draft.put(before);
            draft.put(choice.name);
            draft.put("\\t'");
            put_text(draft, choice.help);
            draft.put("'");
            before = " ";
        }
    }
    draft.put("\"");
}

/// Appends the end of a line: a description.
fn put_description(draft: &mut Draft, text: &str) {
    draft.put(" -d '");
    put_text(draft, text);
    draft.put("'\n");
}

/// Appends a text as a part of a description in apostrophes.
fn put_text(draft: &mut Draft, text: &str) {
    for character in text.chars() {
        if matches!(character, '\'' | '\\') {
            draft.put("\\");
        }
        draft.put_char(character);
    }
}

/// What comes before the commands.
const START: &str =
    "# Completions of bureau for fish. `bureau help completions fish` writes this file; fish reads it as bureau.fish.
# Whether the arguments so far, after the name of the program, are exactly these.
function __bureau_words
    set -l words (commandline -opc)
    set -e words[1]
    test \"$words\" = \"$argv\"
end
# Whether the first word after the name of the program is this one.
function __bureau_after
    set -l words (commandline -opc)
    test \"$words[2]\" = \"$argv[1]\"
end
complete -c bureau -f
complete -c bureau -n __bureau_words -s h -l help -d 'Print help'
complete -c bureau -n __bureau_words -s V -l version -d 'Print version'
complete -c bureau -n __bureau_words -a help -d 'Prints help, a page of the manual, or completions'
complete -c bureau -n '__bureau_words help completions'";
