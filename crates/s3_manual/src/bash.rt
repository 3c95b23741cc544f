//! Completions for bash.

use crate::draft::Draft;
use crate::shells::SHELLS;
use crate::taken::is_completed;
use s3_command_line::commands;
use s3_paper_commands::words::{Choice, CommandWords, Word};
use std::alloc::{AllocError, Global};

/// The script with which bash completes.
pub fn bash_script(alloc: Global) -> Result<String, AllocError> {
    let commands = commands();
    let mut draft = Draft::new(alloc);
    draft.put(START);
    put_names(&mut draft, &commands);
    draft.put("help --help --version'\n    else\n        case $command:$before in\n");
    draft.put("            help:help) words='");
    put_names(&mut draft, &commands);
    draft.put("man completions' ;;\n            help:man) words='--list bureau ");
    put_names(&mut draft, &commands);
    draft.put("' ;;\n            help:completions)");
    put_choices(&mut draft, SHELLS);
    draft.put(" ;;\n");
    for command in &commands {
        put_command(&mut draft, command);
    }
    draft.put(END);
    draft.finish()
}

/// Appends the names of the commands, each with a blank after it.
fn put_names(draft: &mut Draft, commands: &[CommandWords]) {
    for command in commands {
        draft.put(command.name);
        draft.put(" ");
    }
}

/// Appends the completions of the options of a command.
fn put_command(draft: &mut Draft, command: &CommandWords) {
    for word in command.words {
        put_value(draft, command.name, word);
    }
    draft.put("            ");
    draft.put(command.name);
    draft.put(":*) words='");
    for word in command.words {
        put_option(draft, word);
    }
    draft.put("--help'");
    if command.words.iter().any(|word| are_files(word)) {
        draft.put(" files=yes");
    }
    draft.put(" ;;\n");
}

/// Whether a word is that of files after the command.
fn are_files(word: &Word) -> bool {
    word.takes.is_following() && word.takes.is_file()
}

/// Appends the name of an option, with a blank after it.
fn put_option(draft: &mut Draft, word: &Word) {
    if !word.takes.is_following() && !word.takes.is_hidden() {
        draft.put("--");
        draft.put(word.name);
        draft.put(" ");
    }
}

/// Appends what completes the value of an option, if it takes one.
fn put_value(draft: &mut Draft, command: &str, word: &Word) {
    if word.takes.is_following() || word.takes.shown().is_none() {
        return;
    }
    draft.put("            ");
    draft.put(command);
    draft.put(":--");
    draft.put(word.name);
    draft.put(")");
    if word.takes.is_file() {
        draft.put(" files=yes");
    }
    if let Some(choices) = word.takes.choices() {
        put_choices(draft, choices);
    }
    draft.put(" ;;\n");
}

fn put_choices(draft: &mut Draft, choices: &[Choice]) {
    draft.put(" words='");
    for choice in choices {
        if is_completed(choice.name) {
            draft.put(choice.name);
            draft.put(" ");
        }
    }
    draft.put("'");
}

/// What comes before the commands. bash splits `--option=value` at the equals sign.
const START: &str =
    "# Completions of bureau for bash. `bureau help completions bash` writes this file.
_bureau()
{
    local word=${COMP_WORDS[COMP_CWORD]} before=${COMP_WORDS[COMP_CWORD - 1]} command=${COMP_WORDS[1]} words= files=
    COMPREPLY=()
    if [[ $word == = ]]; then
        word=
    elif [[ $before == = ]]; then
        before=${COMP_WORDS[COMP_CWORD - 2]}
    fi
    if ((COMP_CWORD == 1)); then
        words='";

/// What comes after the commands.
const END: &str = "        esac
    fi
    if [[ $files ]]; then
        compopt -o filenames 2> /dev/null
        mapfile -t COMPREPLY < <(compgen -f -- \"$word\")
    fi
    mapfile -t -O \"${#COMPREPLY[@]}\" COMPREPLY < <(compgen -W \"$words\" -- \"$word\")
}
complete -F _bureau bureau
";
