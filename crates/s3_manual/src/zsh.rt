//! Completions for zsh.

use crate::draft::Draft;
use crate::shells::SHELLS;
use crate::taken::{is_completed, is_repeated};
use s3_command_line::commands;
use s3_paper_commands::words::{Choice, CommandWords, Word};
use std::alloc::{AllocError, Global};

/// The script with which zsh completes.
pub fn zsh_script(alloc: Global) -> Result<String, AllocError> {
    let commands = commands();
    let mut draft = Draft::new(alloc);
    draft.put(START);
    for command in &commands {
        put_name(&mut draft, command);
    }
    draft.put(MIDDLE);
    put_shells(&mut draft);
    draft.put(AFTER_SHELLS);
    for command in &commands {
        put_command(&mut draft, command);
    }
    draft.put(END);
    draft.finish()
}

/// Appends a command with what it does.
fn put_name(draft: &mut Draft, command: &CommandWords) {
    draft.put("        '");
    draft.put(command.name);
    draft.put(":");
    put_text(draft, command.about);
    draft.put("'\n");
}

/// Appends the completions of the options of a command.
fn put_command(draft: &mut Draft, command: &CommandWords) {
    draft.put("                ");
    draft.put(command.name);
    draft.put(")\n                    _arguments \\\n");
    for word in command.words {
        put_word(draft, word);
    }
    draft.put("                        '(- *)'{-h,--help}'[Print help]'\n                    ;;\n");
}

/// Appends what completes a word and its value.
fn put_word(draft: &mut Draft, word: &Word) {
    if word.takes.is_hidden() {
        return;
    }
    draft.put("                        '");
    if is_repeated(word.takes) {
        draft.put("*");
    }
    if !word.takes.is_following() {
        put_option(draft, word);
    }
    put_value(draft, word);
    draft.put("' \\\n");
}

/// Appends an option with its help.
fn put_option(draft: &mut Draft, word: &Word) {
    draft.put("--");
    draft.put(word.name);
    if word.takes.shown().is_some() {
        draft.put("=");
    }
    draft.put("[");
    put_text(draft, word.help);
    draft.put("]");
}

/// Appends what completes the value of a word, if it takes one.
fn put_value(draft: &mut Draft, word: &Word) {
    let Some(shown) = word.takes.shown() else {
        return;
    };
    draft.put(":");
    put_text(draft, shown);
    draft.put(":");
    if word.takes.is_file() {
        draft.put("_files");
    }
    if let Some(choices) = word.takes.choices() {
        put_choices(draft, choices);
    }
}

fn put_choices(draft: &mut Draft, choices: &[Choice]) {
    draft.put("((");
    for choice in choices {
        if is_completed(choice.name) {
            draft.put(choice.name);
            draft.put("\\:\"");
            put_text(draft, choice.help);
            draft.put("\" ");
        }
    }
    draft.put("))");
}

/// Appends the shells that have completions.
fn put_shells(draft: &mut Draft) {
    for shell in SHELLS {
        draft.put(" '");
        draft.put(shell.name);
        draft.put("[");
        put_text(draft, shell.help);
        draft.put("]'");
    }
}

/// Appends a text as a part of a description in apostrophes.
fn put_text(draft: &mut Draft, text: &str) {
    for character in text.chars() {
        match character {
            '\'' => draft.put("'\\''"),
            '\\' | '[' | ']' | ':' | '$' | '`' | '"' => {
                draft.put("\\");
                draft.put_char(character);
            }
            other => draft.put_char(other),
        }
    }
}

/// What comes before the commands' names.
const START: &str = "#compdef bureau
# Completions of bureau for zsh. `bureau help completions zsh` writes this file; zsh reads it as _bureau in a folder of $fpath.
_bureau() {
    local state line
    local -a commands
    typeset -A opt_args
    commands=(
";

/// What comes between the commands' names and the shells.
const MIDDLE: &str = "        'help:Prints help, a page of the manual, or completions'
    )
    _arguments -C \\
        '(- *)'{-h,--help}'[Print help]' \\
        '(- *)'{-V,--version}'[Print version]' \\
        '1:command:->command' \\
        '*::argument:->argument' && return
    case $state in
        command)
            _describe -t commands 'command' commands
            ;;
        argument)
            case $words[1] in
                help)
                    if ((CURRENT == 2)); then
                        commands+=(man completions)
                        _describe -t commands 'command' commands
                    elif [[ $words[2] == completions ]]; then
                        _values 'shell'";

/// What comes between the shells and the commands' options.
const AFTER_SHELLS: &str = "
                    elif [[ $words[2] == man ]]; then
                        _describe -t commands 'page' commands
                    fi
                    ;;
";

/// What comes after the commands' options.
const END: &str = "            esac
            ;;
    esac
}
_bureau \"$@\"
";
