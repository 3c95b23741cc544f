//! The shells that have completions.

use s3_paper_commands::words::Choice;

/// The shells, each with where it finds its script.
pub const SHELLS: &'static [Choice] = &[
    Choice {
        name: "bash",
        help: "Reads it as bureau in a folder bash-completion/completions",
    },
    Choice {
        name: "zsh",
        help: "Reads it as _bureau in a folder of fpath",
    },
    Choice {
        name: "fish",
        help: "Reads it as bureau.fish in a folder fish/completions",
    },
];
