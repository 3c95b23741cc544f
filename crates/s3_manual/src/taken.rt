//! What a word of a command takes, as the manual shows it.

use s3_paper_commands::words::Takes;

/// Whether the word may be given several times.
pub fn is_repeated(takes: Takes) -> bool {
    matches!(
        takes,
        Takes::Values(_) | Takes::Files | Takes::FollowingFiles | Takes::Following(_)
    )
}

/// The value that holds if the word isn't given, if one does.
pub fn default_of(takes: Takes) -> Option<&'static str> {
    match takes {
        Takes::U16Or(_, default) | Takes::U8Or(_, default) => Some(default),
        _ => None,
    }
}

/// Whether shells complete a value. One of a blank or an apostrophe would need quotes of its own in each of them.
pub fn is_completed(value: &str) -> bool {
    !value.contains(' ') && !value.contains('\'')
}
