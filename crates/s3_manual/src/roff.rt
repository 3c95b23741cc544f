//! Text and headings of a page for `man`, in roff.

use crate::draft::Draft;
use s3_command_line::VERSION;

/// Appends a text that roff shows as it is. It must not begin with a point at the start of a line.
pub fn put_text(draft: &mut Draft, text: &str) {
    for character in text.chars() {
        put_character(draft, character);
    }
}

/// Appends a character that roff shows as it is. Without their names roff would set these in other shapes.
fn put_character(draft: &mut Draft, character: char) {
    match character {
        '\\' => draft.put("\\e"),
        '-' => draft.put("\\-"),
        '\'' => draft.put("\\(aq"),
        '"' => draft.put("\\(dq"),
        '`' => draft.put("\\(ga"),
        '^' => draft.put("\\(ha"),
        '~' => draft.put("\\(ti"),
        other => draft.put_char(other),
    }
}

/// Appends a text in bold.
pub fn put_bold(draft: &mut Draft, text: &str) {
    draft.put("\\fB");
    put_text(draft, text);
    draft.put("\\fR");
}

/// Appends a text in italics.
pub fn put_italic(draft: &mut Draft, text: &str) {
    draft.put("\\fI");
    put_text(draft, text);
    draft.put("\\fR");
}

/// Appends the title of a page.
pub fn put_title(draft: &mut Draft, page: &str) {
    draft.put(".TH ");
    for character in page.chars() {
        put_character(draft, character.to_ascii_uppercase());
    }
    draft.put(" 1 \"\" \"bureau ");
    draft.put(VERSION);
    // no word is hyphenated, since options have hyphens of their own
    draft.put("\" \"User Commands\"\n.nh\n.ad l\n");
}

/// Appends the head of a section.
pub fn put_section(draft: &mut Draft, name: &str) {
    draft.put(".SH ");
    draft.put(name);
    draft.put("\n");
}

/// Appends the line that names a page and what it is about.
pub fn put_name(draft: &mut Draft, page: &str, about: &str) {
    put_section(draft, "NAME");
    put_text(draft, page);
    draft.put(" \\- ");
    let mut is_first = true;
    for character in about.chars() {
        put_character(draft, lowered(character, is_first));
        is_first = false;
    }
    draft.put("\n");
}

/// The first character of a text as a small letter, any other as it is.
fn lowered(character: char, is_first: bool) -> char {
    if is_first {
        character.to_ascii_lowercase()
    } else {
        character
    }
}

/// Appends a reference to another page.
pub fn put_reference(draft: &mut Draft, page: &str, after: &str) {
    put_bold(draft, page);
    draft.put("(1)");
    draft.put(after);
    draft.put("\n");
}
