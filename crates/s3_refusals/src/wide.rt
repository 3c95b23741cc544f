//! Texts with two or four bytes a character.

/// An encoding with two or four bytes a character.
#[derive(Clone, Copy)]
pub enum WideText {
    /// UTF-16 with a byte order mark.
    Utf16Marked,
    /// UTF-32 with a byte order mark.
    Utf32Marked,
    /// UTF-16, with the low byte of each character first.
    Utf16Low,
    /// UTF-16, with the high byte of each character first.
    Utf16High,
    /// UTF-32, with the low byte of each character first.
    Utf32Low,
    /// UTF-32, with the high byte of each character first.
    Utf32High,
}

impl WideText {
    /// What people call the encoding.
    pub fn family(self) -> &'static str {
        match self {
            WideText::Utf16Marked | WideText::Utf16Low | WideText::Utf16High => "UTF-16",
            WideText::Utf32Marked | WideText::Utf32Low | WideText::Utf32High => "UTF-32",
        }
    }

    /// The name that `iconv` has for the encoding. With the name of a family it takes the byte order mark off.
    pub fn name(self) -> &'static str {
        match self {
            WideText::Utf16Marked => "UTF-16",
            WideText::Utf32Marked => "UTF-32",
            WideText::Utf16Low => "UTF-16LE",
            WideText::Utf16High => "UTF-16BE",
            WideText::Utf32Low => "UTF-32LE",
            WideText::Utf32High => "UTF-32BE",
        }
    }
}

/// The encoding of a text with two or four bytes a character; `None` for any other text. Such a text begins with a byte order mark, or has
/// zeros in its first character.
pub fn wide_text(bytes: &[u8]) -> Option<WideText> {
    match bytes {
        [0xff, 0xfe, 0, 0, ..] | [0, 0, 0xfe, 0xff, ..] => Some(WideText::Utf32Marked),
        [0xff, 0xfe, ..] | [0xfe, 0xff, ..] => Some(WideText::Utf16Marked),
        [low, 0, 0, 0, ..] if *low != 0 => Some(WideText::Utf32Low),
        [0, 0, 0, low, ..] if *low != 0 => Some(WideText::Utf32High),
        [low, 0, ..] if *low != 0 => Some(WideText::Utf16Low),
        [0, low, ..] if *low != 0 => Some(WideText::Utf16High),
        _ => None,
    }
}
