//! Encodings of text in which no deck is.
ghost use Rattle.std.specs.Prelude.{◌≡◌};
ghost use Rattle.s3_decks.specs.Inner.Encodings.{encoding_of as encoding_of_spec, has_mark as has_mark_spec, is_utf16 as is_utf16_spec};

/// An encoding of text in which no deck is.
#[derive(Clone, Copy, PartialEq, Eq)]
pub enum Encoding {
    /// UTF-8 with a byte order mark at its beginning.
    MarkedUtf8,
    /// UTF-16.
    Utf16,
}

impl Encoding {
    /// What a file is, and what to do with it: words after the file's name.
    pub fn words(self) -> &'static str {
        match self {
            Encoding::MarkedUtf8 =>
                "begins with a byte order mark (EF BB BF); save it as UTF-8 without one, or as plain text",
            Encoding::Utf16 =>
                "is text in UTF-16; save it as plain text, or as UTF-8 without a byte order mark",
        }
    }
}

/// The encoding of a file, by the bytes with which it begins, if it is one in which no deck is.
pub fn encoding_of(bytes: &[u8]) -> Option<Encoding>
    ensures { result ≡ encoding_of_spec bytes.now }
{
    if has_mark(bytes) {
        Some(Encoding::MarkedUtf8)
    } else if is_utf16(bytes) {
        Some(Encoding::Utf16)
    } else {
        None
    }
}

fn has_mark(bytes: &[u8]) -> bool
    ensures { result ≡ has_mark_spec bytes.now }
{
    bytes.starts_with(&[0xef, 0xbb, 0xbf])
}

fn is_utf16(bytes: &[u8]) -> bool
    ensures { result ≡ is_utf16_spec bytes.now }
{
    bytes.starts_with(&[0xff, 0xfe])
        || bytes.starts_with(&[0xfe, 0xff])
        || bytes.iter().take(2).any(|byte| *byte == 0)
}
