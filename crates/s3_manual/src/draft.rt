//! A text that is put together.

use std::alloc::{AllocError, Global};

/// A text that grows, and remembers whether memory ran out.
#[derive(Drop)]
pub struct Draft {
    text: String,
    has_failed: bool,
}

impl Draft {
    /// An empty text.
    pub fn new(alloc: Global) -> Draft {
        Draft {
            text: String::new(alloc),
            has_failed: false,
        }
    }

    /// Appends a text.
    pub fn put(&mut self, text: &str) {
        self.has_failed = self.has_failed || self.text.push_str(text).is_err();
    }

    /// Appends a character.
    pub fn put_char(&mut self, character: char) {
        self.has_failed = self.has_failed || self.text.push(character).is_err();
    }

    /// Appends a number.
    pub fn put_number(&mut self, number: u8) {
        self.has_failed = self.has_failed || write!(self.text, "{number}").is_err();
    }

    /// The text, unless memory ran out.
    pub fn finish(self) -> Result<String, AllocError> {
        let Draft { text, has_failed } = self;
        if has_failed {
            return Err(AllocError);
        }
        Ok(text)
    }
}
