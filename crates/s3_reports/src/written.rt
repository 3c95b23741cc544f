//! A writer to which nothing more is written once a write has failed.
ghost use Rattle.std.specs.Prelude.{◌≡◌, ℕ, List, [], None, IfSome};
ghost use Rattle.s3_reports.specs.Inner.Written.{Adds, HasWritten, LeavesBytes, Moves};

use std::io::{ErrorKind, Write};

/// A writer, and whether a write has failed. Once one has, nothing more is written.
#[derive(Drop)]
pub struct Written<W: Write + Drop> {
    writer: W,
    has_failed: bool,
}

impl<W: Write + Drop> Written<W> {
    /// A writer before the first write.
    #[tactic(auto, using(crate::proofs::Writing::nothing_written))]
    pub fn new(writer: W) -> Written<W>
        ensures { HasWritten (W.contents writer) (W.contents result.writer) result.has_failed [] }
    {
        Written {
            writer,
            has_failed: false,
        }
    }

    /// Writes bytes, unless a write has failed. If this write fails, the first of these bytes may be written.
    #[tactic(auto, using(crate::proofs::Writing::more_written, crate::proofs::Writing::none_written))]
    pub fn put(&mut self, bytes: &[u8])
        ensures { Adds (W.contents self.old.writer) (W.contents self.new.writer) self.old.has_failed self.new.has_failed bytes.now }
    {
        if !self.has_failed {
            self.has_failed = fails_to_write(&mut self.writer, bytes);
        }
    }

    /// Has what was written leave the program, unless a write has failed.
    #[tactic(auto, using(crate::proofs::Writing::still_written))]
    pub fn flush(&mut self)
        ensures { (text : List ℕ) → Moves (W.contents self.old.writer) (W.contents self.new.writer) self.old.has_failed self.new.has_failed text text }
    {
        if !self.has_failed {
            self.has_failed = self.writer.flush().is_err();
        }
    }

    /// What is written to.
    pub fn writer(&self) -> &W {
        &self.writer
    }

    /// Whether a write has failed.
    pub fn has_failed(&self) -> bool
        ensures { result ≡ self.now.has_failed }
    {
        self.has_failed
    }
}

/// Writes bytes, and returns whether that failed.
#[tactic(auto, using(crate::proofs::Writing::leaves_before, crate::proofs::Writing::all_written, crate::proofs::Writing::front_written))]
fn fails_to_write<W: Write>(writer: &mut W, bytes: &[u8]) -> bool
    ensures { HasWritten (W.contents writer.old) (W.contents writer.new) result bytes.now }
{
    let mut rest = bytes;
    // as often as writes are interrupted: the bound is what shows that it ends
    for _try in 0..u64::MAX {
        if rest.is_empty() {
            return false;
        }
        match write_some(writer, rest) {
            Some(left) => rest = left,
            None => return true,
        }
    }
    true
}

/// Writes once, and returns the bytes that are left; none if the write failed. They are all left if the write was interrupted.
#[tactic(auto, using(crate::proofs::Writing::leaves_all, crate::proofs::Writing::leaves_none_taken, crate::proofs::Writing::leaves_rest))]
fn write_some<'b, W: Write>(writer: &mut W, bytes: &'b [u8]) -> Option<&'b [u8]>
    ensures some { IfSome result (λ left. LeavesBytes (W.contents writer.old) (W.contents writer.new) bytes.entry.now left.now) }
    ensures none { result ≡ None → LeavesBytes (W.contents writer.old) (W.contents writer.new) bytes.entry.now bytes.entry.now }
{
    match writer.write(bytes) {
        Ok(0) => None,
        Ok(count) => Some(bytes.split_at(count).1),
        Err(error) => {
            if error.kind() == ErrorKind::Interrupted {
                Some(bytes)
            } else {
                None
            }
        }
    }
}
