//! The script as it is written, reply by reply.
ghost use Rattle.std.specs.Prelude.{◌≡◌, ◌≤◌, ◌-◌, ◌++◌, [], None, Some, ℕ, List, false, true, is_some, length, slice_range, IfSome, MatchOption, OnOk, ⊤};
ghost use Rattle.std.specs.List.{list_any};
ghost use Rattle.std.specs.Option.{option_and_then};
ghost use Rattle.std.specs.Io.KnownBytes.{Appends};
ghost use Rattle.s3_replay.specs.Inner.Taped.{AreKnown, AreRepliesWritten, BeganWith, HasScript, IsOnTape, KeepsFirst, Tapes, counted_bytes, is_reply_part};
ghost use Rattle.s3_replay.specs.Inner.Written.{entries_in};

use crate::performed::{Performed, Repeated, are_same};
use crate::script::script_text;
use s3_bureau::Action;
use std::alloc::{AllocError, Global};
use std::io;
use std::io::{ErrorKind, Write};

/// Where the script of a day is written. Unless a write has failed, the bytes of the file end with the script of the parts that are
/// written, if these bytes are known. Each call appends just the text of the parts that it writes. So the file has what it began with
/// (`BeganWith`), and then the script: a file that was empty has only the script.
#[derive(Drop)]
pub struct Tape<F: Write + Drop> {
    file: Option<F>,
    /// The parts of what was performed that are written.
    written: Vec<Repeated>,
    /// How many parts were looked at for replies.
    seen: usize,
    /// How many bytes are written.
    bytes: u64,
    failure: Option<io::Error>,
    ghost is_script: { IsOnTape F.contents file failure written.items },
    ghost are_counted: { bytes ≡ counted_bytes written.items },
}

impl<F: Write + Drop> Tape<F> {
    /// A script that is written to a file, or to none.
    #[tactic(auto, using(crate::proofs::Taping::begins, crate::proofs::Taping::nothing_yet))]
    pub fn new(alloc: Global, file: Option<F>) -> Tape<F>
        ensures file { result.file ≡ file }
        ensures nothing { result.written.items ≡ [] }
        ensures unseen { result.seen ≡ 0 }
        ensures works { result.failure ≡ None }
        ensures first { (first : List ℕ) → option_and_then F.contents file ≡ Some first → BeganWith F.contents result.file result.failure result.written.items first }
    {
        Tape {
            file,
            written: Vec::new(alloc),
            seen: 0,
            bytes: 0,
            failure: None,
        }
    }

    /// Writes what was performed up to the last reply, if there is a new one. If a level halts and nothing is written yet, writes what
    /// was performed up to there, so that a script that can't be written is found before the first reply. The last part isn't written:
    /// it may still grow. Of the other parts, each reply is then written, if the parts that were looked at before had no other reply.
    #[tactic(auto, using(crate::proofs::Taping::all_written, crate::proofs::Taping::keeps_same, crate::proofs::Taping::none_new, crate::proofs::Taping::tapes_nothing))]
    pub fn follow(
        &mut self,
        alloc: Global,
        parts: &[Repeated],
        is_halted: bool,
    ) -> Result<(), AllocError>
        ensures tapes { OnOk result (Tapes F.contents self.old.file self.new.file self.new.failure self.old.written.items self.new.written.items) }
        ensures kept { is_some self.new.file ≡ is_some self.old.file }
        ensures first { KeepsFirst F.contents self.old.file self.new.file self.old.failure self.new.failure self.old.written.items self.new.written.items }
        ensures failed { OnOk result (is_some self.old.failure ≡ true → is_some self.new.failure ≡ true) }
        ensures replies { OnOk result (AreRepliesWritten self.old.written.items self.old.seen parts.now → AreRepliesWritten self.new.written.items (length parts.now - 1) parts.now) }
        ensures seen { OnOk result (AreRepliesWritten self.old.written.items self.old.seen parts.now → AreRepliesWritten self.new.written.items self.new.seen parts.now) }
    {
        let whole = parts.len().saturating_sub(1);
        let from = self.seen.max(self.written.len());
        if from >= whole {
            return Ok(());
        }
        self.seen = whole;
        if (is_halted && self.written.is_empty()) || has_reply(between(parts, from, whole)) {
            let next = between(parts, self.written.len(), whole);
            self.write(alloc, next)?;
        }
        Ok(())
    }

    /// Writes all that was performed. Unless a write has failed, the file then has what it began with, and the script that asks for just
    /// what was performed. If the parts that are written aren't the first ones of these, that counts as a failure.
    #[tactic(auto, using(crate::proofs::Taping::has_script, crate::proofs::Taping::has_failed, crate::proofs::Taping::after_failure, crate::proofs::Taping::keeps_failed, crate::proofs::Taping::keeps_same, crate::proofs::Taping::tapes_nothing))]
    pub fn finish(&mut self, alloc: Global, performed: &Performed) -> Result<(), AllocError>
        ensures tapes { OnOk result (Tapes F.contents self.old.file self.new.file self.new.failure self.old.written.items self.new.written.items) }
        ensures kept { is_some self.new.file ≡ is_some self.old.file }
        ensures first { KeepsFirst F.contents self.old.file self.new.file self.old.failure self.new.failure self.old.written.items self.new.written.items }
        ensures failed { OnOk result (is_some self.old.failure ≡ true → is_some self.new.failure ≡ true) }
        ensures script { OnOk result (AreKnown F.contents → HasScript (BeganWith F.contents self.old.file self.old.failure self.old.written.items) (option_and_then F.contents self.new.file) (is_some self.new.failure) performed.now) }
        ensures whole { OnOk result (is_some self.new.failure ≡ false → entries_in self.new.written.items ≡ performed.now) }
    {
        let parts = performed.parts();
        match unwritten(parts, &self.written) {
            Some(rest) => self.write(alloc, rest),
            None => {
                self.failure = Some(io::Error::from(ErrorKind::InvalidData));
                Ok(())
            }
        }
    }

    /// Writes further parts. After a failure nothing more is written.
    #[tactic(auto, using(crate::proofs::Taping::after_failure, crate::proofs::Taping::counted_more, crate::proofs::Taping::keeps_failed, crate::proofs::Taping::keeps_same, crate::proofs::Taping::keeps_more, crate::proofs::Taping::one_more, crate::proofs::Taping::tapes_more, crate::proofs::Taping::tapes_failed))]
    fn write(&mut self, alloc: Global, next: &[Repeated]) -> Result<(), AllocError>
        ensures tapes { OnOk result (Tapes F.contents self.old.file self.new.file self.new.failure self.old.written.items self.new.written.items) }
        ensures kept { is_some self.new.file ≡ is_some self.old.file }
        ensures first { KeepsFirst F.contents self.old.file self.new.file self.old.failure self.new.failure self.old.written.items self.new.written.items }
        ensures failed { OnOk result (is_some self.old.failure ≡ true → is_some self.new.failure ≡ true) }
        ensures written { OnOk result (self.new.written.items ≡ self.old.written.items ++ next.now) }
        ensures seen { self.new.seen ≡ self.old.seen }
    {
        let text = script_text(alloc, next)?;
        self.written.extend_from_slice(next)?;
        self.bytes = self.bytes.saturating_add(text.len() as u64);
        if self.failure.is_none() {
            self.failure = put_into(&mut self.file, &text);
        }
        Ok(())
    }

    /// Whether a script is written.
    pub fn is_kept(&self) -> bool
        ensures { result ≡ is_some self.now.file }
    {
        self.file.is_some()
    }

    /// How many bytes the script has so far; all of it, once it is finished. Past the largest number of 64 bits, that number.
    pub fn bytes(&self) -> u64
        ensures { result ≡ counted_bytes self.now.written.items }
    {
        self.bytes
    }

    /// Why something couldn't be written.
    pub fn failure(&self) -> Option<&io::Error> {
        self.failure.as_ref()
    }

    /// Whether something couldn't be written.
    pub fn has_failed(&self) -> bool
        ensures { result ≡ is_some self.now.failure }
    {
        self.failure.is_some()
    }

    /// From now on no script is written.
    #[tactic(auto, using(crate::proofs::Taping::no_file))]
    pub fn give_up(&mut self)
        ensures file { self.new.file ≡ None }
        ensures works { self.new.failure ≡ None }
    {
        self.file = None;
        self.failure = None;
    }
}

/// Whether two parts are the same.
fn have_same(one: Repeated, other: Repeated) -> bool
    ensures { result ≡ true → one ≡ other }
{
    one.times == other.times && are_same(one.entry, other.entry)
}

/// The parts after those that are written, if these are the first ones.
fn unwritten<'a>(parts: &'a [Repeated], written: &[Repeated]) -> Option<&'a [Repeated]>
    ensures { IfSome result (λ rest. written.now ++ rest.now ≡ parts.now) }
{
    let mut rest = parts;
    let mut left = written;
    while let Some((part, left_after)) = left.split_first() {
        let Some((first, rest_after)) = rest.split_first() else {
            return None;
        };
        if !have_same(*first, *part) {
            return None;
        }
        left = left_after;
        rest = rest_after;
    }
    Some(rest)
}

/// Writes a text to a file, if there is one, and has it leave the program. Returns why that failed.
pub fn put_into<F: Write + Drop>(file: &mut Option<F>, text: &[u8]) -> Option<io::Error>
    ensures written { MatchOption result (Appends (option_and_then F.contents file.old) (option_and_then F.contents file.new) text.now) (λ _. ⊤) }
    ensures kept { is_some file.new ≡ is_some file.old }
{
    match file {
        Some(file) => write_out(file, text).err(),
        None => None,
    }
}

/// Writes bytes, and has them leave the program.
#[tactic(auto, using(crate::proofs::Taping::kept))]
fn write_out<F: Write>(file: &mut F, bytes: &[u8]) -> io::Result<()>
    ensures { OnOk result (Appends (F.contents file.old) (F.contents file.new) bytes.now) }
{
    file.write_all(bytes)?;
    file.flush()
}

/// The parts from one place to another.
fn between(parts: &[Repeated], from: usize, to: usize) -> &[Repeated]
    ensures { from ≤ to → to ≤ length parts.now → result.now ≡ slice_range parts.now from to }
{
    match parts.get(from..to) {
        Some(between) => between,
        None => &[],
    }
}

/// Whether one of some parts is a reply.
fn has_reply(parts: &[Repeated]) -> bool
    ensures { result ≡ list_any is_reply_part parts.now }
{
    parts
        .iter()
        .any(|part| matches!(part.entry.action, Action::Reply(_)))
}
