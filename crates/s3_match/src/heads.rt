//! The primary and secondary files, each with the record at its head.

ghost use Rattle.std.specs.Prelude.{◌≡◌, ◌≤◌, ◌<◌, length, not, true, false, IfOk, if◌then◌else◌};
ghost use Rattle.s3_meaning.specs.Cycle.{counted_read};
ghost use Rattle.s3_meaning.specs.Selection.{in_sequence, match_key};
ghost use Rattle.s3_program.specs.declared.mark.Key.TheVariants as key;
ghost use Rattle.s3_program.specs.declared.program.Program.{Program};
ghost use Rattle.s3_match.specs.Inner.Types.{is_type_start, kind_at};
ghost use Rattle.s3_match.specs.Inner.Levels.{AreLevels};
ghost use Rattle.s3_match.specs.Inner.Heads as spec;

use crate::keys::RecordKey;
use crate::levels::Levels;
use s3_decimal::{RECORD_BYTES, Record};
use s3_program::starts::TypeStart;
use std::alloc::{AllocError, Global};

/// The most records that a file has: the bytes of the largest pack.
const MOST_READS: u32 = 16_776_960;

/// What the head of a file has.
#[derive(Clone, Copy)]
pub enum Standing {
    /// Nothing yet: the next record is to be read.
    Unread,
    /// A record of the type that starts at this place.
    Stands(TypeStart),
    /// Nothing, and no record comes any more.
    Ended,
}

/// A primary or secondary file, as far as the cycle has read it.
#[derive(Drop)]
pub struct InputFile {
    /// Its slot among the files of the program.
    pub file: usize,
    /// What its head has.
    pub standing: Standing,
    /// How many of its records were read; the one at its head is the last of them.
    pub reads: u32,
    /// The bytes of the record at its head, and of the last one once that is taken.
    pub bytes: Record,
    /// The key of the record at its head.
    pub key: RecordKey,
    /// The key of the last head that had match fields and wasn't passed over.
    pub last_key: RecordKey,
}

impl InputFile {
    /// A file of which nothing was read; refused only if memory runs out.
    pub fn unread(alloc: Global, file: usize) -> Result<InputFile, AllocError>
        ensures input { IfOk result (λ input. (program : Program) → spec.input_of program input ≡ spec.unread program file) }
        ensures slot { IfOk result (λ input. input.file ≡ file) }
        ensures unread { IfOk result (λ input. spec.is_unread input ≡ true) }
    {
        Ok(InputFile {
            file,
            standing: Standing::Unread,
            reads: 0,
            bytes: Record::new(),
            key: RecordKey::none(alloc)?,
            last_key: RecordKey::none(alloc)?,
        })
    }

    /// Becomes a file of which nothing was read, as another job begins.
    pub fn begin_again(&mut self)
        ensures input { (program : Program) → spec.input_of program self.new ≡ spec.unread program self.old.file }
        ensures slot { self.new.file ≡ self.old.file }
        ensures unread { spec.is_unread self.new ≡ true }
    {
        self.vacate();
        self.reads = 0;
        self.last_key.forget();
    }

    /// Whether its next record is to be read.
    pub fn is_unread(&self) -> bool
        ensures { result ≡ spec.is_unread self.now }
    {
        match self.standing {
            Standing::Unread => true,
            Standing::Stands(_) | Standing::Ended => false,
        }
    }

    /// Whether its head has a record.
    pub fn has_head(&self) -> bool
        ensures { result ≡ spec.has_head self.now }
    {
        match self.standing {
            Standing::Stands(_) => true,
            Standing::Unread | Standing::Ended => false,
        }
    }

    /// Notes that the file has ended: no record comes any more.
    pub fn end(&mut self)
        ensures input { (program : Program) → spec.input_of program self.new ≡ spec.ended (spec.input_of program self.old) }
        ensures slot { self.new.file ≡ self.old.file }
        ensures head { spec.has_head self.new ≡ false }
    {
        self.standing = Standing::Ended;
    }

    /// Takes the record at its head away; its bytes stay until the next one is put there.
    pub fn vacate(&mut self)
        ensures input { (program : Program) → spec.input_of program self.new ≡ spec.vacated (spec.input_of program self.old) }
        ensures slot { self.new.file ≡ self.old.file }
        ensures unread { spec.is_unread self.new ≡ true }
        ensures bytes { self.new.bytes ≡ self.old.bytes }
    {
        self.standing = Standing::Unread;
    }

    /// Counts one more record that was read.
    pub fn count_read(&mut self)
        requires { spec.is_unread self.old ≡ true }
        ensures unread { spec.is_unread self.new ≡ true }
        ensures counted { (program : Program) → spec.input_of program self.new ≡ counted_read (spec.input_of program self.old) }
        ensures slot { self.new.file ≡ self.old.file }
    {
        if self.reads < MOST_READS {
            self.reads += 1;
        } else {
            self.reads = MOST_READS;
        }
    }

    /// Puts a record of a type at the head and answers true, if it is in sequence: its key isn't below the key of the last head
    /// with match fields. Else the head has no record.
    pub fn put(&mut self, start: TypeStart, levels: &Levels, bytes: &[u8]) -> bool
        requires unread { spec.is_unread self.old ≡ true }
        requires fits { length bytes.now ≤ RECORD_BYTES }
        ensures in_sequence { (program : Program) → AreLevels key.Match program levels.now → is_type_start program start ≡ true → result ≡ in_sequence (match_key (kind_at program start) bytes.now) (spec.input_of program self.old).last_key }
        ensures input { (program : Program) → AreLevels key.Match program levels.now → is_type_start program start ≡ true → spec.input_of program self.new ≡ (if result then spec.put program start bytes.now (spec.input_of program self.old) else spec.input_of program self.old) }
        ensures sound { (program : Program) → AreLevels key.Match program levels.now → is_type_start program start ≡ true → spec.IsInput program self.new }
        ensures slot { self.new.file ≡ self.old.file }
        ensures unread { spec.is_unread self.new ≡ not result }
    {
        self.key.read(start, levels, bytes);
        if self.key.is_less(&self.last_key) {
            return false;
        }
        self.keep(bytes);
        if self.key.is_given {
            self.last_key.copy_from(&self.key);
        }
        self.standing = Standing::Stands(start);
        true
    }

    /// Keeps the bytes of a record.
    fn keep(&mut self, bytes: &[u8])
        requires { length bytes.now ≤ RECORD_BYTES }
        ensures { spec.Keeps self.old self.new bytes.now }
    {
        self.bytes.put(bytes);
    }
}
