//! Keys: what the match fields of a record compare, and the control field of a level.

ghost use Rattle.std.specs.Prelude.{◌≡◌, ◌+◌, ◌≤◌, ◌++◌, [], None, true, IfOk, IsTrue, length, unwrap_or, option_map};
ghost use Rattle.s3_meaning.specs.Selection as meaning;
ghost use Rattle.s3_match.specs.Inner.Keys as spec;
ghost use Rattle.s3_match.specs.Inner.Types.{is_type_start, kind_at};
ghost use Rattle.s3_match.specs.Inner.LevelField.{compared_at, field_in, is_ranged};
ghost use Rattle.s3_match.specs.Inner.Levels.{AreLevels};
ghost use Rattle.s3_program.specs.declared.mark.Key.TheVariants as key;
ghost use Rattle.s3_program.specs.declared.program.Program.{Program};

use crate::compared::{field_bytes, is_below, push_compared};
use crate::key_bytes::{KEY_BYTES, KeyBytes};
use crate::levels::{LEVELS, LevelField, LevelFields, Levels};
use s3_program::starts::TypeStart;
use std::alloc::{AllocError, Global};

/// The key of a record: what its match fields compare, if its type has any. It serves for single control fields too.
#[derive(Drop)]
pub struct RecordKey {
    /// Whether the type has such fields, so that there is a key.
    pub is_given: bool,
    /// The bytes that they compare, one field after another, the highest level first.
    pub bytes: KeyBytes,
}

/// Puts what the field of a level compares, if there is one, after the others.
fn push_field(compared: &mut KeyBytes, fields: &LevelFields, level: u8, bytes: &[u8])
    requires from_one { 1 ≤ level }
    requires to_nine { level ≤ 9 }
    requires room { length compared.old + 256 ≤ KEY_BYTES }
    ensures items { compared.new ≡ compared.old ++ unwrap_or (option_map (compared_at bytes.now) (field_in fields.now.fields level)) [] }
    ensures bound { length compared.new ≤ length compared.old + 256 }
{
    if let Some(field) = fields.at(level) {
        push_compared(compared, field.form, field_bytes(&field, bytes));
    }
}

/// Puts what the match fields compare one after another, M9 first.
fn push_match_fields(compared: &mut KeyBytes, fields: &LevelFields, bytes: &[u8])
    requires { compared.old ≡ [] }
    ensures { compared.new ≡ spec.match_values fields.now bytes.now meaning.levels }
{
    for step in 0..LEVELS {
        push_field(compared, fields, LEVELS - step, bytes);
    }
}

impl RecordKey {
    /// No key; refused only if memory runs out.
    pub fn none(alloc: Global) -> Result<RecordKey, AllocError>
        ensures { IfOk result (λ key. spec.key_in key ≡ None) }
    {
        Ok(RecordKey {
            is_given: false,
            bytes: KeyBytes::none(alloc)?,
        })
    }

    /// Becomes no key. Its bytes stay until the next key comes.
    pub fn forget(&mut self)
        ensures { spec.key_in self.new ≡ None }
    {
        self.is_given = false;
    }

    /// Becomes the key of a record of a type; none if the type has no match fields.
    pub fn read(&mut self, start: TypeStart, levels: &Levels, bytes: &[u8])
        ensures { (program : Program) → AreLevels key.Match program levels.now → is_type_start program start ≡ true → spec.key_in self.new ≡ meaning.match_key (kind_at program start) bytes.now }
    {
        match levels.of_type(start) {
            Some(fields) => self.read_fields(fields, bytes),
            None => self.is_given = false,
        }
    }

    /// Becomes the key of a record whose type has these match fields; none if it has none.
    #[inline(never)]
    fn read_fields(&mut self, fields: &LevelFields, bytes: &[u8])
        ensures { spec.key_in self.new ≡ spec.key_by fields.now bytes.now }
    {
        self.is_given = fields.is_any;
        if !self.is_given {
            return;
        }
        self.bytes.clear();
        push_match_fields(&mut self.bytes, fields, bytes);
    }

    /// Becomes what one control field of a record compares.
    pub fn read_field(&mut self, field: &LevelField, bytes: &[u8])
        requires { IsTrue (is_ranged field.now) }
        ensures value { self.new.bytes ≡ compared_at bytes.now field.now }
        ensures short { length self.new.bytes ≤ 256 }
    {
        self.bytes.clear();
        self.is_given = true;
        push_compared(&mut self.bytes, field.form, field_bytes(field, bytes));
    }

    /// Becomes the same key as another.
    #[inline(never)]
    pub fn copy_from(&mut self, other: &RecordKey)
        ensures { spec.key_in self.new ≡ spec.key_in other.now }
    {
        self.bytes.clear();
        self.is_given = other.is_given;
        self.bytes.extend(other.bytes.as_slice());
    }

    /// Whether both records have a key, and this one is the lower.
    pub fn is_less(&self, other: &RecordKey) -> bool
        ensures { result ≡ meaning.is_less (spec.key_in self.now) (spec.key_in other.now) }
    {
        self.is_given && other.is_given && is_below(self.bytes.as_slice(), other.bytes.as_slice())
    }

    /// Whether both records have a key, and the keys are the same.
    pub fn is_same(&self, other: &RecordKey) -> bool
        ensures { result ≡ meaning.same_key (spec.key_in self.now) (spec.key_in other.now) }
    {
        self.is_given && other.is_given && self.bytes.as_slice() == other.bytes.as_slice()
    }
}
