//! What is held of control fields.

use crate::compared::{are_zoned_digits, field_bytes};
use crate::keys::RecordKey;
use crate::levels::{LEVELS, LevelField};
use arrayvec::ArrayVec;
use s3_lines::sheet::FieldForm;
use std::alloc::{AllocError, Global};
use std::marker::Model;

/// The most bytes that a control field compares.
pub const FIELD_BYTES: usize = 256;

/// The control field of one level as it is held: what it compares, if one is held at all.
#[derive(Drop)]
pub struct HeldField {
    /// Whether one is held.
    pub is_given: bool,
    /// What it compares.
    pub bytes: ArrayVec<u8, FIELD_BYTES>,
}

impl HeldField {
    ghost use Rattle.std.specs.Prelude.{◌≡◌, ◌≤◌, None, Some, IsTrue, length};
    ghost use Rattle.s3_meaning.specs.Selection.{same_key};
    ghost use Rattle.s3_match.specs.Inner.Keys.{held_key};
    ghost use Rattle.s3_match.specs.Inner.LevelField.{compared_at, is_ranged};

    /// No control field is held.
    pub fn none() -> HeldField
        ensures { held_key result ≡ None }
    {
        HeldField {
            is_given: false,
            bytes: ArrayVec::new(),
        }
    }

    /// Holds no control field any more.
    pub fn forget(&mut self)
        ensures { held_key self.new ≡ None }
    {
        self.is_given = false;
    }

    /// Holds what a control field compares.
    pub fn hold(&mut self, compared: &[u8])
        requires { length compared.now ≤ FIELD_BYTES }
        ensures { held_key self.new ≡ Some compared.now }
    {
        self.is_given = true;
        self.bytes.clear();
        if self.bytes.try_extend_from_slice(compared).is_err() {
            unreachable!()
        }
    }

    /// Whether this is held.
    fn is_same(&self, compared: &[u8]) -> bool
        ensures { result ≡ same_key (Some compared.now) (held_key self.now) }
    {
        self.is_given && compared == self.bytes.as_slice()
    }

    /// Whether the held value is the same as the value of a control field of a record. A zoned number and characters are compared
    /// in the record; `value` is the buffer for a packed number.
    pub fn is_field(&self, value: &mut RecordKey, field: &LevelField, bytes: &[u8]) -> bool
        requires { IsTrue (is_ranged field.now) }
        ensures { result ≡ same_key (Some (compared_at bytes.now field.now)) (held_key self.now) }
    {
        if !self.is_given {
            return false;
        }
        match field.form {
            FieldForm::Alphanumeric | FieldForm::PackedText => {
                field_bytes(field, bytes) == self.bytes.as_slice()
            }
            FieldForm::Zoned(_) => are_zoned_digits(field_bytes(field, bytes), &self.bytes),
            FieldForm::Packed(_) => {
                value.read_field(field, bytes);
                self.is_same(value.bytes.as_slice())
            }
        }
    }
}

/// What is held of the control fields of L1 to L9, L1 first. It is on the heap, so that a run that is moved doesn't copy it.
#[derive(Drop)]
pub struct HeldFields {
    pub(crate) fields: Vec<HeldField>,
}

impl Model for HeldFields {
    ghost use Rattle.std.specs.Prelude.{◌≡◌, List, length};
    ghost use Rattle.s3_match.specs.declared.held.HeldField.{HeldField};

    ghost Value = { List HeldField };

    ghost view = { λ held. held.fields.items };

    ghost invariant = { λ held. length held.fields.items ≡ 9 };
}

impl HeldFields {
    ghost use Rattle.std.specs.Prelude.{◌≡◌, ℕ, IfOk, None};
    ghost use Rattle.s3_match.specs.Inner.Controls.{held_in};

    /// No control field is held; refused only if memory runs out.
    #[tactic(auto, using(crate::proofs::HeldLemmas::none_more))]
    pub fn none(alloc: Global) -> Result<HeldFields, AllocError>
        ensures { IfOk result (λ held. (level : ℕ) → held_in held level ≡ None) }
    {
        let mut fields = Vec::with_capacity(alloc, LEVELS as usize)?;
        for _ in 0..LEVELS {
            fields.push(HeldField::none())?;
        }
        Ok(HeldFields { fields })
    }

    /// Holds no control field any more.
    pub fn forget(&mut self)
        ensures { (level : ℕ) → held_in self.new level ≡ None }
    {
        for index in 0..LEVELS as usize {
            self.fields[index].forget();
        }
    }
}
