//! Control breaks: the control field that is held for each level.

ghost use Rattle.std.specs.Prelude.{◌≡◌, ◌||◌, ℕ, IfOk, None, not, true};
ghost use Rattle.std.specs.Option.{option_or};
ghost use Rattle.s3_meaning.specs.Selection.{control_value};
ghost use Rattle.s3_meaning.specs.Source.{has_control_fields, has_levels};
ghost use Rattle.s3_program.specs.Inner.Stands.{source_named};
ghost use Rattle.s3_match.specs.Inner.Types.{is_type_start, kind_at};
ghost use Rattle.s3_program.specs.declared.program.Program.{Program};
ghost use Rattle.s3_program.specs.declared.starts.TypeStart.{TypeStart};
ghost use Rattle.s3_program.specs.declared.mark.Key.TheVariants as key;
ghost use Rattle.s3_match.specs.Inner.Levels.{AreFieldsOf, AreLevels};
ghost use Rattle.s3_match.specs.Inner.Controls as spec;

use crate::control_fields::hold_fields;
use crate::held::HeldFields;
use crate::keys::RecordKey;
use crate::levels::{LevelFields, Levels};
use s3_program::starts::TypeStart;
use std::alloc::{AllocError, Global};

/// Whether total time is due after a record of a type: its type has control fields, or no type of the program has any.
pub fn makes_totals_due(levels: &Levels, start: TypeStart) -> bool
    ensures { (program : Program) → AreLevels key.Control program levels.now → is_type_start program start ≡ true → result ≡ (not (has_levels (source_named program)) || has_control_fields (kind_at program start)) }
{
    match levels.of_type(start) {
        Some(fields) => fields.is_any,
        None => true,
    }
}

/// The control fields that are held, with which those of the next record are compared.
#[derive(Drop)]
pub struct Controls {
    /// What the control field of each of L1 to L9 compares.
    pub held: HeldFields,
    /// Room for what one control field of a record compares, while it is read.
    pub value: RecordKey,
}

impl Controls {
    /// The controls as a job begins: no control field is held yet; refused only if memory runs out.
    pub fn none(alloc: Global) -> Result<Controls, AllocError>
        ensures { IfOk result (λ controls. (level : ℕ) → spec.held_in controls.held level ≡ None) }
    {
        Ok(Controls {
            held: HeldFields::none(alloc)?,
            value: RecordKey::none(alloc)?,
        })
    }

    /// The controls as another job begins: no control field is held any more.
    pub fn forget(&mut self)
        ensures { (level : ℕ) → spec.held_in self.new.held level ≡ None }
    {
        self.held.forget();
    }

    /// The greatest level, 1 to 9, that the control fields of a record of a type break; 0 if they break none. After the call they
    /// are held, for the levels that the type names.
    #[inline(always)]
    pub fn break_and_hold(&mut self, start: TypeStart, levels: &Levels, bytes: &[u8]) -> u8
        ensures level { (program : Program) → AreLevels key.Control program levels.now → is_type_start program start ≡ true → result ≡ spec.break_of (spec.held_in self.old.held) (kind_at program start) bytes.now }
        ensures held { (program : Program) → AreLevels key.Control program levels.now → is_type_start program start ≡ true → (level : ℕ) → spec.held_in self.new.held level ≡ option_or (control_value (kind_at program start) bytes.now level) (spec.held_in self.old.held level) }
    {
        match levels.of_type(start) {
            Some(fields) => self.hold(fields, bytes),
            None => 0,
        }
    }

    /// Holds these control fields of a record, and answers the greatest level, 1 to 9, of a field whose value changes; 0 if none
    /// changes.
    fn hold(&mut self, fields: &LevelFields, bytes: &[u8]) -> u8
        ensures { (program : Program) (start : TypeStart) → is_type_start program start ≡ true → AreFieldsOf key.Control program start fields.now → spec.Breaks program start bytes.now self.old.held self.new.held result }
    {
        if !fields.is_any {
            return 0;
        }
        hold_fields(&mut self.held, &mut self.value, fields, bytes)
    }
}
