//! Indicators that the cycle turns by itself, and those that it asks for.
ghost use Rattle.std.specs.Prelude.{◌≡◌, true, if◌then◌else◌};
ghost use Rattle.s3_lines.specs.declared.indicator.Indicator.{Indicator};
ghost use Rattle.s3_meaning.specs.Environment.{Environment, is_level, turn, turn_levels, with_last_record};
ghost use Rattle.s3_meaning.specs.Selection.{is_level_to};
ghost use Rattle.s3_operations.specs.Inner.Held.{IsSound, Changes, held};
ghost use Rattle.s3_operations.specs.Inner.Indicators.{on_in, is_settable};
ghost use Rattle.s3_operations.specs.Inner.Indicating.{with_levels_to};
ghost use Rattle.s3_operations.specs.Inner.Places.{has_place, indicator_place};

use crate::bits::Bits;
use crate::indicators::Indicators;
use crate::values::Values;
use s3_lines::indicator::Indicator;
use s3_program::program::Program;

/// The bits of L1 to L9 in the first word: 2 to the 51st less 2 to the 42nd.
const LEVEL_BITS: u64 = 0x7_FC00_0000_0000;

/// The places of L1 to L9.
fn levels() -> Bits
    ensures { (other : Indicator) → has_place result (indicator_place other) ≡ is_level other }
{
    Bits {
        word: 0,
        mask: LEVEL_BITS,
    }
}

impl Indicators {
    /// Turns L1 to L9 on or off.
    fn turn_levels(&mut self, to: bool)
        ensures { (other : Indicator) → on_in self.new other ≡ (if is_level other then to else on_in self.old other) }
    {
        self.turn_bits(levels(), to);
    }

    /// Turns L1 to this level on or off.
    fn turn_levels_to(&mut self, level: u8, to: bool)
        ensures { (other : Indicator) → on_in self.new other ≡ (if is_level_to level other then to else on_in self.old other) }
    {
        for number in 0..level {
            self.turn(Indicator::Level(number + 1), to);
        }
    }
}

impl Values {
    /// Whether an indicator is on.
    pub fn is_on(&self, program: &Program, indicator: Indicator) -> bool
        ensures { (rest : Environment) → result ≡ (held program.now self.now rest).on indicator }
    {
        self.indicators.is_on(indicator)
    }

    /// Turns an indicator that is no switch on or off.
    pub fn turn(&mut self, program: &Program, indicator: Indicator, to: bool)
        requires sound { IsSound program.now self.old }
        requires settable { is_settable indicator ≡ true }
        ensures { Changes program.now self.old self.new (λ source. turn indicator to) }
    {
        self.indicators.turn(indicator, to);
    }

    /// Turns L1 to L9 on or off.
    pub fn turn_levels(&mut self, program: &Program, to: bool)
        requires sound { IsSound program.now self.old }
        ensures { Changes program.now self.old self.new (λ source. turn_levels to) }
    {
        self.indicators.turn_levels(to);
    }

    /// Turns L1 to this level on; none if the level is 0.
    pub fn raise_levels(&mut self, program: &Program, level: u8)
        requires sound { IsSound program.now self.old }
        ensures { Changes program.now self.old self.new (λ source. with_levels_to level) }
    {
        self.indicators.turn_levels_to(level, true);
    }

    /// Turns LR and L1 to L9 on.
    pub fn turn_last_record_on(&mut self, program: &Program)
        requires sound { IsSound program.now self.old }
        ensures { Changes program.now self.old self.new (λ source. with_last_record) }
    {
        self.turn_levels(program, true);
        self.turn(program, Indicator::LastRecord, true);
    }
}
