//! What an MVR takes.
ghost use Rattle.std.specs.Prelude.{◌≢◌, pos};

use s3_decimal::{Dec, Form};

/// A division whose remainder an MVR may take.
#[derive(Clone, Copy)]
pub struct Division {
    /// What was divided.
    pub dividend: Dec,
    /// The divisor.
    pub divisor: Dec,
    /// The form of its quotient.
    pub form: Form,
    pub ghost divides: { divisor.value ≢ pos 0 },
}

/// What a DIV leaves for an MVR.
#[derive(Clone, Copy)]
pub enum LeftOver {
    /// A number.
    Number(Dec),
    /// What this division leaves, whatever it is.
    Of(Division),
}
