//! The switches U1 to U8.
ghost use Rattle.std.specs.Prelude.{◌≡◌};
ghost use Rattle.s3_meaning.specs.Environment.{switch_on};

/// Whether the switch of a number is on, 1 for U1, the highest bit of `switches`, to 8 for U8.
pub fn is_switch_on(switches: u8, number: u8) -> bool
    ensures { result ≡ switch_on switches number }
{
    (u16::from(switches) >> 8_u8.saturating_sub(number)) % 2 == 1
}
