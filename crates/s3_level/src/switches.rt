//! The switches U1 to U8, U1 the highest bit.
ghost use Rattle.std.specs.Prelude.{◌≡◌, ◌≤◌, ◌<◌, ◌==◌, ◌/◌, ◌%◌, if◌then◌else◌};
ghost use Rattle.s3_solo.specs.Serving.{is_on_after, switches_after};

use s3_ocl::Switch;

/// The bit of a switch after what a job does with it: the bit if it is then on, else 0.
fn bit_after(switch: Switch, was: u8, bit: u8) -> u8
    requires { 0 < bit }
    ensures value { result ≡ (if is_on_after switch (was / bit % 2 == 1) then bit else 0) }
    ensures within { result ≤ bit }
{
    let is_on = match switch {
        Switch::On => true,
        Switch::Off => false,
        Switch::Leave => was / bit % 2 == 1,
    };
    if is_on { bit } else { 0 }
}

/// The switches, U1 the highest bit, after what a job's statements do with each of U1 to U8.
pub fn switches_after(was: u8, switches: [Switch; 8]) -> u8
    ensures { result ≡ switches_after switches was }
{
    bit_after(switches[0], was, 0x80)
        + bit_after(switches[1], was, 0x40)
        + bit_after(switches[2], was, 0x20)
        + bit_after(switches[3], was, 0x10)
        + bit_after(switches[4], was, 0x08)
        + bit_after(switches[5], was, 0x04)
        + bit_after(switches[6], was, 0x02)
        + bit_after(switches[7], was, 0x01)
}
