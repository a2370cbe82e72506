//! Multiplication in the field of FIPS 197, section 4.
#![tactic(auto)]

ghost use Rattle.std.specs.Prelude.{◌≡◌};
ghost use Rattle.field.specs.Field.{x_times};

// XTIMES(b).
pub fn x_times(b: u8) -> u8
    ensures { result ≡ x_times b }
{
    ((b % 128) * 2) ^ ((b / 128) * 0x1b)
}
