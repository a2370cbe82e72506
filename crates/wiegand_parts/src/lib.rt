//! Facility and number of a Wiegand number, from its record (document 02, T-05).
#![tactic(auto)]

ghost use Rattle.std.specs.Prelude.{◌≡◌, ◌+◌, ◌*◌, ◌/◌, ◌%◌};
ghost use Rattle.wiegand_parts.specs.WiegandParts.{facility_of, number_of};

// Eight bits that end with the last but one of `low`: the last of `high`, and seven of `low`.
fn eight(high: u8, low: u8) -> u8
    ensures { result ≡ high % 2 * 128 + low / 2 }
{
    high % 2 * 128 + low / 2
}

// The facility: the eight bits behind the first of the 26.
pub fn facility(four: [u8; 4]) -> u8
    ensures { result ≡ facility_of four }
{
    eight(four[0], four[1])
}

// The number: the sixteen bits behind those.
pub fn number(four: [u8; 4]) -> u16
    ensures { result ≡ number_of four }
{
    octets::word(eight(four[1], four[2]), eight(four[2], four[3]))
}
