//! Hexadecimal digits: bytes to digits and back (document 02, T-05, by RFC 4122's hexDigit and hexOctet).
#![tactic(auto)]

ghost use Rattle.std.specs.Prelude.{◌≡◌, true, ◌+◌, ◌*◌, ◌≤◌, ◌<◌, length};
ghost use Rattle.octets.specs.Lists.{over};
ghost use Rattle.conversion.specs.Conversion.{each};
ghost use Rattle.hexadecimal.specs.Hexadecimal.{is_digit, digit_value, digit, octets_of, digits_of};

// Whether a character is a hexadecimal digit, in either case.
#[tactic(auto, unfolding(crate::specs::Hexadecimal::is_digit))]
fn is_digit(c: u8) -> bool
    ensures { result ≡ is_digit c }
{
    c.is_ascii_hexdigit()
}

// Whether every character is one. A loop, where `conversion::each` would do: a must-fail edit changes its place.
pub fn are_digits(s: &[u8]) -> bool
    ensures { result ≡ each is_digit s.now }
{
    let mut ok = true;
    for c in s {
        ok = octets::both(ok, is_digit(*c));
    }
    ok
}

// The value of a digit.
#[tactic(auto, unfolding(crate::specs::Hexadecimal::is_digit, crate::specs::Hexadecimal::digit_value))]
fn digit_value(c: u8) -> u8
    requires { is_digit c ≡ true }
    ensures value { result ≡ digit_value c }
    ensures upper_bound { result < 16 }
{
    match c {
        b'0'..=b'9' => c - b'0',
        b'A'..=b'F' => c - b'A' + 10,
        _ => c - b'a' + 10,
    }
}

// The digit of a value, a small letter from ten on.
#[tactic(auto, unfolding(crate::specs::Hexadecimal::digit))]
fn digit(v: u8) -> u8
    requires { v < 16 }
    ensures { result ≡ digit v }
{
    if v < 10 { b'0' + v } else { b'a' + (v - 10) }
}

// The octets of some digits, written over the output from a place on.
pub fn read_digits(digits: &[u8], out: &mut [u8], at: usize)
    requires { (each is_digit digits.now ≡ true) × (at + length (octets_of digits.now) ≤ length out.old) }
    ensures { out.new ≡ over out.old at (octets_of digits.now) }
{
    // By place, so that the proof knows the place of each octet.
    for i in 0..digits.len() / 2 {
        let high = digit_value(digits[2 * i]);
        let low = digit_value(digits[2 * i + 1]);
        out[at + i] = 16 * high + low;
    }
}

// The digits of some octets, written over the output from a place on.
pub fn write_digits(octets: &[u8], out: &mut [u8], at: usize)
    requires { at + 2 * length octets.now ≤ length out.old }
    ensures { out.new ≡ over out.old at (digits_of octets.now) }
{
    for (i, b) in octets.iter().enumerate() {
        let two = [digit(*b / 16), digit(*b % 16)];
        octets::copy_at(out, at + 2 * i, &two);
    }
}
