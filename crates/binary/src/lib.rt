//! Bytes and their bits, the high one first.
#![tactic(auto)]

ghost use Rattle.std.specs.Prelude.{◌≡◌, ℕ, ◌+◌, ◌*◌, ◌≤◌, length, get_or};
ghost use Rattle.octets.specs.Lists.{part};
ghost use Rattle.binary.specs.Binary.{value, binary, bytes_of, bits_of};

// Four bits as a number.
fn four(a: u8, b: u8, c: u8, d: u8) -> u8
    requires { (a ≤ 1) × (b ≤ 1) × (c ≤ 1) × (d ≤ 1) }
    ensures value { result ≡ 8 * a + 4 * b + 2 * c + d }
    ensures upper_bound { result ≤ 15 }
{
    8 * a + 4 * b + 2 * c + d
}

// Eight bits, from a place on, as a byte.
fn byte_at(bits: &[u8], at: usize) -> u8
    requires { (at + 8 ≤ length bits.now) × ((i : ℕ) → get_or bits.now i 0 ≤ 1) }
    ensures { result ≡ value (part bits.now at 8) }
{
    let high = four(bits[at], bits[at + 1], bits[at + 2], bits[at + 3]);
    let low = four(bits[at + 4], bits[at + 5], bits[at + 6], bits[at + 7]);
    16 * high + low
}

// The four bytes of 32 bits.
pub fn bytes_of(bits: &[u8]) -> [u8; 4]
    requires { (length bits.now ≡ 32) × ((i : ℕ) → get_or bits.now i 0 ≤ 1) }
    ensures { result ≡ bytes_of 4 bits.now }
{
    [
        byte_at(bits, 0),
        byte_at(bits, 8),
        byte_at(bits, 16),
        byte_at(bits, 24),
    ]
}

// The bits of a byte.
fn bits_of_byte(b: u8) -> [u8; 8]
    ensures { result ≡ binary 8 b }
{
    [
        b / 128 % 2,
        b / 64 % 2,
        b / 32 % 2,
        b / 16 % 2,
        b / 8 % 2,
        b / 4 % 2,
        b / 2 % 2,
        b % 2,
    ]
}

// The 32 bits of four bytes.
pub fn bits_of(bytes: &[u8]) -> [u8; 32]
    requires { length bytes.now ≡ 4 }
    ensures { result ≡ bits_of bytes.now }
{
    let mut bits = [0u8; 32];
    for (i, b) in bytes.iter().enumerate() {
        let eight = bits_of_byte(*b);
        octets::copy_at(&mut bits, 8 * i, &eight);
    }
    bits
}
