//! Bytes in blocks of sixteen.
#![tactic(auto)]

ghost use Rattle.std.specs.Prelude.{◌≡◌, ◌+◌, ◌*◌, ◌≤◌, length, ◌&&◌};
ghost use Rattle.octets.specs.Bytes.{same};
ghost use Rattle.octets.specs.Lists.{part, over};

// The block that stands at a place of a slice.
pub fn block_at(s: &[u8], at: usize) -> [u8; 16]
    requires { at + 16 ≤ length s.now }
    ensures { result ≡ part s.now at 16 }
{
    let mut b = [0u8; 16];
    for i in 0..16 {
        b[i] = s[at + i];
    }
    b
}

// n bytes of a slice, from a place on.
pub fn part_of(s: &[u8], at: usize, n: usize) -> &[u8]
    requires { at + n ≤ length s.now }
    ensures { result.now ≡ part s.now at n }
{
    let end = at + n;
    &s[at..end]
}

// Bytes written over a slice from a place on.
pub fn copy_at(d: &mut [u8], at: usize, s: &[u8])
    requires { at + length s.now ≤ length d.old }
    ensures { d.new ≡ over d.old at s.now }
{
    for (i, b) in s.iter().enumerate() {
        d[at + i] = *b;
    }
}

// Both tests are made, whatever the first says: `&&` would leave the second out.
pub fn both(a: bool, b: bool) -> bool
    ensures { result ≡ (a && b) }
{
    a & b
}

// Whether two slices of one length are equal. Every byte is looked at.
pub fn equal(a: &[u8], b: &[u8]) -> bool
    requires { length a.now ≡ length b.now }
    ensures { result ≡ same a.now b.now }
{
    a.iter().zip(b).fold(true, |r, (x, y)| both(r, x == y))
}

// Two bytes as a number, the high one first.
pub fn word(high: u8, low: u8) -> u16
    ensures { result ≡ high * 256 + low }
{
    u16::from_be_bytes([high, low])
}
