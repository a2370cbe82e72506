//! FIPS 180-4: the blocks of the padded message.
#![tactic(auto)]

ghost use Rattle.std.specs.Prelude.{◌≡◌, ◌*◌, ◌/◌, ◌≤◌, length, get_or, replicate};
ghost use Rattle.octets.specs.Lists.{over};
ghost use Rattle.octets.specs.Filled.{Filled};
ghost use Rattle.sha_padding.specs.Padding.{be64};
ghost use Rattle.sha_padding.specs.Parsing.{blocks, block_at};

// How many blocks the padded message has.
pub fn block_count(m: &[u8]) -> usize
    ensures { result ≡ blocks m.now }
{
    let n = m.len();
    n / 64 + 1 + (n % 64 + 8) / 64
}

// The length in bits of n bytes, modulo 2^64, written over the last eight bytes of a block.
fn put_length(b: [u8; 64], n: usize) -> [u8; 64]
    ensures { result ≡ over b 56 (be64 (8 * n)) }
{
    let length = n.wrapping_mul(8).to_be_bytes();
    let mut t = b;
    for i in 0..8 {
        t[56 + i] = length[i];
    }
    t
}

// A part of the message, and zeros after it.
fn front(part: &[u8]) -> [u8; 64]
    requires { length part.now ≤ 64 }
    ensures { Filled (λ j. get_or part.now j 0) (replicate 64 0) result (length part.now) }
{
    let mut b = [0u8; 64];
    octets::copy_at(&mut b, 0, part);
    b
}

// The block in which the message ends: what is left of it, the byte 0x80, and the length if eight bytes are free
// after that.
fn ending(m: &[u8]) -> [u8; 64]
    ensures { result ≡ block_at m.now (length m.now / 64) }
{
    let n = m.len();
    let rest = n % 64;
    let mut b = front(&m[n - rest..]);
    b[rest] = 0x80;
    if rest + 8 < 64 {
        return put_length(b, n);
    }
    b
}

// Block i of the padded message; zeros past the last.
pub fn padded_block(m: &[u8], i: usize) -> [u8; 64]
    ensures { result ≡ block_at m.now i }
{
    let n = m.len();
    if i < n / 64 {
        return front(&m[64 * i..64 * i + 64]);
    }
    if i == n / 64 {
        return ending(m);
    }
    let zeros = [0u8; 64];
    if i < block_count(m) {
        return put_length(zeros, n);
    }
    zeros
}
