//! FIPS 180-4: sums of 32-bit words, and the six functions of SHA-256.
#![tactic(auto)]

ghost use Rattle.std.specs.Prelude.{◌≡◌};
ghost use Rattle.sha_words.specs.Words.{plus};
ghost use Rattle.sha_words.specs.Functions.{ch, maj, upper_sigma0, upper_sigma1, sigma0, sigma1};

// Addition modulo 2^32.
pub fn add(a: u32, b: u32) -> u32
    ensures { result ≡ plus a b }
{
    a.wrapping_add(b)
}

// The six functions of section 4.1.2, in forms that take fewer instructions: a rotation of a sum is the sum of the
// rotations. Each pair of sigmas differs in constants alone. FIPS 180-4 gives each a name and a number of its own, so
// each is a function: one over three constants is no plainer than these bodies of one line.
pub fn upper_sigma0(x: u32) -> u32
    ensures { result ≡ upper_sigma0 x }
{
    ((x.rotate_right(9) ^ x).rotate_right(11) ^ x).rotate_right(2)
}

pub fn upper_sigma1(x: u32) -> u32
    ensures { result ≡ upper_sigma1 x }
{
    ((x.rotate_right(14) ^ x).rotate_right(5) ^ x).rotate_right(6)
}

pub fn lower_sigma0(x: u32) -> u32
    ensures { result ≡ sigma0 x }
{
    (x.rotate_right(11) ^ x).rotate_right(7) ^ (x >> 3)
}

pub fn lower_sigma1(x: u32) -> u32
    ensures { result ≡ sigma1 x }
{
    (x.rotate_right(2) ^ x).rotate_right(17) ^ (x >> 10)
}

pub fn choose(x: u32, y: u32, z: u32) -> u32
    ensures { result ≡ ch x y z }
{
    (x & (y ^ z)) ^ z
}

pub fn majority(x: u32, y: u32, z: u32) -> u32
    ensures { result ≡ maj x y z }
{
    ((x ^ y) & (y ^ z)) ^ y
}
