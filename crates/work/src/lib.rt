#![tactic(auto)]

// The work sum over a command's steps.
ghost use Rattle.std.specs.Prelude.{◌≡◌, ◌/◌, ◌%◌, ◌^◌, ◌<◌, length};
ghost use mathlib.Core.List.{flatten};
ghost use Rattle.work.specs.Steps.{number_of_kind, bytes_of, mixed, mixed_all};
ghost use Rattle.work.specs.Weights.{weight, prepared_of, mixed_prepared};

// What steps gave, how many there were, and the work sum after them.
#[derive(Clone, Copy)]
pub struct Made<T> {
    pub value: T,
    pub count: usize,
    pub sum: u32,
}

// The kinds of steps, with their numbers in the work sum.
#[derive(Clone, Copy, Debug, PartialEq, Eq)]
pub enum Kind {
    Comparison = 1,
    Decipherment = 2,
    Encipherment = 3,
    Expansion = 4,
    HashBlock = 5,
}

impl Kind {
    pub fn number(self) -> u8
        ensures { result ≡ number_of_kind self }
    {
        self as u8
    }
}

// One byte into the sum. The product fits 64 bits, and is then taken modulo 2^32.
pub fn mix(s: u32, b: u8) -> u32
    ensures { result ≡ mixed s b }
{
    ((257 * u64::from(s) + u64::from(b) + 1) % 0x1_0000_0000) as u32
}

// The two bytes of a number, the high one first, at once.
pub fn mix_two(s: u32, v: u16) -> u32
    ensures { result ≡ mixed (mixed s (v / 256)) (v % 256) }
{
    ((66049 * u64::from(s) + u64::from(v) + u64::from(v / 256) + 258) % 0x1_0000_0000) as u32
}

// The weights of sixteen bytes, 257^15 to 257^0, modulo 2^32.
const WEIGHTS: [u64; 16] = [
    3345551105, 1817906689, 508431617, 3695315969, 2771847937, 2016217601, 1411647745, 941361153,
    588580609, 336528897, 168428801, 67503105, 16974593, 66049, 257, 1,
];

// Sixteen bytes at once, by their weights: s has 257^16, and 506492944 is the sixteen ones, weighed. Unrolled, a weight is an operand.
pub fn mix_block(s: u32, b: [u8; 16]) -> u32
    ensures { result ≡ mixed_all s b }
{
    let mut sum = 813174785 * u64::from(s) + 506492944;
    for (i, x) in b.iter().enumerate() {
        sum += WEIGHTS[i] * u64::from(*x);
    }
    (sum % 0x1_0000_0000) as u32
}

// Rows one after the other, as an expansion's output.
pub fn mix_rows(s: u32, rows: &[[u8; 16]]) -> u32
    requires { length rows.now < 2 ^ 32 }
    ensures { result ≡ mixed_all s (flatten rows.now) }
{
    let mut sum = s;
    // In 32 bits: a `for` over the slice counts in 64, which takes 10 % longer on a Cortex-M4.
    for row in 0..rows.len() as u32 {
        sum = mix_block(sum, rows[row as usize]);
    }
    sum
}

fn mix_each(s: u32, bytes: &[u8]) -> u32
    ensures { result ≡ mixed_all s bytes.now }
{
    let mut sum = s;
    for b in bytes {
        sum = mix(sum, *b);
    }
    sum
}

// Sixteens first, then the rest.
pub fn mix_all(s: u32, bytes: &[u8]) -> u32
    ensures { result ≡ mixed_all s bytes.now }
{
    let (blocks, rest) = bytes.as_chunks::<16>();
    let mut sum = s;
    for block in blocks {
        sum = mix_block(sum, *block);
    }
    mix_each(sum, rest)
}

// One step: its kind, key, input and output, in this order.
pub fn mix_step(s: u32, kind: u8, key: &[u8], input: &[u8], output: &[u8]) -> u32
    ensures { result ≡ mixed_all s (bytes_of (record { kind = kind; key = key.now; input = input.now; output = output.now })) }
{
    let after_kind = mix(s, kind);
    let after_key = mix_all(after_kind, key);
    let after_input = mix_all(after_key, input);
    mix_all(after_input, output)
}

// What mixing a list does to any sum: weight times the sum, and rest. For a key, which every step of a run shows.
#[derive(Clone, Copy)]
pub struct Prepared {
    pub weight: u32,
    pub rest: u32,
}

// 257^n modulo 2^32. That of sixteen bytes, the shortest key, is written out.
fn weight_of(n: usize) -> u32
    ensures { result ≡ weight n }
{
    if n == 16 {
        return 813174785;
    }
    let mut w: u32 = 1;
    for _ in 0..n {
        w = ((257 * u64::from(w)) % 0x1_0000_0000) as u32;
    }
    w
}

pub fn prepare(bytes: &[u8]) -> Prepared
    ensures { result ≡ prepared_of bytes.now }
{
    Prepared {
        weight: weight_of(bytes.len()),
        rest: mix_all(0, bytes),
    }
}

fn mix_prepared(s: u32, l: Prepared) -> u32
    ensures { result ≡ mixed_prepared s l }
{
    ((u64::from(l.weight) * u64::from(s) + u64::from(l.rest)) % 0x1_0000_0000) as u32
}

// One step of a cipher, with its key prepared.
pub fn mix_cipher(s: u32, kind: u8, key: Prepared, input: [u8; 16], output: [u8; 16]) -> u32
    ensures { result ≡ mixed_all (mixed_all (mixed_prepared (mixed s kind) key) input) output }
{
    let after_kind = mix(s, kind);
    let after_key = mix_prepared(after_kind, key);
    let after_input = mix_block(after_key, input);
    mix_block(after_input, output)
}
