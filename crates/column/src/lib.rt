//! A column of the state as a 32-bit word, and the two column mixings on it (T-03).
#![tactic(auto)]

ghost use Rattle.std.specs.Prelude.{◌≡◌, ◌+◌, ◌≤◌, get_or};
ghost use Rattle.field.specs.Field.{x_times};
ghost use Rattle.column.specs.Word.{word, word_of, byte_at, put, word_times};

// Four bytes as a word, the first in the low bits.
pub fn word(a: u8, b: u8, c: u8, d: u8) -> u32
    ensures { result ≡ word a b c d }
{
    u32::from_le_bytes([a, b, c, d])
}

// The word that stands at a place of a block or a round key.
pub fn word_at(s: [u8; 16], at: usize) -> u32
    requires { at + 4 ≤ 16 }
    ensures { result ≡ word (get_or s at 0) (get_or s (at + 1) 0) (get_or s (at + 2) 0) (get_or s (at + 3) 0) }
{
    word(s[at], s[at + 1], s[at + 2], s[at + 3])
}

// The four bytes of a word, written over a block from a place on.
pub fn put(b: [u8; 16], at: usize, w: u32) -> [u8; 16]
    requires { at + 4 ≤ 16 }
    ensures { result ≡ put b at w }
{
    let mut t = b;
    t[at..at + 4].copy_from_slice(&w.to_le_bytes());
    t
}

// Each byte times {02}: a product of a bit and {1b} stays in its byte.
fn times_2(t: u32) -> u32
    ensures { result ≡ word_of (λ i. x_times (byte_at t i)) }
{
    ((t & 0x7f7f7f7f) * 2) ^ (((t / 128) & 0x01010101) * 0x1b)
}

// Each byte times {04}, in one step: for bits 6 and 7, as a number v, it is corrected by v ⊕ 2v, nine times.
fn times_4(t: u32) -> u32
    ensures { result ≡ word_of (λ i. x_times (x_times (byte_at t i))) }
{
    let high = (t / 64) & 0x03030303;
    ((t & 0x3f3f3f3f) * 4) ^ ((high ^ (high * 2)) * 9)
}

// One column of MIXCOLUMNS: {02} • (a ⊕ b) ⊕ b ⊕ (c ⊕ d) in each row.
pub fn mix(t: u32) -> u32
    ensures { result ≡ word_times 2 3 1 1 t }
{
    let next = t.rotate_right(8);
    let pairs = t ^ next;
    times_2(pairs) ^ (next ^ pairs.rotate_right(16))
}

// One column of INVMIXCOLUMNS: its matrix is that of MIXCOLUMNS times ({05} {00} {04} {00}).
pub fn inv_mix(t: u32) -> u32
    ensures { result ≡ word_times 0xe 0xb 0xd 9 t }
{
    let opposite = t.rotate_right(16);
    let four = times_4(t ^ opposite);
    mix(t ^ four)
}
