#![tactic(auto)]

// Runs a text under a key of AES and compares the result with the one wanted; counts what the runs gave.
//
// CBC takes its start block as an argument: a vector's IV is run by passing it there.
mod tally;

ghost use Rattle.std.specs.Prelude.{◌≡◌, ◌<◌, true, length};
ghost use Rattle.key_expansion.specs.KeyLength.{is_key_length};

pub use rsp::Ran;
use sbox::{InvSBox, SBox};
pub use tally::Tally;

#[derive(Clone, Copy, Debug, PartialEq, Eq)]
pub enum Direction {
    Encipher,
    Decipher,
}

// How a text is run: each block by itself (ECB) or chained (CBC), and in which direction.
#[derive(Clone, Copy)]
pub struct Mode {
    pub is_chained: bool,
    pub direction: Direction,
}

fn one_block(
    table: &SBox,
    inverse: &InvSBox,
    w: &[[u8; 16]],
    b: [u8; 16],
    direction: Direction,
) -> [u8; 16]
    requires { 1 < length w.now }
{
    match direction {
        Direction::Encipher => aes::encipher(table, w, b),
        Direction::Decipher => aes::decipher(inverse, w, b),
    }
}

// ECB: each whole block by itself.
fn each_block(w: &[[u8; 16]], text: &mut [u8], direction: Direction)
    requires { 1 < length w.now }
{
    let table = sbox::byte_table();
    let inverse = sbox::inv_byte_table();
    for block in text.chunks_exact_mut(16) {
        let b = one_block(&table, &inverse, w, octets::block_at(block, 0), direction);
        block.copy_from_slice(&b);
    }
}

fn apply(mode: Mode, key: &[u8], start: [u8; 16], text: &mut [u8])
    requires { is_key_length (length key.now) ≡ true }
{
    let rows = key_expansion::expand(&sbox::byte_table(), key);
    let n = key.len() / 4 + 7;
    let w = &rows[..n];
    if !mode.is_chained {
        each_block(w, text, mode.direction);
        return;
    }
    match mode.direction {
        Direction::Encipher => cbc::encipher(key, w, start, text, 0),
        Direction::Decipher => cbc::decipher(key, w, start, text, 0),
    };
}

// Runs the first n bytes of `text` under the first k of `key`, and compares them with those of `wanted`.
pub fn run_text(
    mode: Mode,
    key: [u8; 32],
    k: usize,
    start: [u8; 16],
    text: &mut [u8],
    wanted: &[u8],
    n: usize,
) -> Ran {
    if !key_expansion::is_key_length(k) {
        return Ran::Unread;
    }
    if text.len() < n || wanted.len() < n {
        return Ran::Unread;
    }
    apply(mode, &key[..k], start, &mut text[..n]);
    Ran::compared(&text[..n], &wanted[..n])
}
