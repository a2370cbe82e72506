//! CBC in place over the whole blocks of a lent buffer, with what its cipher steps add to the counts and the work sum.
#![tactic(auto)]

ghost use Rattle.std.specs.Prelude.{◌≡◌, true, ◌/◌, ◌<◌, length};
ghost use Rattle.key_expansion.specs.KeyLength.{is_key_length};
ghost use Rattle.key_expansion.specs.Schedule.{fifteen};
ghost use Rattle.aes.specs.Aes.{aes_under, inv_aes_under, cipher_by, inv_cipher_by};
ghost use Rattle.work.specs.Steps.{encipherment, decipherment, mixed, mixed_all};
ghost use Rattle.work.specs.Weights.{mixed_prepared};
ghost use Rattle.cbc.specs.Cbc.{encrypted_whole, decrypted_whole};
ghost use Rattle.cbc.specs.Steps.{enciphered, deciphered, made};
ghost use Rattle.cbc.specs.Chain.{whole};
ghost use Rattle.cbc.specs.Ways.{kind_of, cipher_of, input_of, out, next, steps_of};

use sbox::{InvSBox, SBox};
use work::{Kind, Made, Prepared};

// The two ways, each with the byte table that its cipher uses.
#[derive(Drop)]
enum Way {
    Encipher(SBox),
    Decipher(InvSBox),
}

// What one block gives: the block made of it, the block that the next one is chained to, and the work sum.
#[derive(Clone, Copy)]
struct Turned {
    block: [u8; 16],
    chained: [u8; 16],
    sum: u32,
}

// One block after the block before it. The key is only what the work sum shows, and prepared for that.
fn turn(
    way: &Way,
    key: Prepared,
    w: &[[u8; 16]],
    before: [u8; 16],
    block: [u8; 16],
    sum: u32,
) -> Turned
    requires { 1 < length w.now }
    ensures { (result.block ≡ out way.now w.now before block) × (result.chained ≡ next way.now w.now before block) × (result.sum ≡ mixed_all (mixed_all (mixed_prepared (mixed sum (kind_of way.now)) key) (input_of way.now before block)) (cipher_of way.now w.now (input_of way.now before block))) }
{
    match way {
        Way::Encipher(table) => {
            let input = rounds::xor_block(block, before);
            let output = aes::encipher(table, w, input);
            Turned {
                block: output,
                chained: output,
                sum: work::mix_cipher(sum, Kind::Encipherment.number(), key, input, output),
            }
        }
        Way::Decipher(table) => {
            let output = aes::decipher(table, w, block);
            let plain = rounds::xor_block(output, before);
            Turned {
                block: plain,
                chained: block,
                sum: work::mix_cipher(sum, Kind::Decipherment.number(), key, block, output),
            }
        }
    }
}

// CBC of the whole blocks of the text, in place. What is after them stays.
fn chain(
    way: &Way,
    key: &[u8],
    w: &[[u8; 16]],
    start: [u8; 16],
    text: &mut [u8],
    sum: u32,
) -> Made<()>
    requires { 1 < length w.now }
    ensures { (result ≡ made (kind_of way.now) sum (steps_of way.now key.now w.now start (length text.old / 16) text.old)) × (text.new ≡ whole (out way.now w.now) (next way.now w.now) start text.old) }
{
    let blocks = text.len() / 16;
    let shown = work::prepare(key);
    let mut chained = start;
    let mut after = sum;
    for n in 0..blocks {
        let at = 16 * n;
        let block = octets::block_at(text, at);
        let step = turn(way, shown, w, chained, block, after);
        let made = step.block;
        octets::copy_at(text, at, &made);
        chained = step.chained;
        after = step.sum;
    }
    Made {
        value: (),
        count: blocks,
        sum: after,
    }
}

// CBC encryption of the whole blocks of the text, in place. What is after them stays.
pub fn encipher(key: &[u8], w: &[[u8; 16]], start: [u8; 16], text: &mut [u8], sum: u32) -> Made<()>
    requires { 1 < length w.now }
    ensures { (result ≡ made encipherment sum (enciphered key.now (cipher_by w.now) start (length text.old / 16) text.old)) × (text.new ≡ encrypted_whole (cipher_by w.now) start text.old) }
{
    let table = sbox::byte_table();
    chain(&Way::Encipher(table), key, w, start, text, sum)
}

// CBC decryption of the whole blocks of the text, in place. What is after them stays.
pub fn decipher(key: &[u8], w: &[[u8; 16]], start: [u8; 16], text: &mut [u8], sum: u32) -> Made<()>
    requires { 1 < length w.now }
    ensures { (result ≡ made decipherment sum (deciphered key.now (inv_cipher_by w.now) (length text.old / 16) text.old)) × (text.new ≡ decrypted_whole (inv_cipher_by w.now) start text.old) }
{
    let table = sbox::inv_byte_table();
    chain(&Way::Decipher(table), key, w, start, text, sum)
}

// The same under a key of 16, 24 or 32 bytes, with the rows that its expansion returned: the round keys, and zeros behind them.
pub fn encipher_under(
    key: &[u8],
    rows: &[[u8; 16]],
    start: [u8; 16],
    text: &mut [u8],
    sum: u32,
) -> Made<()>
    requires { (is_key_length (length key.now) ≡ true) × (rows.now ≡ fifteen (length key.now / 4) key.now) }
    ensures { (result ≡ made encipherment sum (enciphered key.now (aes_under key.now) start (length text.old / 16) text.old)) × (text.new ≡ encrypted_whole (aes_under key.now) start text.old) }
{
    let n = key.len() / 4 + 7;
    encipher(key, &rows[..n], start, text, sum)
}

pub fn decipher_under(
    key: &[u8],
    rows: &[[u8; 16]],
    start: [u8; 16],
    text: &mut [u8],
    sum: u32,
) -> Made<()>
    requires { (is_key_length (length key.now) ≡ true) × (rows.now ≡ fifteen (length key.now / 4) key.now) }
    ensures { (result ≡ made decipherment sum (deciphered key.now (inv_aes_under key.now) (length text.old / 16) text.old)) × (text.new ≡ decrypted_whole (inv_aes_under key.now) start text.old) }
{
    let count = key.len() / 4 + 7;
    decipher(key, &rows[..count], start, text, sum)
}
