//! AES of FIPS 197: one block enciphered or deciphered under the round keys of a key of 16, 24 or 32 bytes.
#![tactic(auto)]

ghost use Rattle.std.specs.Prelude.{◌≡◌, ◌<◌, length};
ghost use Rattle.aes.specs.Aes.{cipher_by, inv_cipher_by};

use sbox::{InvSBox, SBox};

// CIPHER: one block enciphered under Nr + 1 round keys, by the byte table that is lent. It is words from the first round key to the last.
pub fn encipher(table: &SBox, w: &[[u8; 16]], s: [u8; 16]) -> [u8; 16]
    requires { 1 < length w.now }
    ensures { result ≡ cipher_by w.now s }
{
    let last = w.len() - 1;
    let mut t = rounds::add_round_key(rounds::columns_of(s), w[0]);
    for i in 1..last {
        t = rounds::round(table, t, w[i]);
    }
    rounds::bytes_of(rounds::last_round(table, t, w[last]))
}

// INVCIPHER: one block deciphered, with the round keys from the last to the first.
pub fn decipher(table: &InvSBox, w: &[[u8; 16]], s: [u8; 16]) -> [u8; 16]
    requires { 1 < length w.now }
    ensures { result ≡ inv_cipher_by w.now s }
{
    let last = w.len() - 1;
    let mut t = rounds::add_round_key(rounds::columns_of(s), w[last]);
    for i in (1..last).rev() {
        t = rounds::inv_round(table, t, w[i]);
    }
    rounds::bytes_of(rounds::inv_last_round(table, t, w[0]))
}
