//! The steps of a round of FIPS 197, sections 5.1 and 5.3, on a state of four words by value (T-03).
#![tactic(auto)]

ghost use Rattle.std.specs.Prelude.{◌≡◌, get_or};
ghost use Rattle.octets.specs.Bytes.{block_xor};
ghost use Rattle.column.specs.Word.{word, byte_at};
ghost use Rattle.rounds.specs.Columns.{state_of};
ghost use Rattle.rounds.specs.Cipher.{sub_bytes, shift_rows, mix_columns, add_round_key, round, last_round};
ghost use Rattle.rounds.specs.InvCipher.{inv_sub_bytes, inv_shift_rows, inv_mix_columns, inv_round, inv_last_round};

use sbox::{InvSBox, SBox};

// The columns of a state, from the first. The state that they mean is `state_of`. Four fields and not `[u32; 4]`: a field needs no
// proof of an index, and `s.c1` is no longer than `s[1]`.
#[derive(Clone, Copy)]
pub struct Columns {
    pub c0: u32,
    pub c1: u32,
    pub c2: u32,
    pub c3: u32,
}

// A block, or a round key, as words.
pub fn columns_of(s: [u8; 16]) -> Columns
    ensures { state_of result ≡ s }
{
    Columns {
        c0: column::word_at(s, 0),
        c1: column::word_at(s, 4),
        c2: column::word_at(s, 8),
        c3: column::word_at(s, 12),
    }
}

// The bytes that four words mean.
pub fn bytes_of(s: Columns) -> [u8; 16]
    ensures { result ≡ state_of s }
{
    let one = column::put([0u8; 16], 0, s.c0);
    let two = column::put(one, 4, s.c1);
    let three = column::put(two, 8, s.c2);
    column::put(three, 12, s.c3)
}

// MIXCOLUMNS. It is no twin of `inv_mix_columns`: they call two functions, and the four calls are plainer than a closure over them.
pub fn mix_columns(s: Columns) -> Columns
    ensures { state_of result ≡ mix_columns (state_of s) }
{
    Columns {
        c0: column::mix(s.c0),
        c1: column::mix(s.c1),
        c2: column::mix(s.c2),
        c3: column::mix(s.c3),
    }
}

// INVMIXCOLUMNS.
pub fn inv_mix_columns(s: Columns) -> Columns
    ensures { state_of result ≡ inv_mix_columns (state_of s) }
{
    Columns {
        c0: column::inv_mix(s.c0),
        c1: column::inv_mix(s.c1),
        c2: column::inv_mix(s.c2),
        c3: column::inv_mix(s.c3),
    }
}

// ADDROUNDKEY: the round key is a row of sixteen bytes.
pub fn add_round_key(s: Columns, key: [u8; 16]) -> Columns
    ensures { state_of result ≡ add_round_key (state_of s) key }
{
    let k = columns_of(key);
    Columns {
        c0: s.c0 ^ k.c0,
        c1: s.c1 ^ k.c1,
        c2: s.c2 ^ k.c2,
        c3: s.c3 ^ k.c3,
    }
}

// The exclusive or of two blocks of bytes, by words too.
pub fn xor_block(a: [u8; 16], b: [u8; 16]) -> [u8; 16]
    ensures { result ≡ block_xor a b }
{
    let words = columns_of(a);
    let sum = add_round_key(words, b);
    bytes_of(sum)
}

// The column whose byte i is the table's entry for byte i of the i-th word.
pub fn looked_up(table: &[u8; 256], a: u32, b: u32, c: u32, d: u32) -> u32
    ensures { result ≡ word (get_or table.now (byte_at a 0) 0) (get_or table.now (byte_at b 1) 0) (get_or table.now (byte_at c 2) 0) (get_or table.now (byte_at d 3) 0) }
{
    column::word(
        table[usize::from(a.to_le_bytes()[0])],
        table[usize::from(b.to_le_bytes()[1])],
        table[usize::from(c.to_le_bytes()[2])],
        table[usize::from(d.to_le_bytes()[3])],
    )
}

// SUBBYTES and SHIFTROWS: row r of a column comes from the r-th column behind it.
fn sub_shift(table: &SBox, s: Columns) -> Columns
    ensures { state_of result ≡ shift_rows (sub_bytes (state_of s)) }
{
    Columns {
        c0: looked_up(&table.entries, s.c0, s.c1, s.c2, s.c3),
        c1: looked_up(&table.entries, s.c1, s.c2, s.c3, s.c0),
        c2: looked_up(&table.entries, s.c2, s.c3, s.c0, s.c1),
        c3: looked_up(&table.entries, s.c3, s.c0, s.c1, s.c2),
    }
}

// INVSHIFTROWS and INVSUBBYTES: from the r-th column before it.
fn inv_shift_sub(table: &InvSBox, s: Columns) -> Columns
    ensures { state_of result ≡ inv_sub_bytes (inv_shift_rows (state_of s)) }
{
    Columns {
        c0: looked_up(&table.entries, s.c0, s.c3, s.c2, s.c1),
        c1: looked_up(&table.entries, s.c1, s.c0, s.c3, s.c2),
        c2: looked_up(&table.entries, s.c2, s.c1, s.c0, s.c3),
        c3: looked_up(&table.entries, s.c3, s.c2, s.c1, s.c0),
    }
}

// One round, with the byte table that is lent.
pub fn round(table: &SBox, s: Columns, key: [u8; 16]) -> Columns
    ensures { state_of result ≡ round (state_of s) key }
{
    let shifted = sub_shift(table, s);
    let mixed = mix_columns(shifted);
    add_round_key(mixed, key)
}

pub fn last_round(table: &SBox, s: Columns, key: [u8; 16]) -> Columns
    ensures { state_of result ≡ last_round (state_of s) key }
{
    let shifted = sub_shift(table, s);
    add_round_key(shifted, key)
}

pub fn inv_round(table: &InvSBox, s: Columns, key: [u8; 16]) -> Columns
    ensures { state_of result ≡ inv_round (state_of s) key }
{
    let restored = inv_shift_sub(table, s);
    let added = add_round_key(restored, key);
    inv_mix_columns(added)
}

pub fn inv_last_round(table: &InvSBox, s: Columns, key: [u8; 16]) -> Columns
    ensures { state_of result ≡ inv_last_round (state_of s) key }
{
    let restored = inv_shift_sub(table, s);
    add_round_key(restored, key)
}
