//! Key expansion of FIPS 197, section 5.2, for keys of 16, 24 and 32 bytes.
#![tactic(auto)]

ghost use Rattle.std.specs.Prelude.{◌≡◌, true, ◌+◌, ◌*◌, ◌/◌, ◌<◌, ◌≤◌, length, get_or};
ghost use Rattle.std.specs.Int.Bits.{bit_xor};
ghost use Rattle.column.specs.Word.{word, byte_at};
ghost use Rattle.key_expansion.specs.KeyLength.{is_key_length};
ghost use Rattle.key_expansion.specs.Schedule.{bytes_in, temp_at, place, Next, straddled, source_of, row_of, earlier_of, first_row, constant_after, fifteen};

use rounds::Columns;
use sbox::SBox;

// Whether a key of n bytes is AES's.
#[tactic(auto, unfolding(crate::specs::KeyLength::is_key_length))]
pub fn is_key_length(n: usize) -> bool
    ensures { result ≡ is_key_length n }
{
    matches!(n, 16 | 24 | 32)
}

// SUBWORD(ROTWORD(w)) ⊕ Rcon, by the table that is lent, where x is the first byte of Rcon.
fn rot_sub(table: &[u8; 256], w: u32, x: u8) -> u32
    ensures { result ≡ word (bit_xor (get_or table.now (byte_at w 1) 0) x) (get_or table.now (byte_at w 2) 0) (get_or table.now (byte_at w 3) 0) (get_or table.now (byte_at w 0) 0) }
{
    let b = w.to_le_bytes();
    column::word(
        table[usize::from(b[1])] ^ x,
        table[usize::from(b[2])],
        table[usize::from(b[3])],
        table[usize::from(b[0])],
    )
}

// What is added to a word at place j of its Nk, where t is the word before it and x the first byte of Rcon.
fn temp(table: &SBox, nk: usize, j: usize, t: u32, x: u8) -> u32
    ensures { bytes_in result ≡ temp_at nk j x (bytes_in t) }
{
    if j == 0 {
        return rot_sub(&table.entries, t, x);
    }
    if 6 < nk {
        if j == 4 {
            return rounds::looked_up(&table.entries, t, t, t, t);
        }
    }
    t
}

// The place after the last of Nk is the first.
fn place(nk: usize, j: usize) -> usize
    ensures { result ≡ place nk j }
{
    if j < nk { j } else { j - nk }
}

// Four words, from those that stand Nk before them and the last word. The first stands at place j, an even one, so the second and the
// fourth take the word before them as it is.
fn next_four(table: &SBox, nk: usize, j: usize, from: Columns, last: u32, x: u8) -> Columns
    requires { (j < nk) × (nk ≤ 8) }
    ensures { Next nk j x from last result }
{
    let a = from.c0 ^ temp(table, nk, j, last, x);
    let b = from.c1 ^ a;
    let c = from.c2 ^ temp(table, nk, place(nk, j + 2), b, x);
    Columns {
        c0: a,
        c1: b,
        c2: c,
        c3: from.c3 ^ c,
    }
}

// The last two words of a and the first two of b.
fn straddling(a: Columns, b: Columns) -> Columns
    ensures { result ≡ straddled a b }
{
    Columns {
        c0: a.c2,
        c1: a.c3,
        c2: b.c0,
        c3: b.c1,
    }
}

// Of the last eight words, the four that are Nk before the next four.
fn source(nk: usize, older: Columns, newer: Columns) -> Columns
    ensures { result ≡ source_of nk older newer }
{
    match nk {
        4 => newer,
        6 => straddling(older, newer),
        _ => older,
    }
}

// Before the first four words that are made come the key's last four, and older ones as far as they are needed.
fn earlier(nk: usize, first: Columns) -> Columns
    ensures { result ≡ earlier_of nk first }
{
    if nk == 6 {
        return straddling(first, first);
    }
    first
}

// The first row that is not the key's alone.
fn first_row(nk: usize) -> usize
    ensures { result ≡ first_row nk }
{
    if nk == 8 { 2 } else { 1 }
}

// The round key that the next four words complete.
fn row(nk: usize, newer: Columns, next: Columns) -> Columns
    ensures { result ≡ row_of nk newer next }
{
    if nk == 6 {
        return straddling(newer, next);
    }
    next
}

// The first byte of Rcon for the next four words: another one where this was used.
fn constant_after(nk: usize, j: usize, x: u8) -> u8
    requires { (j < nk) × (nk ≤ 8) }
    ensures { result ≡ constant_after nk j x }
{
    if j == 0 || nk < j + 4 {
        return field::x_times(x);
    }
    x
}

// What a turn of the expansion makes: four words and the round key that they complete; then the next place, and the next Rcon.
#[derive(Clone, Copy)]
struct Made {
    next: Columns,
    row: Columns,
    j: usize,
    x: u8,
}

fn turn(table: &SBox, nk: usize, j: usize, older: Columns, newer: Columns, x: u8) -> Made
    requires { (j < nk) × (nk ≤ 8) }
    ensures { Next nk j x (source_of nk older newer) newer.c3 result.next × (result.row ≡ row_of nk newer result.next) × (result.j ≡ place nk (j + 4)) × (result.x ≡ constant_after nk j x) }
{
    let next = next_four(table, nk, j, source(nk, older, newer), newer.c3, x);
    Made {
        next: next,
        row: row(nk, newer, next),
        j: place(nk, j + 4),
        x: constant_after(nk, j, x),
    }
}

// A key of four words is one row, and so is all that a turn looks back on. Apart from `long_rows` for speed: where Nk is a constant,
// the compiler leaves out the tests on it (docs/DECISIONS.md has the figures).
fn short_rows(table: &SBox, key: [u8; 16]) -> [[u8; 16]; 15]
    ensures { result ≡ fifteen 4 key }
{
    let mut w = [[0u8; 16]; 15];
    w[0] = key;
    let mut newer = rounds::columns_of(key);
    let mut x: u8 = 1;
    for i in 1..11 {
        let t = turn(table, 4, 0, newer, newer, x);
        w[i] = rounds::bytes_of(t.row);
        newer = t.next;
        x = t.x;
    }
    w
}

// A longer key is two rows, of which the first may be a half.
fn long_rows(table: &SBox, nk: usize, key: &[u8]) -> [[u8; 16]; 15]
    requires { (is_key_length (4 * nk) ≡ true) × (4 < nk) × (length key.now ≡ 4 * nk) }
    ensures { result ≡ fifteen nk key.now }
{
    let mut w = [[0u8; 16]; 15];
    let first = octets::block_at(key, 0);
    let end = octets::block_at(key, 4 * nk - 16);
    w[0] = first;
    w[1] = end;
    let mut older = earlier(nk, rounds::columns_of(first));
    let mut newer = rounds::columns_of(end);
    let mut x: u8 = 1;
    let mut j: usize = 0;
    for i in first_row(nk)..nk + 7 {
        let t = turn(table, nk, j, older, newer, x);
        w[i] = rounds::bytes_of(t.row);
        older = newer;
        newer = t.next;
        j = t.j;
        x = t.x;
    }
    w
}

// KEYEXPANSION: the Nr + 1 round keys, one a row, and zeros behind them; by the byte table that is lent.
pub fn expand(table: &SBox, key: &[u8]) -> [[u8; 16]; 15]
    requires { is_key_length (length key.now) ≡ true }
    ensures { result ≡ fifteen (length key.now / 4) key.now }
{
    if key.len() == 16 {
        return short_rows(table, octets::block_at(key, 0));
    }
    long_rows(table, key.len() / 4, key)
}
