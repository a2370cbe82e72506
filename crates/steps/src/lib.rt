//! Steps of a command: each function makes one, and returns its result, its count and the work sum together.
#![tactic(auto)]

ghost use Rattle.std.specs.Prelude.{◌≡◌, true, [], ◌∷◌, ◌/◌, length};
ghost use Rattle.work.specs.Steps.{comparison, expansion, hash_block, mixed_all, sum_from, counted};
ghost use Rattle.key_expansion.specs.KeyLength.{is_key_length};
ghost use Rattle.key_expansion.specs.Schedule.{fifteen};
ghost use Rattle.sha_block.specs.Hash.{sha256};
ghost use Rattle.steps.specs.Made.{
  expansion_step,
  hash_steps,
  shown,
  matched,
  comparison_step,
  set_matched,
  set_comparison,
  mode_matched,
  mode_comparison,
  kept,
};

use plaid_types::{KeySetId, OpModeId};
use sbox::SBox;
use work::{Kind, Made};

// Expands a key: its round keys. The work sum has the round keys alone, not the zeros after them.
pub fn expand(table: &SBox, key: &[u8], sum: u32) -> Made<[[u8; 16]; 15]>
    requires { is_key_length (length key.now) ≡ true }
    ensures { result ≡ record { value = fifteen (length key.now / 4) key.now; count = counted expansion (expansion_step key.now ∷ []); sum = sum_from sum (expansion_step key.now ∷ []) } }
{
    let rows = key_expansion::expand(table, key);
    let n = key.len() / 4 + 7;
    let a = work::mix(sum, Kind::Expansion.number());
    let b = work::mix_all(a, key);
    let c = work::mix_rows(b, &rows[..n]);
    let count = 1;
    Made {
        value: rows,
        count,
        sum: c,
    }
}

// Hashes a message, block by block.
pub fn hash(m: &[u8], sum: u32) -> Made<[u8; 32]>
    ensures { result ≡ record { value = sha256 m.now; count = counted hash_block (hash_steps m.now); sum = sum_from sum (hash_steps m.now) } }
{
    let n = sha_padding::block_count(m);
    let mut h = sha256::initial();
    let mut s = sum;
    for i in 0..n {
        let b = sha_padding::padded_block(m, i);
        let x = sha_block::compress(h, &b);
        let o = sha256::to_bytes(x);
        s = work::mix_step(s, Kind::HashBlock.number(), &[], &b, &o);
        h = x;
    }
    Made {
        value: sha256::to_bytes(h),
        count: n,
        sum: s,
    }
}

// The bytes of a value, none for one that is missing or empty.
fn mix_shown(s: u32, present: bool, v: u16) -> u32
    ensures { result ≡ mixed_all s (shown present v) }
{
    if present { work::mix_two(s, v) } else { s }
}

fn matches(present: bool, v: u16, held: bool, w: u16) -> bool
    ensures { result ≡ matched present v held w }
{
    present && held && v == w
}

// Compares a value, which may be missing, with a slot's, which may be empty.
fn compare(present: bool, v: u16, held: bool, w: u16, sum: u32) -> Made<bool>
    ensures { result ≡ record { value = matched present v held w; count = counted comparison (comparison_step present v held w ∷ []); sum = sum_from sum (comparison_step present v held w ∷ []) } }
{
    let hit = matches(present, v, held, w);
    let a = work::mix(sum, Kind::Comparison.number());
    let b = mix_shown(a, present, v);
    let c = mix_shown(b, held, w);
    let d = work::mix(c, u8::from(hit));
    Made {
        value: hit,
        count: 1,
        sum: d,
    }
}

// A place's KeySetID, which may be missing, and a key set slot's.
pub fn compare_sets(present: bool, v: KeySetId, held: bool, w: KeySetId, sum: u32) -> Made<bool>
    ensures { result ≡ record { value = set_matched present v held w; count = counted comparison (set_comparison present v held w ∷ []); sum = sum_from sum (set_comparison present v held w ∷ []) } }
{
    compare(present, v.0, held, w.0, sum)
}

// A text's OpModeID and a mode slot's.
pub fn compare_modes(v: OpModeId, held: bool, w: OpModeId, sum: u32) -> Made<bool>
    ensures { result ≡ record { value = mode_matched v held w; count = counted comparison (mode_comparison v held w ∷ []); sum = sum_from sum (mode_comparison v held w ∷ []) } }
{
    compare(true, v.0, held, w.0, sum)
}

// The first hit: at where there was one already, else i where this is one, else n.
pub fn keep(n: usize, at: usize, i: usize, hit: bool) -> usize
    ensures { result ≡ kept n at i hit }
{
    if at == n { if hit { i } else { n } } else { at }
}
