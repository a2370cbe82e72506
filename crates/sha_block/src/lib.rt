//! FIPS 180-4, section 6.2.2: the schedule and the 64 turns of one block.
#![tactic(auto)]

ghost use Rattle.std.specs.Prelude.{◌≡◌, ◌<◌, take};
ghost use Rattle.sha_padding.specs.Parsing.{block_words};
ghost use Rattle.sha_block.specs.Hash.{next_word, schedule, turn, turns, compressed};

use sha_words::{add, choose, lower_sigma0, lower_sigma1, majority, upper_sigma0, upper_sigma1};

// The constants of FIPS 180-4, section 4.2.2.
const K: [u32; 64] = [
    0x428a2f98, 0x71374491, 0xb5c0fbcf, 0xe9b5dba5, 0x3956c25b, 0x59f111f1, 0x923f82a4, 0xab1c5ed5,
    0xd807aa98, 0x12835b01, 0x243185be, 0x550c7dc3, 0x72be5d74, 0x80deb1fe, 0x9bdc06a7, 0xc19bf174,
    0xe49b69c1, 0xefbe4786, 0x0fc19dc6, 0x240ca1cc, 0x2de92c6f, 0x4a7484aa, 0x5cb0a9dc, 0x76f988da,
    0x983e5152, 0xa831c66d, 0xb00327c8, 0xbf597fc7, 0xc6e00bf3, 0xd5a79147, 0x06ca6351, 0x14292967,
    0x27b70a85, 0x2e1b2138, 0x4d2c6dfc, 0x53380d13, 0x650a7354, 0x766a0abb, 0x81c2c92e, 0x92722c85,
    0xa2bfe8a1, 0xa81a664b, 0xc24b8b70, 0xc76c51a3, 0xd192e819, 0xd6990624, 0xf40e3585, 0x106aa070,
    0x19a4c116, 0x1e376c08, 0x2748774c, 0x34b0bcb5, 0x391c0cb3, 0x4ed8aa4a, 0x5b9cca4f, 0x682e6ff3,
    0x748f82ee, 0x78a5636f, 0x84c87814, 0x8cc70208, 0x90befffa, 0xa4506ceb, 0xbef9a3f7, 0xc67178f2,
];

// One turn of the 64, on a to h.
fn one_turn(v: [u32; 8], k: u32, w: u32) -> [u32; 8]
    ensures { result ≡ turn v k w }
{
    let [a, b, c, d, e, f, g, h] = v;
    let t1 = add(add(add(add(h, upper_sigma1(e)), choose(e, f, g)), k), w);
    let t2 = add(upper_sigma0(a), majority(a, b, c));
    [add(t1, t2), a, b, c, add(d, t1), e, f, g]
}

// The block's sixteen big-endian words, with room for the rest of the schedule.
fn load(b: &[u8; 64]) -> [u32; 64]
    ensures { take 16 result ≡ block_words b.now }
{
    let mut w = [0u32; 64];
    for i in 0..16 {
        let j = 4 * i;
        w[i] = u32::from_be_bytes([b[j], b[j + 1], b[j + 2], b[j + 3]]);
    }
    w
}

// The word that follows n + 16 of the schedule.
fn next_word(w: &[u32; 64], n: usize) -> u32
    requires { n < 48 }
    ensures { result ≡ next_word w.now n }
{
    add(
        add(
            add(lower_sigma1(w[n + 14]), w[n + 9]),
            lower_sigma0(w[n + 1]),
        ),
        w[n],
    )
}

// The message schedule, all 64 words. The compiler unrolls the inner loop: one loop over 48 words takes some 150
// instructions a block more.
fn full_schedule(b: &[u8; 64]) -> [u32; 64]
    ensures { result ≡ schedule (block_words b.now) 48 }
{
    let mut w = load(b);
    for i in 0..6 {
        for j in 0..8 {
            let n = 8 * i + j;
            w[n + 16] = next_word(&w, n);
        }
    }
    w
}

// The 64 turns. The constants are copied once, not once a turn. The compiler unrolls the inner loop, so that a to h
// move once in eight turns: one loop over 64 turns takes some 1,000 instructions a block more.
fn all_turns(w: [u32; 64], h: [u32; 8]) -> [u32; 8]
    ensures { result ≡ turns w h 64 }
{
    let k = K;
    let mut v = h;
    for n in 0..8 {
        for j in 0..8 {
            let i = 8 * n + j;
            let next = one_turn(v, k[i], w[i]);
            v = next;
        }
    }
    v
}

// The hash value after one more block.
pub fn compress(h: [u32; 8], block: &[u8; 64]) -> [u32; 8]
    ensures { result ≡ compressed h block.now }
{
    let v = all_turns(full_schedule(block), h);
    std::array::from_fn(|j| add(v[j], h[j]))
}
