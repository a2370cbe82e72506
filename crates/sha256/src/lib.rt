//! SHA-256 of FIPS 180-4: the hash of a message.
#![tactic(auto)]

ghost use Rattle.std.specs.Prelude.{◌≡◌};
ghost use Rattle.sha_padding.specs.Parsing.{blocks};
ghost use Rattle.sha_block.specs.Initial.{initial_hash};
ghost use Rattle.sha_block.specs.Hash.{state_after, digest_bytes, sha256};

// The initial hash value.
pub fn initial() -> [u32; 8]
    ensures { result ≡ initial_hash }
{
    [
        0x6a09e667, 0xbb67ae85, 0x3c6ef372, 0xa54ff53a, 0x510e527f, 0x9b05688c, 0x1f83d9ab,
        0x5be0cd19,
    ]
}

// The digest: the words of a hash value as bytes.
pub fn to_bytes(h: [u32; 8]) -> [u8; 32]
    ensures { result ≡ digest_bytes h }
{
    let mut d = [0u8; 32];
    for i in 0..8 {
        d[4 * i..4 * i + 4].copy_from_slice(&h[i].to_be_bytes());
    }
    d
}

// What hashing a message gives: the last hash value, and the count of blocks.
#[derive(Clone, Copy)]
pub struct Hashed {
    pub state: [u32; 8],
    pub blocks: usize,
}

// The hash value after all blocks of the message.
pub fn hash(m: &[u8]) -> Hashed
    ensures { result ≡ record { state = state_after m.now (blocks m.now); blocks = blocks m.now } }
{
    let n = sha_padding::block_count(m);
    let mut h = initial();
    for i in 0..n {
        let b = sha_padding::padded_block(m, i);
        let x = sha_block::compress(h, &b);
        h = x;
    }
    Hashed {
        state: h,
        blocks: n,
    }
}

// SHA-256 of the message.
pub fn digest(m: &[u8]) -> [u8; 32]
    ensures { result ≡ sha256 m.now }
{
    to_bytes(hash(m).state)
}
