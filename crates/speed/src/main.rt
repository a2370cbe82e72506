#![tactic(auto)]

// Does an operation a given number of times, each time on the last one's result, and writes the last result in hexadecimal.
// The arguments are pairs: the operation's name and the number of times. `bench/run` counts this program's instructions.
//
// The N of an operation of AES is the length of its key, 16, 24 or 32 bytes, which only the run knows: it is read from the name. Each starts
// from a published example, so that what one time gives is that example's result: FIPS 197 C.1, C.2 and C.3 for encipher-N and decipher-N;
// A.1, A.2 and A.3 for expand-N (the last round key, which goes over the first 16 bytes of the next key); SP 800-38A F.2.1, F.2.3 and
// F.2.5 for cbc-encipher-N, F.2.2, F.2.4 and F.2.6 for cbc-decipher-N (four blocks). work-sum-N is of the 11, 13 or 15 round keys of A.1,
// A.2 or A.3, from 0. sha256-N is of N bytes, at most 1,024, which are zeros the first time; each digest then goes over the first 32.
ghost use Rattle.std.specs.Prelude.{◌≡◌, true, ◌<◌, ◌≤◌, ◌^◌, length, IfSome};
ghost use Rattle.key_expansion.specs.KeyLength.{is_key_length};

use std::env::FillError;
use std::io;
use std::rt::Env;

// What is done under the round keys of a key, once they are made.
#[derive(Clone, Copy)]
enum Operation {
    Encipher,
    Decipher,
    ChainEncipher,
    ChainDecipher,
    WorkSum,
}

fn show(rt: &impl Print, b: &[u8]) -> io::Result<()> {
    rsp::say_bytes(rt, b)?;
    rt.println("")
}

fn show_block(rt: &impl Print, b: [u8; 16]) -> io::Result<()> {
    show(rt, &b)
}

fn none_such(rt: &impl Print) -> io::Result<()> {
    rt.println("no such operation")
}

// Puts the bytes that hexadecimal digits say into `out` and returns how many they are: the digits a for a key of 16 bytes, b for 24, c for 32.
fn published(n: usize, a: &[u8], b: &[u8], c: &[u8], out: &mut [u8]) -> Option<usize>
    ensures { IfSome result (λ m. m ≤ length out.new) }
{
    match n {
        16 => rsp::hex(a, out),
        24 => rsp::hex(b, out),
        _ => rsp::hex(c, out),
    }
}

// The key of FIPS 197 C.3, whose first bytes are the keys of C.1 and C.2.
fn counted_key() -> [u8; 32] {
    let mut k = [0u8; 32];
    rsp::hex(
        b"000102030405060708090a0b0c0d0e0f101112131415161718191a1b1c1d1e1f",
        &mut k,
    );
    k
}

// The key of n bytes of FIPS 197 A.1, A.2 or A.3, which are those of SP 800-38A, too.
fn random_key(n: usize) -> [u8; 32] {
    let mut k = [0u8; 32];
    published(
        n,
        b"2b7e151628aed2a6abf7158809cf4f3c",
        b"8e73b0f7da0e6452c810f32b809079e562f8ead2522c6b7b",
        b"603deb1015ca71be2b73aef0857d77811f352c073b6108d72d9810a30914dff4",
        &mut k,
    );
    k
}

// The block that 32 hexadecimal digits say.
fn block(digits: &[u8]) -> [u8; 16] {
    let mut b = [0u8; 16];
    rsp::hex(digits, &mut b);
    b
}

fn encipher(w: &[[u8; 16]], times: usize) -> [u8; 16]
    requires { 1 < length w.now }
{
    let mut b = block(b"00112233445566778899aabbccddeeff");
    let table = sbox::byte_table();
    for _ in 0..times {
        let next = aes::encipher(&table, w, b);
        b = next;
    }
    b
}

// The ciphertext of FIPS 197 C.1, C.2 or C.3.
fn ciphertext(n: usize) -> [u8; 16] {
    let mut b = [0u8; 16];
    published(
        n,
        b"69c4e0d86a7b0430d8cdb78070b4c55a",
        b"dda97ca4864cdfe06eaf70a0ec0d7191",
        b"8ea2b7ca516745bfeafc49904b496089",
        &mut b,
    );
    b
}

fn decipher(n: usize, w: &[[u8; 16]], times: usize) -> [u8; 16]
    requires { 1 < length w.now }
{
    let mut b = ciphertext(n);
    let table = sbox::inv_byte_table();
    for _ in 0..times {
        let next = aes::decipher(&table, w, b);
        b = next;
    }
    b
}

// Expands the key. The last round key goes over the first 16 bytes of the next one.
fn expand(key: &mut [u8], times: usize) -> [u8; 16]
    requires { is_key_length (length key.old) ≡ true }
{
    let last = key.len() / 4 + 6;
    let table = sbox::byte_table();
    for _ in 0..times {
        let w = key_expansion::expand(&table, key);
        octets::copy_at(key, 0, &w[last]);
    }
    octets::block_at(key, 0)
}

fn show_expand(rt: &impl Print, n: Option<usize>, times: usize) -> io::Result<()> {
    let n = n.unwrap_or(0);
    if !key_expansion::is_key_length(n) {
        return none_such(rt);
    }
    let mut key = random_key(n);
    show_block(rt, expand(&mut key[..n], times))
}

// SHA-256 of the first n bytes, at least once; each digest goes over the first 32. By two calls, and with a length that only the run knows,
// it stays a function, as in firmware; so do key expansion and a block of AES.
fn hash(text: &mut [u8], n: usize, times: usize) -> [u8; 32]
    requires n_in_bounds { n ≤ length text.old }
    requires in_bounds { 32 ≤ length text.old }
{
    let mut d = sha256::digest(&text[..n]);
    for _ in 1..times {
        octets::copy_at(text, 0, &d);
        d = sha256::digest(&text[..n]);
    }
    d
}

fn show_hash(rt: &impl Print, n: Option<usize>, times: usize) -> io::Result<()> {
    let Some(n) = n.filter(|n| *n <= 1024) else {
        return none_such(rt);
    };
    let mut text = [0u8; 1024];
    let d = hash(&mut text, n, times);
    show(rt, &d)
}

fn chain_once(
    key: &[u8],
    w: &[[u8; 16]],
    start: [u8; 16],
    text: &mut [u8],
    is_inverse: bool,
    sum: u32,
) -> u32
    requires { 1 < length w.now }
{
    if is_inverse {
        cbc::decipher(key, w, start, text, sum).sum
    } else {
        cbc::encipher(key, w, start, text, sum).sum
    }
}

// CBC on `text` in place, at least once. The sum is handed on from one time to the next. The compiler puts CBC into `chain_once`.
fn chain(key: &[u8], w: &[[u8; 16]], text: &mut [u8], is_inverse: bool, times: usize) -> u32
    requires { 1 < length w.now }
{
    let start = block(b"000102030405060708090a0b0c0d0e0f");
    let mut sum = chain_once(key, w, start, text, is_inverse, 0);
    for _ in 1..times {
        sum = chain_once(key, w, start, text, is_inverse, sum);
    }
    sum
}

// The four blocks of SP 800-38A F.2, or what they are enciphered under a key of n bytes; and how many bytes they are.
fn four_blocks(is_enciphered: bool, n: usize, text: &mut [u8]) -> Option<usize>
    ensures { IfSome result (λ m. m ≤ length text.new) }
{
    if is_enciphered {
        return published(
            n,
            b"7649abac8119b246cee98e9b12e9197d5086cb9b507219ee95db113a917678b273bed6b8e3c1743b7116e69e222295163ff1caa1681fac09120eca307586e1a7",
            b"4f021db243bc633d7178183a9fa071e8b4d9ada9ad7dedf4e5e738763f69145a571b242012fb7ae07fa9baac3df102e008b0e27988598881d920a9e64f5615cd",
            b"f58c4c04d6e5f1ba779eabfb5f7bfbd69cfc4e967edb808d679f777bc6702c7d39f23369a9d9bacfa530e26304231461b2eb05e2c39be9fcda6c19078c6a9d1b",
            text,
        );
    }
    rsp::hex(
        b"6bc1bee22e409f96e93d7e117393172aae2d8a571e03ac9c9eb76fac45af8e5130c81c46a35ce411e5fbc1191a0a52eff69f2445df4f9b17ad2b417be66c3710",
        text,
    )
}

// The sum goes to standard error, so that it has to be made.
fn show_chain(
    rt: &(impl Print + Eprint),
    key: &[u8],
    w: &[[u8; 16]],
    is_inverse: bool,
    times: usize,
) -> io::Result<()>
    requires { 1 < length w.now }
{
    let mut text = [0u8; 64];
    if let Some(n) = four_blocks(is_inverse, key.len(), &mut text) {
        let sum = chain(key, w, &mut text[..n], is_inverse, times);
        rt.eprint(sum)?;
        show(rt, &text)?;
    }
    Ok(())
}

// The work sum over round keys, at least once. The compiler puts it, and this function, into `show_under`.
fn sum_rows(w: &[[u8; 16]], times: usize) -> u32
    requires { length w.now < 2 ^ 32 }
{
    let mut sum = work::mix_rows(0, w);
    for _ in 1..times {
        sum = work::mix_rows(sum, w);
    }
    sum
}

fn show_sum(rt: &impl Print, sum: u32) -> io::Result<()> {
    rt.println(sum)
}

// An operation under a key, which is expanded once.
fn under(
    rt: &(impl Print + Eprint),
    operation: Operation,
    key: &[u8],
    times: usize,
) -> io::Result<()>
    requires { is_key_length (length key.now) ≡ true }
{
    let table = sbox::byte_table();
    let rows = key_expansion::expand(&table, key);
    let n = key.len() / 4 + 7;
    let w = &rows[..n];
    match operation {
        Operation::Encipher => show_block(rt, encipher(w, times)),
        Operation::Decipher => show_block(rt, decipher(key.len(), w, times)),
        Operation::ChainEncipher => show_chain(rt, key, w, false, times),
        Operation::ChainDecipher => show_chain(rt, key, w, true, times),
        Operation::WorkSum => show_sum(rt, sum_rows(w, times)),
    }
}

// An operation under a key of n bytes: that of FIPS 197 C for one block, else one of FIPS 197 A.
fn show_under(
    rt: &(impl Print + Eprint),
    operation: Operation,
    n: Option<usize>,
    times: usize,
) -> io::Result<()> {
    let n = n.unwrap_or(0);
    if !key_expansion::is_key_length(n) {
        return none_such(rt);
    }
    let key = match operation {
        Operation::Encipher | Operation::Decipher => counted_key(),
        _ => random_key(n),
    };
    under(rt, operation, &key[..n], times)
}

fn operate(rt: &(impl Print + Eprint), name: &[u8], times: Option<usize>) -> io::Result<()> {
    let Some(times) = times else {
        return rt.println("no number");
    };
    if let Some(n) = name.strip_prefix(b"encipher-") {
        show_under(rt, Operation::Encipher, rsp::decimal(n), times)
    } else if let Some(n) = name.strip_prefix(b"decipher-") {
        show_under(rt, Operation::Decipher, rsp::decimal(n), times)
    } else if let Some(n) = name.strip_prefix(b"expand-") {
        show_expand(rt, rsp::decimal(n), times)
    } else if let Some(n) = name.strip_prefix(b"cbc-encipher-") {
        show_under(rt, Operation::ChainEncipher, rsp::decimal(n), times)
    } else if let Some(n) = name.strip_prefix(b"cbc-decipher-") {
        show_under(rt, Operation::ChainDecipher, rsp::decimal(n), times)
    } else if let Some(n) = name.strip_prefix(b"work-sum-") {
        show_under(rt, Operation::WorkSum, rsp::decimal(n), times)
    } else if let Some(n) = name.strip_prefix(b"sha256-") {
        show_hash(rt, rsp::decimal(n), times)
    } else {
        none_such(rt)
    }
}

// Puts argument i at the start of `out`, and returns how many bytes that are: 0 of one that is longer. None if there is no such argument.
fn argument(rt: &impl Env, i: usize, out: &mut [u8]) -> Option<usize>
    ensures { IfSome result (λ n. n ≤ length out.new) }
{
    match rt.arg(i, out) {
        Ok(n) => Some(n),
        Err(FillError::TooLong) => Some(0),
        Err(FillError::NotPresent) => None,
    }
}

// The operation that argument i names, as often as argument j says; false where there is no argument i.
fn run(rt: &(impl Env + Print + Eprint), i: usize, j: usize) -> io::Result<bool> {
    let mut name = [0u8; 16];
    let mut digits = [0u8; 16];
    let Some(n) = argument(rt, i, &mut name) else {
        return Ok(false);
    };
    let m = argument(rt, j, &mut digits).unwrap_or(0);
    operate(rt, &name[..n], rsp::decimal(&digits[..m]))?;
    Ok(true)
}

fn main(rt: HostRuntime) -> io::Result<()> {
    for k in 0..usize::MAX / 2 {
        if !run(&rt, 2 * k + 1, 2 * k + 2)? {
            break;
        }
    }
    Ok(())
}
