//! The reader's Accept: a card's answer to a final command.
#![tactic(auto)]

ghost use Rattle.std.specs.Prelude.{◌≡◌, true, cond, ◌-◌, ◌≤◌, length, replicate, IfOk};
ghost use Rattle.octets.specs.Lists.{over};
ghost use Rattle.key_expansion.specs.KeyLength.{is_key_length};
ghost use Rattle.refusals.specs.Numbers.{number_told};
ghost use Rattle.reader_accept.specs.Accept.{
  deciphered_text,
  right_body,
  authenticated,
  body_length,
  has_record,
  known_length,
  accept_number,
  number_of,
  accepted_of,
  work_after,
  record_part,
};

use plaid_types::Value;
use refusals::Refusal;

// The number of the decline, and 0; or 0, and how many bytes of the work buffer are the record.
#[repr(C)]
#[derive(Clone, Copy)]
pub struct Accepted {
    pub number: u8,
    pub length: usize,
}

fn known_length(n: usize) -> bool
    ensures { result ≡ known_length n }
{
    matches!(n, 32 | 48 | 64 | 80 | 96)
}

// The first fault that shows before a byte is deciphered, of a response of n bytes and a work buffer of so many.
fn fault(l: usize, keys_hash: Value, n: usize, room: usize) -> Result<(), Refusal>
    ensures { number_told result ≡ accept_number l keys_hash n room true }
{
    if !key_expansion::is_key_length(l) {
        return Err(Refusal::KeyLength);
    }
    if keys_hash.length as usize != l {
        return Err(Refusal::ValueLength);
    }
    if !known_length(n) {
        return Err(Refusal::Response);
    }
    if room < n {
        return Err(Refusal::WorkBuffer);
    }
    Ok(())
}

// The response deciphered, in the first bytes of the work buffer.
fn decipher_into(hash: &[u8], response: &[u8], work: &mut [u8])
    requires { (is_key_length (length hash.now) ≡ true) × (known_length (length response.now) ≡ true) × (length response.now ≤ length work.old) }
    ensures { work.new ≡ over work.old 0 (deciphered_text hash.now response.now) }
{
    let table = sbox::byte_table();
    let rows = key_expansion::expand(&table, hash);
    octets::copy_at(work, 0, response);
    let n = response.len();
    cbc::decipher_under(hash, &rows, [0u8; 16], &mut work[..n], 0);
}

// The body's length in a text of t bytes that ends with DivData; None: not authenticated.
fn body_length(s: &[u8], t: usize, div: [u8; 16]) -> Option<usize>
    requires { t ≤ length s.now }
    ensures { result ≡ cond (right_body s.now t div) (Some (t - 16)) None }
{
    if t < 17 {
        return None;
    }
    if 80 < t {
        return None;
    }
    if octets::equal(octets::part_of(s, t - 16, 16), &div) {
        return Some(t - 16);
    }
    None
}

// The same of whole blocks with their padding.
fn judged(s: &[u8], div: [u8; 16]) -> Option<usize>
    ensures { result ≡ cond (authenticated s.now div) (Some (body_length s.now)) None }
{
    let t = padding::unpad(s)?;
    body_length(s, t, div)
}

// A body of so many bytes has a record of len bytes.
fn has_record(len: usize, body: usize) -> bool
    ensures { result ≡ has_record len body }
{
    octets::both(1 <= len, len <= body)
}

// Zeros over the first n bytes.
fn clear(work: &mut [u8], n: usize)
    requires { n ≤ length work.old }
    ensures { work.new ≡ over work.old 0 (replicate n 0) }
{
    work[..n].fill(0);
}

// How many bytes of the work buffer are the record.
fn accepted_length(
    l: usize,
    keys_hash: Value,
    div_data: [u8; 16],
    record_length: usize,
    response: &[u8],
    work: &mut [u8],
) -> Result<usize, Refusal>
    ensures told { number_told result ≡ number_of l keys_hash div_data record_length response.now (length work.old) }
    ensures len { IfOk result (λ n. n ≡ record_length) }
    ensures bytes { work.new ≡ work_after l keys_hash div_data record_length response.now work.old }
{
    let n = response.len();
    fault(l, keys_hash, n, work.len())?;
    let bytes = keys_hash.bytes;
    let hash = &bytes[..l];
    decipher_into(hash, response, work);
    // In a body of 0 bytes there is no record.
    let body = judged(&work[..n], div_data).unwrap_or(0);
    if !has_record(record_length, body) {
        clear(work, n);
        return Err(Refusal::Authentication);
    }
    Ok(record_length)
}

pub fn accept_in(
    l: usize,
    keys_hash: Value,
    div_data: [u8; 16],
    record_length: usize,
    response: &[u8],
    work: &mut [u8],
) -> Accepted
    ensures told { result ≡ accepted_of l keys_hash div_data record_length response.now (length work.old) }
    ensures bytes { work.new ≡ work_after l keys_hash div_data record_length response.now work.old }
{
    match accepted_length(l, keys_hash, div_data, record_length, response, work) {
        Ok(n) => Accepted {
            number: 0,
            length: n,
        },
        Err(r) => Accepted {
            number: r.number(),
            length: 0,
        },
    }
}

// The record: the bytes of the work buffer that Accept says. An operation of its own: bytes at exit cannot be stated of a buffer whose
// part is returned.
pub fn record_of(work: &[u8], a: Accepted) -> &[u8]
    ensures { result.now ≡ record_part work.now a }
{
    let n = a.length.min(work.len());
    &work[..n]
}
