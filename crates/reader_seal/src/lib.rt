//! The reader's Seal: the final command for a mode and a payload.
#![tactic(auto)]

ghost use Rattle.std.specs.Prelude.{◌≡◌, true, ◌++◌, ◌+◌, ◌*◌, ◌≤◌, length};
ghost use Rattle.octets.specs.Lists.{over};
ghost use Rattle.refusals.specs.Numbers.{number_told};
ghost use Rattle.key_expansion.specs.KeyLength.{is_key_length};
ghost use Rattle.sha_block.specs.Hash.{sha256};
ghost use Rattle.plaid_types.specs.Keys.{wide};
ghost use Rattle.diversification.specs.Diversification.{diversified_by};
ghost use Rattle.reader_seal.specs.Seal.{
  str2,
  lc_of,
  payload_most,
  sealed_data,
  final_command,
  seal_number,
  sealed_of,
  seal_output,
};

use plaid_types::{OpModeId, Reader, Value};
use refusals::Refusal;
use sbox::SBox;

// The number of the decline, with nothing else; or 0, the length of the command and KeysHash.
#[repr(C)]
#[derive(Clone, Copy)]
pub struct Sealed {
    pub number: u8,
    pub length: usize,
    pub keys_hash: Value,
}

// Lc for a payload of p bytes.
fn lc_of(l: usize, p: usize) -> usize
    requires { (l ≤ 32) × (p ≤ payload_most l) }
    ensures { result ≡ lc_of l p }
{
    16 * padding::blocks_for(2 + 2 * l + p)
}

// The first fault, of a payload of p bytes and an output of so many.
fn fault(
    l: usize,
    fa_key: Value,
    rnd1: Value,
    rnd2: Value,
    p: usize,
    room: usize,
) -> Result<(), Refusal>
    ensures { number_told result ≡ seal_number l fa_key rnd1 rnd2 p room }
{
    if !key_expansion::is_key_length(l) {
        return Err(Refusal::KeyLength);
    }
    if fa_key.length as usize != l {
        return Err(Refusal::ValueLength);
    }
    if rnd1.length as usize != l {
        return Err(Refusal::ValueLength);
    }
    if rnd2.length as usize != l {
        return Err(Refusal::ValueLength);
    }
    if Reader::TEXT - (2 + 2 * l) < p {
        return Err(Refusal::Payload);
    }
    if room < lc_of(l, p) + 6 {
        return Err(Refusal::SealOutput);
    }
    Ok(())
}

// KeysHash is the first L bytes of this digest.
fn hashed(rnd1: &[u8], rnd2: &[u8]) -> [u8; 32]
    requires { (length rnd1.now ≤ 32) × (length rnd2.now ≤ 32) }
    ensures { result ≡ sha256 (rnd1.now ++ rnd2.now) }
{
    let mut m = [0u8; 2 * Value::MOST];
    octets::copy_at(&mut m, 0, rnd1);
    octets::copy_at(&mut m, rnd1.len(), rnd2);
    let n = rnd1.len() + rnd2.len();
    sha256::digest(&m[..n])
}

fn diversified(table: &SBox, fa_key: &[u8], div: [u8; 16]) -> [u8; 32]
    requires { is_key_length (length fa_key.now) ≡ true }
    ensures { result ≡ wide (diversified_by fa_key.now div) }
{
    let rows = key_expansion::expand(table, fa_key);
    let n = fa_key.len() / 4 + 7;
    let d = diversification::diversify(table, fa_key, &rows[..n], div, 0);
    d.value
}

// What the command's data are made of, with the key for them: RND2 and KeysHash are as long as that key.
#[derive(Clone, Copy)]
struct Contents<'a> {
    key: &'a [u8],
    mode: OpModeId,
    rnd2: &'a [u8],
    payload: &'a [u8],
    hash: &'a [u8],
    ghost key_length: { is_key_length (length key.now) ≡ true },
    ghost rnd2_length: { length rnd2.now ≡ length key.now },
    ghost hash_length: { length hash.now ≡ length key.now },
}

impl<'a> Contents<'a> {
    // STR2 from the start of a buffer.
    fn write_str2(self, b: &mut [u8])
        requires { 2 + length self.rnd2.now + length self.payload.now + length self.hash.now ≤ length b.old }
        ensures { b.new ≡ over b.old 0 (str2 self.entry.mode self.entry.rnd2.now self.entry.payload.now self.entry.hash.now) }
    {
        let number = self.mode.0.to_be_bytes();
        octets::copy_at(b, 0, &number);
        octets::copy_at(b, 2, self.rnd2);
        let at = 2 + self.rnd2.len();
        octets::copy_at(b, at, self.payload);
        octets::copy_at(b, at + self.payload.len(), self.hash);
    }

    // The command's data, in a buffer of its length.
    fn write_data(self, table: &SBox, b: &mut [u8])
        requires { length b.old ≡ lc_of (length self.key.now) (length self.payload.now) }
        ensures { b.new ≡ sealed_data (length self.entry.key.now) self.entry.key.now self.entry.mode self.entry.rnd2.now self.entry.payload.now self.entry.hash.now }
    {
        let rows = key_expansion::expand(table, self.key);
        self.write_str2(b);
        padding::pad(b, 2 + 2 * self.key.len() + self.payload.len());
        cbc::encipher_under(self.key, &rows, [0u8; 16], b, 0);
    }

    // The command from the start of the output: the data is made where it stands.
    fn write_command(self, table: &SBox, lc: usize, out: &mut [u8])
        requires { (length self.payload.now ≤ payload_most (length self.key.now)) × (lc ≡ lc_of (length self.key.now) (length self.payload.now)) × (lc + 6 ≤ length out.old) }
        ensures { out.new ≡ over out.old 0 (final_command lc (sealed_data (length self.entry.key.now) self.entry.key.now self.entry.mode self.entry.rnd2.now self.entry.payload.now self.entry.hash.now)) }
    {
        let head = [0u8, 0x86, 0, 0, lc as u8];
        octets::copy_at(out, 0, &head);
        let end = 5 + lc;
        self.write_data(table, &mut out[5..end]);
        let le = [0u8];
        octets::copy_at(out, end, &le);
    }
}

pub fn seal(
    l: usize,
    fa_key: Value,
    div_data: [u8; 16],
    rnd1: Value,
    rnd2: Value,
    mode: OpModeId,
    payload: &[u8],
    out: &mut [u8],
) -> Sealed
    ensures told { result ≡ sealed_of l fa_key div_data rnd1 rnd2 mode payload.now (length out.old) }
    ensures bytes { out.new ≡ seal_output l fa_key div_data rnd1 rnd2 mode payload.now out.old }
{
    match fault(l, fa_key, rnd1, rnd2, payload.len(), out.len()) {
        Ok(()) => {
            let key = &fa_key.bytes[..l];
            let r1 = &rnd1.bytes[..l];
            let r2 = &rnd2.bytes[..l];
            let digest = hashed(r1, r2);
            let hash = &digest[..l];
            let table = sbox::byte_table();
            let derived = diversified(&table, key, div_data);
            let under = &derived[..l];
            let lc = lc_of(l, payload.len());
            let keys_hash = Value::of(hash);
            let contents = Contents {
                key: under,
                mode,
                rnd2: r2,
                payload,
                hash,
            };
            contents.write_command(&table, lc, out);
            Sealed {
                number: 0,
                length: lc + 6,
                keys_hash,
            }
        }
        Err(r) => Sealed {
            number: r.number(),
            length: 0,
            keys_hash: Value::none(),
        },
    }
}
