//! Key diversification (document 002, clause 10): DivData enciphered under a FAKey of 16, 24 or 32 bytes.
#![tactic(auto)]

ghost use Rattle.std.specs.Prelude.{◌≡◌, true, ◌/◌, length};
ghost use Rattle.key_expansion.specs.KeyLength.{is_key_length};
ghost use Rattle.key_expansion.specs.KeyExpansion.{round_keys};
ghost use Rattle.work.specs.Steps.{encipherment, counted, sum_from};
ghost use Rattle.plaid_types.specs.Keys.{wide};
ghost use Rattle.diversification.specs.Diversification.{flipped, diversified_by, diversify_steps};

use sbox::SBox;
use work::{Kind, Made, Prepared};

// The top bit of the first byte flipped.
fn flip(div: [u8; 16]) -> [u8; 16]
    ensures { result ≡ flipped div }
{
    let mut other = div;
    other[0] = div[0] ^ 0x80;
    other
}

// The diversified key, in the first of 32 bytes. By AES itself: one step for a FAKey of 16 bytes, and two for a longer one. The rows are the FAKey's.
pub fn diversify(
    table: &SBox,
    fa_key: &[u8],
    w: &[[u8; 16]],
    div: [u8; 16],
    sum: u32,
) -> Made<[u8; 32]>
    requires { (is_key_length (length fa_key.now) ≡ true) × (w.now ≡ round_keys (length fa_key.now / 4) fa_key.now) }
    ensures { result ≡ record { value = wide (diversified_by fa_key.now div); count = counted encipherment (diversify_steps fa_key.now div); sum = sum_from sum (diversify_steps fa_key.now div) } }
{
    let shown = work::prepare(fa_key);
    let first = aes::encipher(table, w, div);
    let kind = Kind::Encipherment.number();
    let after = work::mix_cipher(sum, kind, shown, div, first);
    let mut key = [0u8; 32];
    octets::copy_at(&mut key, 0, &first);
    if 16 < fa_key.len() {
        let other = flip(div);
        let second = aes::encipher(table, w, other);
        let rest = fa_key.len() - 16;
        octets::copy_at(&mut key, 16, &second[..rest]);
        return Made {
            value: key,
            count: 2,
            sum: work::mix_cipher(after, kind, shown, other, second),
        };
    }
    Made {
        value: key,
        count: 1,
        sum: after,
    }
}
