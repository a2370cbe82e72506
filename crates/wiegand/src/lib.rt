//! Wiegand numbers: text to record and record to text (document 02, T-05).
#![tactic(auto)]

ghost use Rattle.std.specs.Prelude.{◌≡◌, cond, not, map, ℕ, ◌≤◌, length, get_or, drop};
ghost use Rattle.refusals.specs.Numbers.{number_told};
ghost use Rattle.conversion.specs.Conversion.{each, converted, output_after};
ghost use Rattle.conversion.specs.Told.{Gives};
ghost use Rattle.wiegand.specs.Wiegand.{is_bit, bit_of, text_bits, ones, parity_right, with_zeros, character, record_of, text_of, text_number, record_number};

use conversion::Converted;
use refusals::Refusal;

// Whether a character is 0 or 1.
fn is_bit(c: u8) -> bool
    ensures { result ≡ is_bit c }
{
    matches!(c, b'0' | b'1')
}

// How many ones there are.
fn ones(s: &[u8]) -> usize
    ensures { result ≡ ones s.now }
{
    let mut n: usize = 0;
    for b in s {
        if *b == 1 {
            n += 1;
        }
    }
    n
}

// Whether both parity bits of a record's 32 bits are right; each is counted with the twelve bits that it is for.
fn parity_right(bits: &[u8]) -> bool
    requires { length bits.now ≡ 32 }
    ensures { result ≡ parity_right (drop 6 bits.now) }
{
    let first = octets::part_of(bits, 6, 13);
    let last = octets::part_of(bits, 19, 13);
    let even = ones(first) % 2 == 0;
    let odd = ones(last) % 2 == 1;
    octets::both(even, odd)
}

fn bit_of(c: u8) -> u8
    ensures { result ≡ bit_of c }
{
    u8::from(c == b'1')
}

// The 32 bits of a text's record: six zeros, and the text's bits.
fn bits_of_text(text: &[u8]) -> [u8; 32]
    requires { length text.now ≡ 26 }
    ensures { result ≡ with_zeros (text_bits text.now) }
{
    let mut low = [0u8; 26];
    // By place: with array::from_fn the proof did not close, since it does not learn that each of 26 calls reads this slice.
    for (i, c) in text.iter().enumerate() {
        low[i] = bit_of(*c);
    }
    let mut bits = [0u8; 32];
    octets::copy_at(&mut bits, 6, &low);
    bits
}

// The characters of a record's 26 bits.
fn characters(bits: &[u8]) -> [u8; 26]
    requires { (length bits.now ≡ 32) × ((i : ℕ) → get_or bits.now i 0 ≤ 1) }
    ensures { result ≡ map character (drop 6 bits.now) }
{
    let mut text = [0u8; 26];
    // By place: with array::from_fn the proof did not close: it does not learn that each call reads this slice.
    for i in 0..26 {
        text[i] = b'0' + bits[6 + i];
    }
    text
}

// Of a text of 26 characters a bad character is told before wrong parity.
fn fault(good: bool, right: bool) -> Result<(), Refusal>
    ensures { number_told result ≡ cond (not good) 25 (cond (not right) 24 0) }
{
    if !good {
        return Err(Refusal::BadCharacter);
    }
    if right { Ok(()) } else { Err(Refusal::Parity) }
}

// The record of a text, for an output of `room` bytes.
fn record(text: &[u8], room: usize) -> Result<[u8; 4], Refusal>
    ensures { Gives (text_number text.now room) (record_of text.now) result }
{
    conversion::fits(text.len(), 26, room, 4)?;
    let bits = bits_of_text(text);
    let good = conversion::each(text, is_bit);
    let right = parity_right(&bits);
    fault(good, right)?;
    Ok(binary::bytes_of(&bits))
}

// A text to its record.
pub fn to_record(text: &[u8], out: &mut [u8]) -> Converted
    ensures value { result ≡ converted (text_number text.now (length out.old)) (record_of text.now) }
    ensures out_after { out.new ≡ output_after (text_number text.now (length out.old)) (record_of text.now) out.old }
{
    let made = record(text, out.len());
    conversion::told(made, out)
}

// The text of a record, for an output of `room` bytes.
fn text(bytes: &[u8], room: usize) -> Result<[u8; 26], Refusal>
    ensures { Gives (record_number bytes.now room) (text_of bytes.now) result }
{
    conversion::fits(bytes.len(), 4, room, 26)?;
    let bits = binary::bits_of(bytes);
    let above = ones(&bits[..6]);
    if above != 0 {
        return Err(Refusal::Parity);
    }
    if !parity_right(&bits) {
        return Err(Refusal::Parity);
    }
    Ok(characters(&bits))
}

// A record to its text.
pub fn to_text(bytes: &[u8], out: &mut [u8]) -> Converted
    ensures value { result ≡ converted (record_number bytes.now (length out.old)) (text_of bytes.now) }
    ensures out_after { out.new ≡ output_after (record_number bytes.now (length out.old)) (text_of bytes.now) out.old }
{
    let made = text(bytes, out.len());
    conversion::told(made, out)
}
