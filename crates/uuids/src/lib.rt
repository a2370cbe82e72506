//! UUIDs of RFC 4122: text to record and record to text (document 02, T-05).
#![tactic(auto)]

ghost use Rattle.std.specs.Prelude.{◌≡◌, true, ◌+◌, ◌*◌, ◌≤◌, ◌<◌, length};
ghost use Rattle.octets.specs.Lists.{over};
ghost use Rattle.conversion.specs.Conversion.{converted, output_after};
ghost use Rattle.conversion.specs.Told.{Gives};
ghost use Rattle.uuids.specs.Uuid.{behind_hyphen, text_of, record_of, group_at, formed, text_number, record_number};

use conversion::Converted;
use refusals::Refusal;

// The digits of some octets, after a hyphen.
fn write_group(octets: &[u8], out: &mut [u8], at: usize)
    requires { at + 1 + 2 * length octets.now ≤ length out.old }
    ensures { out.new ≡ over out.old at (behind_hyphen octets.now) }
{
    let mark = [b'-'];
    octets::copy_at(out, at, &mark);
    hexadecimal::write_digits(octets, out, at + 1);
}

// Whether a hyphen is at a place, and n digits after it.
fn group_at(text: &[u8], at: usize, n: usize) -> bool
    requires { at + 1 + n ≤ length text.now }
    ensures { result ≡ group_at text.now at n }
{
    let mark = text[at] == b'-';
    let digits = octets::part_of(text, at + 1, n);
    octets::both(mark, hexadecimal::are_digits(digits))
}

// Whether every character is one that RFC 4122 has at its place.
fn formed(text: &[u8]) -> bool
    requires { length text.now ≡ 36 }
    ensures { result ≡ formed text.now }
{
    let first = octets::part_of(text, 0, 8);
    let low = hexadecimal::are_digits(first);
    let mid = group_at(text, 8, 4);
    let high = group_at(text, 13, 4);
    let clock = group_at(text, 18, 4);
    let node = group_at(text, 23, 12);
    octets::both(
        low,
        octets::both(mid, octets::both(high, octets::both(clock, node))),
    )
}

// The octets of a formed text. The five groups are named as in RFC 4122; a loop over a table of their places would be no plainer.
fn read(text: &[u8]) -> [u8; 16]
    requires { (length text.now ≡ 36) × (formed text.now ≡ true) }
    ensures { result ≡ record_of text.now }
{
    let low = octets::part_of(text, 0, 8);
    let mid = octets::part_of(text, 9, 4);
    let high = octets::part_of(text, 14, 4);
    let clock = octets::part_of(text, 19, 4);
    let node = octets::part_of(text, 24, 12);
    let mut out = [0u8; 16];
    hexadecimal::read_digits(low, &mut out, 0);
    hexadecimal::read_digits(mid, &mut out, 4);
    hexadecimal::read_digits(high, &mut out, 6);
    hexadecimal::read_digits(clock, &mut out, 8);
    hexadecimal::read_digits(node, &mut out, 10);
    out
}

// The text of sixteen octets.
fn write(bytes: &[u8]) -> [u8; 36]
    requires { length bytes.now ≡ 16 }
    ensures { result ≡ text_of bytes.now }
{
    let low = octets::part_of(bytes, 0, 4);
    let mid = octets::part_of(bytes, 4, 2);
    let high = octets::part_of(bytes, 6, 2);
    let clock = octets::part_of(bytes, 8, 2);
    let node = octets::part_of(bytes, 10, 6);
    let mut out = [0u8; 36];
    hexadecimal::write_digits(low, &mut out, 0);
    write_group(mid, &mut out, 8);
    write_group(high, &mut out, 13);
    write_group(clock, &mut out, 18);
    write_group(node, &mut out, 23);
    out
}

// The record of a text, for an output of `room` bytes.
fn record(text: &[u8], room: usize) -> Result<[u8; 16], Refusal>
    ensures { Gives (text_number text.now room) (record_of text.now) result }
{
    conversion::fits(text.len(), 36, room, 16)?;
    if !formed(text) {
        return Err(Refusal::BadCharacter);
    }
    Ok(read(text))
}

// A text to its record.
pub fn to_record(text: &[u8], out: &mut [u8]) -> Converted
    ensures value { result ≡ converted (text_number text.now (length out.old)) (record_of text.now) }
    ensures out_after { out.new ≡ output_after (text_number text.now (length out.old)) (record_of text.now) out.old }
{
    let made = record(text, out.len());
    conversion::told(made, out)
}

// The text of a record, for an output of `room` bytes.
fn text(bytes: &[u8], room: usize) -> Result<[u8; 36], Refusal>
    ensures { Gives (record_number bytes.now room) (text_of bytes.now) result }
{
    conversion::fits(bytes.len(), 16, room, 36)?;
    Ok(write(bytes))
}

// A record to its text. Two cases, where `conversion::told` would do: a must-fail edit changes the length of one.
pub fn to_text(bytes: &[u8], out: &mut [u8]) -> Converted
    ensures value { result ≡ converted (record_number bytes.now (length out.old)) (text_of bytes.now) }
    ensures out_after { out.new ≡ output_after (record_number bytes.now (length out.old)) (text_of bytes.now) out.old }
{
    match text(bytes, out.len()) {
        Ok(letters) => conversion::done(&letters, out),
        Err(refusal) => conversion::declined(refusal.number()),
    }
}
