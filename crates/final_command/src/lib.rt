//! The final command of a card (document 01, "Final"). Every step is always made, in one order; what they find is judged behind them.
#![tactic(auto)]

ghost use Rattle.std.specs.Prelude.{◌≡◌, cond, true, ◌&&◌, ◌++◌, ◌+◌, ◌-◌, ◌*◌, ◌/◌, ◌<◌, ◌≤◌, leb, length, get_or};
ghost use Rattle.octets.specs.Bytes.{same};
ghost use Rattle.octets.specs.Lists.{part, over};
ghost use Rattle.key_expansion.specs.KeyLength.{is_key_length};
ghost use Rattle.key_expansion.specs.Schedule.{fifteen};
ghost use Rattle.aes.specs.Aes.{aes_under};
ghost use Rattle.work.specs.Steps.{comparison, counted, sum_from};
ghost use Rattle.cbc.specs.Cbc.{encrypted, zeros};
ghost use Rattle.plaid_types.specs.Keys.{key_length_of, held};
ghost use Rattle.plaid_types.specs.Cards.{no_mode};
ghost use Rattle.final_command.specs.Final.{op_mode, mode_steps, first_mode, accepting, accepts_final, record_of, size_of, reply_text, final_reply};
ghost use Rattle.final_command.specs.Parts.{derived, deciphered_under, hashing, opened_text, sealing, buffer_of, sent};
ghost use Rattle.final_command.specs.Told.{told_final};

use plaid_types::{Answer, Card, ModeSlot, OpModeId, Value};
use sbox::SBox;
use work::Made;

// A function, so that both values are read before one is taken.
fn choose(t: bool, a: [u8; Value::MOST], b: [u8; Value::MOST]) -> [u8; Value::MOST]
    ensures { result ≡ cond t a b }
{
    if t { a } else { b }
}

// The session's own FAKey (T-07), or the shill key: the first L of these bytes.
fn fa_key(card: Card) -> [u8; Value::MOST]
    ensures { result ≡ cond card.session.opened card.session.fa_key card.shill_key }
{
    choose(card.session.opened, card.session.fa_key, card.shill_key)
}

// The diversified key, in the first of its bytes, and what was made for it.
#[derive(Clone, Copy)]
struct Derived {
    key: [u8; Value::MOST],
    encipherments: usize,
    expansions: usize,
    sum: u32,
}

// DivData enciphered by AES itself, under the FAKey.
fn diversify(table: &SBox, fa: &[u8], div: [u8; 16], sum: u32) -> Derived
    requires { is_key_length (length fa.now) ≡ true }
    ensures { result ≡ derived fa.now div sum }
{
    let e = steps::expand(table, fa, sum);
    let rows = e.value;
    let n = fa.len() / 4 + 7;
    let k = diversification::diversify(table, fa, &rows[..n], div, e.sum);
    // An array field goes into a literal by a variable: the check does not take it straight.
    let key = k.value;
    Derived {
        key: key,
        encipherments: k.count,
        expansions: e.count,
        sum: k.sum,
    }
}

// The whole blocks of d, deciphered into bytes that start as zero.
fn decipher(key: &[u8], rows: &[[u8; 16]], d: &[u8], sum: u32) -> Made<[u8; Opened::TEXT]>
    requires { (is_key_length (length key.now) ≡ true) × (rows.now ≡ fifteen (length key.now / 4) key.now) × (length d.now < 256) }
    ensures { result ≡ deciphered_under key.now d.now sum }
{
    let mut text = [0u8; Opened::TEXT];
    let n = 16 * (d.len() / 16);
    octets::copy_at(&mut text, 0, &d[..n]);
    let m = cbc::decipher_under(key, rows, [0u8; 16], &mut text[..n], sum);
    Made {
        value: text,
        count: m.count,
        sum: m.sum,
    }
}

// RND1 and RND2, which follows the text's OpModeID and is as long.
fn hashed(rnd1: &[u8], text: &[u8], sum: u32) -> Made<[u8; 32]>
    requires { (length rnd1.now ≤ 32) × (2 + length rnd1.now ≤ length text.now) }
    ensures { result ≡ hashing (rnd1.now ++ part text.now 2 (length rnd1.now)) sum }
{
    let l = rnd1.len();
    let mut m = [0u8; 2 * Value::MOST];
    octets::copy_at(&mut m, 0, rnd1);
    let rnd2 = octets::part_of(text, 2, l);
    octets::copy_at(&mut m, l, rnd2);
    let n = 2 * l;
    steps::hash(&m[..n], sum)
}

// KeysHash is the first L bytes of the digest.
#[derive(Clone, Copy)]
struct Opened {
    text: [u8; Opened::TEXT],
    digest: [u8; 32],
    decipherments: usize,
    encipherments: usize,
    expansions: usize,
    hash_blocks: usize,
    sum: u32,
}

impl Opened {
    const TEXT: usize = 240;
}

// The steps up to the hash.
fn open_text(card: Card, d: &[u8]) -> Opened
    requires { length d.now < 256 }
    ensures { result ≡ opened_text card d.now }
{
    let l = plaid_types::lawful(card.key_length);
    let held = fa_key(card);
    let fa = &held[..l];
    let table = sbox::byte_table();
    let k = diversify(&table, fa, card.div_data, 0);
    let long = k.key;
    let key = &long[..l];
    let e = steps::expand(&table, key, k.sum);
    let rows = e.value;
    let t = decipher(key, &rows, d, e.sum);
    let text = t.value;
    let rnd1 = choose(card.session.opened, card.session.rnd1, [0u8; Value::MOST]);
    let h = hashed(&rnd1[..l], &text, t.sum);
    // By a variable, as in `diversify`.
    let digest = h.value;
    Opened {
        text: text,
        digest: digest,
        decipherments: t.count,
        encipherments: k.encipherments,
        expansions: k.expansions + e.count,
        hash_blocks: h.count,
        sum: h.sum,
    }
}

// Where the first match is, or 16 for none.
fn compare_modes(modes: [ModeSlot; Card::MODES], v: OpModeId, sum: u32) -> Made<usize>
    ensures { result ≡ record { value = first_mode 0 v modes; count = counted comparison (mode_steps v modes); sum = sum_from sum (mode_steps v modes) } }
{
    let mut at = Card::MODES;
    let mut s = sum;
    let mut count: usize = 0;
    for (i, k) in modes.iter().enumerate() {
        let c = steps::compare_modes(v, k.held, k.id, s);
        s = c.sum;
        count += c.count;
        at = steps::keep(Card::MODES, at, i, c.value);
    }
    Made {
        value: at,
        count: count,
        sum: s,
    }
}

fn op_mode(text: [u8; Opened::TEXT]) -> OpModeId
    ensures { result ≡ op_mode text }
{
    OpModeId(octets::word(text[0], text[1]))
}

// A text of t bytes is long enough and ends with KeysHash.
fn ends_with(s: &[u8], t: usize, hash: &[u8]) -> bool
    requires { (t ≤ length s.now) × (length hash.now ≤ 32) }
    ensures { result ≡ (leb (2 + 2 * length hash.now) t && same (part s.now (t - length hash.now) (length hash.now)) hash.now) }
{
    let l = hash.len();
    2 + 2 * l <= t && octets::equal(octets::part_of(s, t - l, l), hash)
}

// The text is rightly padded, ends with KeysHash, and names a mode that is held.
fn sealed(s: &[u8], hash: &[u8], held: bool) -> bool
    requires { length hash.now ≤ 32 }
    ensures { result ≡ sealing s.now hash.now held }
{
    match padding::unpad(s) {
        Some(t) => octets::both(ends_with(s, t, hash), held),
        None => false,
    }
}

fn accepts(opened: bool, lc: usize, text: [u8; Opened::TEXT], hash: &[u8], mode: usize) -> bool
    requires { (lc < 256) × (length hash.now ≤ 32) }
    ensures { result ≡ accepting (length hash.now) opened lc (part text 0 (16 * (lc / 16))) hash.now mode }
{
    let n = 16 * (lc / 16);
    let good = sealed(&text[..n], hash, mode < Card::MODES);
    octets::both(opened, octets::both(lc % 16 == 0, good))
}

// By `get` it would be no shorter: the empty slot is a literal all the same.
fn mode_at(modes: [ModeSlot; Card::MODES], at: usize) -> ModeSlot
    ensures { result ≡ get_or modes at no_mode }
{
    if at < Card::MODES {
        modes[at]
    } else {
        ModeSlot {
            held: false,
            id: OpModeId(0),
            start: 0,
            len: 0,
        }
    }
}

// What is enciphered starts as a part of the record area or as a part of the fresh bytes.
fn source<'a>(accepted: bool, area: &'a [u8], mode: ModeSlot, fresh: &'a [u8], n: usize) -> &'a [u8]
    requires { n ≤ length fresh.now }
    ensures { result.now ≡ cond accepted (record_of area.now mode) (part fresh.now 0 n) }
{
    if accepted {
        let a = mode.start.min(area.len());
        let most = mode.len.min(Card::RECORD);
        let e = a + most.min(area.len() - a);
        return &area[a..e];
    }
    &fresh[..n]
}

// How many zero bytes follow a record of n bytes.
fn payload_length(n: usize, size: usize) -> usize
    requires { (n ≤ 64) × (size ≤ 6) }
    ensures { result ≡ 16 * (size - 2) - n }
{
    (16 * size).saturating_sub(32 + n)
}

fn reply_text(
    accepted: bool,
    area: [u8; Card::AREA],
    mode: ModeSlot,
    div: [u8; 16],
    fresh: &[u8],
    size: usize,
) -> [u8; Answer::FINAL_MOST]
    requires { (size ≤ 6) × (length fresh.now ≡ 253) }
    ensures { result ≡ buffer_of (reply_text accepted area mode div fresh.now size) }
{
    let mut b = [0u8; Answer::FINAL_MOST];
    let s = source(accepted, &area, mode, fresh, 16 * size);
    octets::copy_at(&mut b, 0, s);
    if accepted {
        let zeros = [0u8; Card::RECORD];
        let k = payload_length(s.len(), size);
        let payload = &zeros[..k];
        let t = s.len() + k;
        octets::copy_at(&mut b, s.len(), payload);
        octets::copy_at(&mut b, t, &div);
        padding::pad(&mut b, t + 16);
        return b;
    }
    b
}

#[derive(Clone, Copy)]
struct Sent {
    encipherments: usize,
    expansions: usize,
    length: usize,
    sum: u32,
}

// The steps behind the verdict: one key and one text, whichever it was.
fn reply(
    card: Card,
    accepted: bool,
    digest: [u8; 32],
    mode: ModeSlot,
    sum: u32,
    fresh: &[u8],
    out: &mut [u8],
) -> Sent
    requires { (length fresh.now ≡ 253) × (256 ≤ length out.old) }
    ensures told { result ≡ sent (held (key_length_of card) (cond accepted digest card.shill_key)) (size_of card) (buffer_of (reply_text accepted card.area mode card.div_data fresh.now (size_of card))) sum }
    ensures bytes { out.new ≡ over out.old 0 (encrypted (aes_under (held (key_length_of card) (cond accepted digest card.shill_key))) zeros (size_of card) (buffer_of (reply_text accepted card.area mode card.div_data fresh.now (size_of card)))) }
{
    let l = plaid_types::lawful(card.key_length);
    let chosen = choose(accepted, digest, card.shill_key);
    let key = &chosen[..l];
    let table = sbox::byte_table();
    let e = steps::expand(&table, key, sum);
    let rows = e.value;
    let size = card.reply_size.min(Card::REPLY_MOST);
    let mut b = reply_text(accepted, card.area, mode, card.div_data, fresh, size);
    let n = 16 * size;
    let m = cbc::encipher_under(key, &rows, [0u8; 16], &mut b[..n], e.sum);
    octets::copy_at(out, 0, &b[..n]);
    Sent {
        encipherments: m.count,
        expansions: e.count,
        length: n,
        sum: m.sum,
    }
}

// What is told of a final command beside its bytes: T-06 asks whether it was accepted.
#[derive(Clone, Copy)]
pub struct Final {
    pub comparisons: usize,
    pub decipherments: usize,
    pub encipherments: usize,
    pub expansions: usize,
    pub hash_blocks: usize,
    pub length: usize,
    pub sum: u32,
    pub accepted: bool,
}

pub fn run(card: Card, d: &[u8], fresh: &[u8], out: &mut [u8]) -> Final
    requires { (length d.now < 256) × (length fresh.now ≡ 253) × (256 ≤ length out.old) }
    ensures told { result ≡ told_final (accepts_final card d.now) (final_reply card d.now fresh.now) }
    ensures bytes { out.new ≡ over out.old 0 (final_reply card d.now fresh.now).bytes }
{
    let l = plaid_types::lawful(card.key_length);
    let o = open_text(card, d);
    let text = o.text;
    let digest = o.digest;
    let f = compare_modes(card.modes, op_mode(text), o.sum);
    let accepted = accepts(card.session.opened, d.len(), text, &digest[..l], f.value);
    let mode = mode_at(card.modes, f.value);
    let s = reply(card, accepted, digest, mode, f.sum, fresh, out);
    Final {
        comparisons: f.count,
        decipherments: o.decipherments,
        encipherments: o.encipherments + s.encipherments,
        expansions: o.expansions + s.expansions,
        hash_blocks: o.hash_blocks,
        length: s.length,
        sum: s.sum,
        accepted: accepted,
    }
}
