//! The reader's Open: the platform's decrypted blocks, one for each listed entry.
#![tactic(auto)]

ghost use Rattle.std.specs.Prelude.{◌≡◌, ◌+◌, ◌*◌, ◌<◌, ◌≤◌, length, true, IfOk};
ghost use Rattle.refusals.specs.Numbers.{number_told};
ghost use Rattle.key_expansion.specs.KeyLength.{is_key_length};
ghost use Rattle.plaid_types.specs.Keys.{str1_length};
ghost use Rattle.reader_open.specs.Open.{formed, text_of, id_of, agrees, opens_as, winner, open_number, opened_at, opened};

use plaid_types::{Answer, Fresh, KeySetId, Reader, Value};
use refusals::Refusal;

// What Open hands back: the number; and the winning entry's place and KeySetID, with DivData and RND1 of its block.
#[repr(C)]
#[derive(Clone, Copy)]
pub struct Opened {
    pub number: u8,
    pub place: usize,
    pub id: KeySetId,
    pub div_data: [u8; 16],
    pub rnd1: Value,
}

// STR1 of a block: its last bytes.
fn text_of(l: usize, b: &[u8]) -> &[u8]
    requires { (l ≤ 32) × (length b.now ≡ 256) }
    ensures { result.now ≡ text_of l b.now }
{
    let n = plaid_types::str1_length(l);
    octets::part_of(b, Answer::INITIAL - n, n)
}

// Whether a block is 00 02, nonzero bytes, 00, and STR1.
fn formed(l: usize, b: &[u8]) -> bool
    requires { (l ≤ 32) × (length b.now ≡ 256) }
    ensures { result ≡ formed l b.now }
{
    let n = Fresh::ALL - plaid_types::str1_length(l);
    let pads = frame::no_zero(octets::part_of(b, 2, n), 0);
    let end = octets::both(pads, b[2 + n] == 0);
    octets::both(b[0] == 0, octets::both(b[1] == 2, end))
}

fn id_of(t: &[u8]) -> KeySetId
    requires { 2 ≤ length t.now }
    ensures { result ≡ id_of t.now }
{
    KeySetId(octets::word(t[0], t[1]))
}

// Whether STR1 has this KeySetID, and RND1 twice.
fn agrees(l: usize, t: &[u8], id: KeySetId) -> bool
    requires { (l ≤ 32) × (length t.now ≡ str1_length l) }
    ensures { result ≡ agrees l id t.now }
{
    let twice = octets::equal(octets::part_of(t, 18, l), octets::part_of(t, 18 + l, l));
    let k = id_of(t);
    octets::both(k.0 == id.0, twice)
}

fn opens(l: usize, b: &[u8], id: KeySetId) -> bool
    requires { (l ≤ 32) × (length b.now ≡ 256) }
    ensures { result ≡ opens_as l id b.now }
{
    let rest = agrees(l, text_of(l, b), id);
    octets::both(formed(l, b), rest)
}

// The first that opens, of n; n where none does. Every block is examined, and each is as long as an initial answer.
fn first(l: usize, ids: [KeySetId; Reader::IDS], n: usize, blocks: &[u8]) -> usize
    requires { (l ≤ 32) × (n ≤ 16) × (length blocks.now ≡ 256 * n) }
    ensures { result ≡ winner l ids n blocks.now }
{
    // n while none has opened, so that each block takes the same step.
    let mut at = n;
    let listed = &ids[..n];
    // The blocks go by place: std has no law for a zip with chunks.
    for (i, id) in listed.iter().enumerate() {
        let block = octets::part_of(blocks, Answer::INITIAL * i, Answer::INITIAL);
        let hit = opens(l, block, *id);
        at = steps::keep(n, at, i, hit);
    }
    at
}

// The same with the length written out, so that the compiler knows how many bytes it goes through.
fn first_of_length(l: usize, ids: [KeySetId; Reader::IDS], n: usize, blocks: &[u8]) -> usize
    requires { (is_key_length l ≡ true) × (n ≤ 16) × (length blocks.now ≡ 256 * n) }
    ensures { result ≡ winner l ids n blocks.now }
{
    if l == 16 {
        return first(16, ids, n, blocks);
    }
    if l == 24 {
        return first(24, ids, n, blocks);
    }
    first(32, ids, n, blocks)
}

// What the entry at a place has to hand back.
fn handed(l: usize, id: KeySetId, blocks: &[u8], at: usize) -> Opened
    requires { (l ≤ 32) × (256 * at + 256 ≤ length blocks.now) }
    ensures { result ≡ opened_at l id blocks.now at }
{
    let b = octets::part_of(blocks, Answer::INITIAL * at, Answer::INITIAL);
    let t = text_of(l, b);
    Opened {
        number: 0,
        place: at,
        id: id,
        div_data: octets::block_at(t, 2),
        rnd1: Value::of(octets::part_of(t, 18, l)),
    }
}

// The place of the first entry whose block opens.
fn found(
    l: usize,
    ids: [KeySetId; Reader::IDS],
    count: usize,
    blocks: &[u8],
) -> Result<usize, Refusal>
    ensures number { number_told result ≡ open_number l ids count blocks.now }
    ensures place { IfOk result (λ at. (l ≤ 32) × (at < 16) × (256 * at + 256 ≤ length blocks.now) × (at ≡ winner l ids count blocks.now)) }
{
    if !key_expansion::is_key_length(l) {
        return Err(Refusal::KeyLength);
    }
    if count == 0 {
        return Err(Refusal::Blocks);
    }
    if Reader::IDS < count {
        return Err(Refusal::Blocks);
    }
    if blocks.len() != Answer::INITIAL * count {
        return Err(Refusal::Blocks);
    }
    let at = first_of_length(l, ids, count, blocks);
    if at == count {
        return Err(Refusal::NoneOpens);
    }
    Ok(at)
}

pub fn open(l: usize, ids: [KeySetId; Reader::IDS], count: usize, blocks: &[u8]) -> Opened
    ensures { result ≡ opened l ids count blocks.now }
{
    match found(l, ids, count, blocks) {
        Ok(at) => handed(l, ids[at], blocks, at),
        Err(r) => Opened {
            number: r.number(),
            place: 0,
            id: KeySetId(0),
            div_data: [0u8; 16],
            rnd1: Value::none(),
        },
    }
}
