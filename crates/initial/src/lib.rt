//! The initial command: the places of its list against the key sets of a card, and the block that answers it.
#![tactic(auto)]

ghost use Rattle.std.specs.Prelude.{◌≡◌, cond, ◌-◌, ◌<◌, ◌≤◌, eqb, length, is_ok};
ghost use Rattle.octets.specs.Lists.{part, over};
ghost use Rattle.plaid_types.specs.Keys.{str1_length};
ghost use Rattle.frame.specs.Declines.{pad_bytes};
ghost use Rattle.list.specs.Ber.{entry_id, next_place, start_of};
ghost use Rattle.initial.specs.Initial.{str1, opened_with, initial_reply};
ghost use Rattle.initial.specs.Told.{slots_found, data_found, head_of, told_initial};

use list::{Cursor, Entry};
use plaid_types::{Answer, Card, KeySetId, KeySetSlot, Session};
use work::Made;

// A place against all eight slots, with no early end: where the first match is.
// 8 is for none: `steps::keep` works with that number, in as many instructions whatever it finds.
fn compare_slots(
    sets: [KeySetSlot; Card::KEY_SETS],
    present: bool,
    v: KeySetId,
    sum: u32,
) -> Made<usize>
    ensures { result ≡ slots_found present v sets sum }
{
    let mut at = Card::KEY_SETS;
    let mut s = sum;
    let mut count: usize = 0;
    for (i, k) in sets.iter().enumerate() {
        let c = steps::compare_sets(present, v, k.held, k.id, s);
        s = c.sum;
        count += c.count;
        at = steps::keep(Card::KEY_SETS, at, i, c.value);
    }
    Made {
        value: at,
        count,
        sum: s,
    }
}

// The first entry that the card holds wins, not the first slot.
fn first_of(at: usize, f: usize) -> usize
    ensures { result ≡ cond (eqb at 8) f at }
{
    if at == Card::KEY_SETS { f } else { at }
}

// Where the look for entries starts: for a malformed list, which has only missing places, after the data, where none is read.
fn first_place(first: Result<usize, usize>, end: usize) -> usize
    ensures { result ≡ cond (is_ok first) (start_of first) end }
{
    match first {
        Ok(p) => p,
        Err(_) => end,
    }
}

// The KeySetID of a place; 0 for a missing one, which never matches.
fn id_of(e: Option<Entry>) -> KeySetId
    ensures { result ≡ entry_id e }
{
    e.map_or(KeySetId(0), |e| e.id)
}

// The place after an entry; a missing one is not passed.
fn place_after(e: Option<Entry>, at: usize) -> usize
    ensures { result ≡ next_place at e }
{
    e.map_or(at, |e| e.next)
}

// Every place of the list against every slot, missing places and empty slots too.
fn compare_places(sets: [KeySetSlot; Card::KEY_SETS], d: &[u8]) -> Made<usize>
    requires { length d.now < 256 }
    ensures { result ≡ data_found sets d.now }
{
    let first = list::parse(d);
    let formed = first.is_ok();
    let mut p = first_place(first, d.len());
    let n = d.len() / 4;
    let mut at = Card::KEY_SETS;
    let mut s: u32 = 0;
    let mut count: usize = 0;
    for _ in 0..n {
        let c = Cursor { list: d, at: p };
        let e = c.step();
        let present = e.is_some();
        let f = compare_slots(sets, octets::both(formed, present), id_of(e), s);
        s = f.sum;
        count += f.count;
        at = first_of(at, f.value);
        p = place_after(e, p);
    }
    Made {
        value: at,
        count,
        sum: s,
    }
}

// The fresh bytes behind F.
fn pad_bytes(l: usize, fresh: &[u8]) -> &[u8]
    requires { (l ≤ 32) × (length fresh.now ≡ 253) }
    ensures { result.now ≡ pad_bytes l fresh.now }
{
    let from = plaid_types::str1_length(l);
    &fresh[from..]
}

// Where STR1 starts, or F in its place: they end where the answer does.
fn text_at(l: usize) -> usize
    requires { l ≤ 32 }
    ensures { result ≡ 256 - str1_length l }
{
    Answer::INITIAL - plaid_types::str1_length(l)
}

// What stands before STR1: 00 02, the pad bytes, 00.
fn head(l: usize, fresh: &[u8], out: &mut [u8])
    requires { (l ≤ 32) × (length fresh.now ≡ 253) × (256 ≤ length out.old) }
    ensures { out.new ≡ over out.old 0 (head_of l fresh.now) }
{
    let start = [0u8, 2];
    octets::copy_at(out, 0, &start);
    octets::copy_at(out, 2, pad_bytes(l, fresh));
    let end = [0u8];
    octets::copy_at(out, text_at(l) - 1, &end);
}

// STR1 of an accepted command: KeySetID, DivData, RND1, RND1.
fn str1(id: KeySetId, div: [u8; 16], rnd1: &[u8], out: &mut [u8])
    requires { (length rnd1.now ≤ 32) × (256 ≤ length out.old) }
    ensures { out.new ≡ over out.old (256 - str1_length (length rnd1.now)) (str1 id div rnd1.now) }
{
    let at = text_at(rnd1.len());
    let number = id.0.to_be_bytes();
    octets::copy_at(out, at, &number);
    octets::copy_at(out, at + 2, &div);
    octets::copy_at(out, at + 18, rnd1);
    octets::copy_at(out, at + 18 + rnd1.len(), rnd1);
}

// An accepted command's STR1, and the session that it opens, with the slot's FAKey (T-07). RND1 is copied once, into the session's 32 bytes, and
// STR1 is written from there.
fn opened(l: usize, k: KeySetSlot, div: [u8; 16], fresh: &[u8], out: &mut [u8]) -> Session
    requires { (l ≤ 32) × (length fresh.now ≡ 253) × (256 ≤ length out.old) }
    ensures value { result ≡ opened_with k (part fresh.now 0 l) }
    ensures out_after { out.new ≡ over out.old (256 - str1_length l) (str1 k.id div (part fresh.now 0 l)) }
{
    let id = k.id;
    let fa_key = k.fa_key;
    let rnd1 = plaid_types::wide(octets::part_of(fresh, 0, l));
    str1(id, div, &rnd1[..l], out);
    Session {
        opened: true,
        id: id,
        rnd1: rnd1,
        fa_key: fa_key,
    }
}

// The same. Of the shortest keys the compiler is told the length, so that it knows how many bytes it writes.
fn opened_of_length(l: usize, k: KeySetSlot, div: [u8; 16], fresh: &[u8], out: &mut [u8]) -> Session
    requires { (l ≤ 32) × (length fresh.now ≡ 253) × (256 ≤ length out.old) }
    ensures value { result ≡ opened_with k (part fresh.now 0 l) }
    ensures out_after { out.new ≡ over out.old (256 - str1_length l) (str1 k.id div (part fresh.now 0 l)) }
{
    if l == 16 {
        return opened(16, k, div, fresh, out);
    }
    opened(l, k, div, fresh, out)
}

// What an initial command hands back beside the bytes of its answer.
#[derive(Clone, Copy)]
pub struct Initial {
    pub handle: u8,
    pub comparisons: usize,
    pub length: usize,
    pub sum: u32,
    pub session: Session,
}

// An initial command of data d behind the checks of its frame.
pub fn run(card: Card, d: &[u8], fresh: &[u8], out: &mut [u8]) -> Initial
    requires { (length d.now < 256) × (length fresh.now ≡ 253) × (256 ≤ length out.old) }
    ensures value { result ≡ told_initial (initial_reply card d.now fresh.now) }
    ensures out_after { out.new ≡ over out.old 0 (initial_reply card d.now fresh.now).bytes }
{
    let l = plaid_types::lawful(card.key_length);
    let sets = card.sets;
    let f = compare_places(sets, d);
    head(l, fresh, out);
    let at = f.value;
    if at < Card::KEY_SETS {
        let k = sets[at];
        let div = card.div_data;
        return Initial {
            handle: k.handle,
            comparisons: f.count,
            length: Answer::INITIAL,
            sum: f.sum,
            session: opened_of_length(l, k, div, fresh, out),
        };
    }
    octets::copy_at(
        out,
        text_at(l),
        octets::part_of(fresh, 0, plaid_types::str1_length(l)),
    );
    let was = card.session;
    let closed = was.close();
    Initial {
        handle: card.shill_handle,
        comparisons: f.count,
        length: Answer::INITIAL,
        sum: f.sum,
        session: closed,
    }
}
