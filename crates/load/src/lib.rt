//! The load of a card (document 01, "The card").
#![tactic(auto)]

ghost use Rattle.std.specs.Prelude.{◌≡◌, not, ◌||◌, [], map, ℕ, ◌+◌, ◌<◌, ◌≤◌, eqb, length, take, drop, get_or};
ghost use Rattle.refusals.specs.Numbers.{number_told};
ghost use Rattle.plaid_types.specs.Keys.{wide, bytes_of, of_length};
ghost use Rattle.plaid_types.specs.Cards.{no_set, no_mode};
ghost use Rattle.load.specs.Load.{
  past_set,
  some,
  repeated,
  wrong_keys,
  with_handle,
  bad_record,
  reply_size_for,
  largest_size,
  modes_refusal,
  sets_refusal,
  refusal,
  filled,
  set_slot,
  table_of,
  mode_slot,
  blank_card,
  loaded,
};

use plaid_types::{
    Card, KeySet, KeySetId, KeySetSlot, Mode, ModeSlot, OpModeId, Session, Tries, Value,
};
use refusals::Refusal;

// The number of the fault, and a blank card, or by T-07 the card as it was; or 0, and the card.
#[repr(C)]
#[derive(Clone, Copy)]
pub struct Loaded {
    pub number: u8,
    pub card: Card,
}

// Whether one of the numbers is repeated.
pub fn repeats(ids: &[u16]) -> bool
    ensures { result ≡ repeated ids.now }
{
    for (i, x) in ids.iter().enumerate() {
        if ids[i + 1..].contains(x) {
            return true;
        }
    }
    false
}

// One that says it has more bytes than it can hold has another length too.
fn wrong_length(l: usize, key: Value) -> bool
    ensures { result ≡ not (of_length l key) }
{
    key.length as usize != l
}

// Whether one of the sets has a key of another length. Every set is looked at.
fn wrong_keys(l: usize, sets: &[KeySet]) -> bool
    ensures { result ≡ wrong_keys l sets.now }
{
    sets.iter()
        .fold(false, |wrong, k| wrong | wrong_length(l, k.fa_key))
}

// Whether one of the sets has the handle.
fn with_handle(handle: u8, sets: &[KeySet]) -> bool
    ensures { result ≡ with_handle handle sets.now }
{
    sets.iter()
        .fold(false, |with, k| with | (k.handle == handle))
}

// The end of a record is not computed: it may not fit.
fn bad_record(m: Mode, area: usize) -> bool
    ensures { result ≡ bad_record area m }
{
    m.len == 0 || Card::RECORD < m.len || area < m.len || area - m.len < m.start
}

fn bad_records(modes: &[Mode], area: usize) -> bool
    ensures { result ≡ some (bad_record area) modes.now }
{
    modes
        .iter()
        .fold(false, |bad, m| bad | bad_record(*m, area))
}

// floor((len + 16)/16) + 1, so written that no sum overflows.
fn reply_size(m: Mode) -> usize
    ensures { result ≡ reply_size_for m.len }
{
    padding::blocks_for(m.len) + 1
}

// The largest reply size that one of the modes needs.
fn largest_size(modes: &[Mode]) -> usize
    ensures { result ≡ largest_size modes.now }
{
    modes.iter().fold(0, |size, m| size.max(reply_size(*m)))
}

fn modes_fault(modes: [Mode; Card::MODES], n: usize, area: usize) -> Result<(), Refusal>
    ensures { number_told result ≡ modes_refusal modes n area }
{
    if n == 0 || Card::MODES < n {
        return Err(Refusal::ModeCount);
    }
    let ids = modes.map(|m| m.id.0);
    if repeats(&ids[..n]) {
        return Err(Refusal::ModeRepeated);
    }
    if Card::AREA < area || bad_records(&modes[..n], area) {
        return Err(Refusal::Record);
    }
    Ok(())
}

// The checks of the first n key sets; `other` is whether a key that is given with them has another length.
pub fn sets_fault(
    l: usize,
    sets: [KeySet; Card::KEY_SETS],
    n: usize,
    other: bool,
    handle: u8,
) -> Result<(), Refusal>
    ensures { number_told result ≡ sets_refusal l sets n other handle }
{
    if n == 0 || Card::KEY_SETS < n {
        return Err(Refusal::KeySetCount);
    }
    let keys = wrong_keys(l, &sets[..n]);
    let wrong = keys | other;
    if wrong {
        return Err(Refusal::ValueLength);
    }
    let ids = sets.map(|k| k.id.0);
    if repeats(&ids[..n]) {
        return Err(Refusal::KeySetRepeated);
    }
    if with_handle(handle, &sets[..n]) {
        return Err(Refusal::ShillHandle);
    }
    Ok(())
}

fn fault(
    l: usize,
    sets: [KeySet; Card::KEY_SETS],
    n: usize,
    modes: [Mode; Card::MODES],
    m: usize,
    area: usize,
    key: Value,
    handle: u8,
) -> Result<(), Refusal>
    ensures { number_told result ≡ refusal l sets n modes m area key handle }
{
    if !key_expansion::is_key_length(l) {
        return Err(Refusal::KeyLength);
    }
    sets_fault(l, sets, n, wrong_length(l, key), handle)?;
    modes_fault(modes, m, area)
}

const NO_SET: KeySetSlot = KeySetSlot {
    held: false,
    id: KeySetId(0),
    handle: 0,
    fa_key: [0u8; Value::MOST],
};

const NO_MODE: ModeSlot = ModeSlot {
    held: false,
    id: OpModeId(0),
    start: 0,
    len: 0,
};

fn empty_sets() -> [KeySetSlot; Card::KEY_SETS]
    ensures { result ≡ filled 8 no_set [] }
{
    [NO_SET; Card::KEY_SETS]
}

fn empty_modes() -> [ModeSlot; Card::MODES]
    ensures { result ≡ filled 16 no_mode [] }
{
    [NO_MODE; Card::MODES]
}

fn empty_area() -> [u8; Card::AREA]
    ensures { result ≡ filled 1024 0 [] }
{
    [0u8; Card::AREA]
}

// A key's bytes, with zeros after them. The first 16, which every key has, are copied without a call.
fn wide(key: Value) -> [u8; Value::MOST]
    requires { (16 ≤ key.length) × (key.length ≤ 32) }
    ensures { result ≡ wide (bytes_of key) }
{
    let bytes = key.bytes;
    let n = key.length as usize;
    let mut all = [0u8; Value::MOST];
    octets::copy_at(&mut all, 0, &bytes[..16]);
    octets::copy_at(&mut all, 16, &bytes[16..n]);
    all
}

fn set_slot(k: KeySet) -> KeySetSlot
    requires { (16 ≤ k.fa_key.length) × (k.fa_key.length ≤ 32) }
    ensures { result ≡ set_slot k }
{
    KeySetSlot {
        held: true,
        id: k.id,
        handle: k.handle,
        fa_key: wide(k.fa_key),
    }
}

fn mode_slot(m: Mode) -> ModeSlot
    ensures { result ≡ mode_slot m }
{
    ModeSlot {
        held: true,
        id: m.id,
        start: m.start,
        len: m.len,
    }
}

// The table of the first n key sets.
pub fn set_slots(sets: [KeySet; Card::KEY_SETS], n: usize) -> [KeySetSlot; Card::KEY_SETS]
    requires { (n ≤ 8) × ((i : ℕ) → i < n → (16 ≤ (get_or sets i past_set).fa_key.length) × ((get_or sets i past_set).fa_key.length ≤ 32)) }
    ensures { result ≡ table_of (take n sets) }
{
    let mut slots = empty_sets();
    for (i, k) in sets[..n].iter().enumerate() {
        slots[i] = set_slot(*k);
    }
    slots
}

// The table of the first n modes.
fn mode_slots(modes: &[Mode]) -> [ModeSlot; Card::MODES]
    requires { length modes.now ≤ 16 }
    ensures { result ≡ filled 16 no_mode (map mode_slot modes.now) }
{
    let mut slots = empty_modes();
    for (i, m) in modes.iter().enumerate() {
        slots[i] = mode_slot(*m);
    }
    slots
}

fn copied(area: &[u8]) -> [u8; Card::AREA]
    requires { length area.now ≤ 1024 }
    ensures { result ≡ filled 1024 0 area.now }
{
    let mut whole = empty_area();
    octets::copy_at(&mut whole, 0, area);
    whole
}

// What a refused load returns in the place of a card.
pub fn blank() -> Card
    ensures { result ≡ blank_card }
{
    Card {
        sets: empty_sets(),
        modes: empty_modes(),
        area: empty_area(),
        div_data: [0u8; 16],
        shill_key: [0u8; Value::MOST],
        shill_handle: 0,
        key_length: 0,
        reply_size: 0,
        session: Session::none(),
        tries: Tries::none(),
    }
}

// A card with keys of l bytes, from the first n key sets and the first m modes.
pub fn load(
    l: usize,
    sets: [KeySet; Card::KEY_SETS],
    n: usize,
    modes: [Mode; Card::MODES],
    m: usize,
    area: &[u8],
    div_data: [u8; 16],
    shill_key: Value,
    shill_handle: u8,
) -> Loaded
    ensures { result ≡ loaded l sets n modes m area.now div_data shill_key shill_handle }
{
    match fault(l, sets, n, modes, m, area.len(), shill_key, shill_handle) {
        Err(refusal) => Loaded {
            number: refusal.number(),
            card: blank(),
        },
        Ok(()) => {
            let given = &modes[..m];
            Loaded {
                number: 0,
                card: Card {
                    sets: set_slots(sets, n),
                    modes: mode_slots(given),
                    area: copied(area),
                    div_data: div_data,
                    shill_key: wide(shill_key),
                    shill_handle: shill_handle,
                    key_length: l,
                    reply_size: largest_size(given),
                    session: Session::none(),
                    tries: Tries::none(),
                },
            }
        }
    }
}
