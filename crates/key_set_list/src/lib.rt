//! The caller's lent list of key sets, for the two loads (document 01, "The card"; T-07): no other crate reads the lent structs.
#![tactic(auto)]

ghost use Rattle.std.specs.Prelude.{◌≡◌, get_or};
ghost use Rattle.key_set_list.specs.First.{blank_set, eight_of};

use plaid_types::{Card, KeySet, KeySetId, Value};

// The first eight key sets of a list, and how many it has. What is past the count is not looked at.
#[derive(Clone, Copy)]
pub struct Eight {
    pub sets: [KeySet; Card::KEY_SETS],
    pub count: usize,
}

// What is handed on where the list has no set.
fn blank_set() -> KeySet
    ensures { result ≡ blank_set }
{
    KeySet {
        id: KeySetId(0),
        handle: 0,
        fa_key: Value::none(),
    }
}

// A key set of the list, or `d` past its end.
fn pick(s: &[KeySet], i: usize, d: KeySet) -> KeySet
    ensures { result ≡ get_or s.now i d }
{
    match s.get(i) {
        Some(k) => *k,
        None => d,
    }
}

pub fn first_eight(sets: &[KeySet]) -> Eight
    ensures { result ≡ eight_of sets.now }
{
    let none = blank_set();
    Eight {
        sets: [0, 1, 2, 3, 4, 5, 6, 7].map(|i| pick(sets, i, none)),
        count: sets.len(),
    }
}
