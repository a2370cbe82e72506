//! A load of key sets onto a card (document 02, T-07): the table changes, and nothing else does.
#![tactic(auto)]

ghost use Rattle.std.specs.Prelude.{◌≡◌};
ghost use Rattle.key_change.specs.KeyChange.{changed};

use load::Loaded;
use plaid_types::{Card, KeySet};

// The first n key sets in the place of the card's. The number of the fault, and the card as it was; or 0, and the card
// with the new table.
pub fn change(card: Card, sets: [KeySet; Card::KEY_SETS], n: usize) -> Loaded
    ensures { result ≡ changed card sets n }
{
    let l = plaid_types::lawful(card.key_length);
    match load::sets_fault(l, sets, n, false, card.shill_handle) {
        Err(refusal) => Loaded {
            number: refusal.number(),
            card: card,
        },
        Ok(()) => Loaded {
            number: 0,
            card: card.with_sets(load::set_slots(sets, n)),
        },
    }
}
