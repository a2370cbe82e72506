//! Rules for proofs by hand, for the functions that the borrow checker does not cover. No code: theorems in `specs/`.
#![tactic(auto)]
