//! The second half of the session promise: what a card answers to the command that Seal makes. No code: theorems in `specs/`.
#![tactic(auto)]
