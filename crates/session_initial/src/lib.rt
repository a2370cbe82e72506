//! The first half of the session promise: what a card answers to the command that List makes. No code: theorems in `specs/`.
#![tactic(auto)]
