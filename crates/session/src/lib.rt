//! The session promise of demand 2, whole. No code: definitions and theorems in `specs/`.
#![tactic(auto)]
