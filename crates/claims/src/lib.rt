//! The claims, from the load on: demand 3, the session promise, and the edges of document 01. No code: definitions and theorems in `specs/`.
#![tactic(auto)]
