//! T-05's round trips, one claim over the exported conversions. No code: definitions and theorems in `specs/`.
#![tactic(auto)]
