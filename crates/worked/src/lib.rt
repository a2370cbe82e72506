//! Worked examples of the cipher standards, as theorems over the definitions. No code.
#![tactic(auto)]
