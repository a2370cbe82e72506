//! Laws of the field that are computed over all its bytes: the inverse, and the two column matrices that undo one another.
#![tactic(auto)]
