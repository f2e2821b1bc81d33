//! Laws of lists that proofs of several crates cite: what stands in a list and where, parts of a list, pairs,
//! orders and sums. It has no code, and all of it stands in `proofs/`.
#![tactic(auto)]
