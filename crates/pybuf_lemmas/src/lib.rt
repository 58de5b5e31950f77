//! Lemmas about lists, numbers, integers, truth values and results, which proofs of every crate may cite. It has no function.
#![tactic(auto)]
