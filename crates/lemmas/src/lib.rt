//! Lemmas on lists, tests, options and results, over std alone.
//! It has no functions: what it hands on is its lemmas.
//! Each stands here once, where proofs of more than one crate cite it.
//! They say nothing of the profile; lemmas on its definitions stand in `spec_lemmas`.
//! Proofs of nearly all crates depend on it.
#![tactic(auto)]
