//! Lemmas on the definitions of `rmm_spec`, over these and std alone.
//! It has no functions: what it hands on is its lemmas.
//! They are on texts and their grammars, on places in a history, on granules' tags, on cells held, tables and walks.
//! So `rmm_spec`, which a certifier reads, has definitions and worked examples alone.
//! Proofs of nearly all crates depend on it.
#![tactic(auto)]
