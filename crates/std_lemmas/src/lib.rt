//! Lemmas on std's lists, Booleans, options and results that std lacks. There is no code here: `proofs` is what
//! the other crates cite.
#![tactic(auto)]
