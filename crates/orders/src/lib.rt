//! The roof of the depot: what its slice holds, whatever is lost, repeated or reordered on the way, as theorems over what the calls promise.
//! No functions live here: proofs/ says what is promised, and cites the crates below.

#![tactic(auto)]
