//! The roof: the three demands of the service, and "one input, one answer", as theorems over what the calls promise.
//! No functions live here: proofs/ says what is promised, and cites the crates below.

#![tactic(auto)]
