// The walk of a packed sheet that goes nearest first. What it is is defined in specs/, and what it means is proved in proofs/.
#![tactic(auto)]

pub mod filter;
pub mod order;
pub mod waiting;
