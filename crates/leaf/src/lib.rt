// One run per leaf: the filter walk for all chambers of a leaf of Q at once, and the ring pairs of the leaf that it leads to.
#![tactic(auto)]

pub mod filter;
pub mod run;
