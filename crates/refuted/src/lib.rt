//! Wrong readings of the rules, each beside the right one, with a case that tells the two apart: what is promised of the right one, no proof can show of the other.
//! No functions live here.

#![tactic(auto)]
