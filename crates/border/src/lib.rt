// Beyond one sheet: which pairs of a whole can be asked of the part of it that stands in a box. Laws alone, in proofs/. There is no function here.

#![tactic(auto)]
