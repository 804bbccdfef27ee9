// What the proofs by hand share, those of functions over a record or a slice of records that is lent: steps of a walk, in proofs/. It has no code.
#![tactic(auto)]
