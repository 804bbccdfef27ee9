// Demand 3 is mathematics, in specs/ and proofs/: over any run from a fresh table.
#![tactic(auto)]
