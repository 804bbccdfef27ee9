// The bench cases 1 to 10 of document 01, as one table under one statement, in specs/ and proofs/. It has no code.
#![tactic(auto)]
