// The copy of any site of a sound table can be written as a site file: mathematics, in proofs/.
#![tactic(auto)]
