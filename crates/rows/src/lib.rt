// A table taken apart into rows is theory: its definitions are in specs/, its theorems in proofs/. It has no code.
#![tactic(auto)]
