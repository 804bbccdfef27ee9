// The tie of a table to the ledger is theory: its definitions are in specs/, its theorems in proofs/, and README.md lists them. It has no code.
#![tactic(auto)]
