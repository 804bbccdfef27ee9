// For each public call: no two outcomes satisfy its promise. The statement is in specs/, a theorem for each call in proofs/. It has no code.
#![tactic(auto)]
