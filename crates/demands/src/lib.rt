// The three demands on the definitions: statements in specs/, proofs in proofs/; no code.
#![tactic(auto)]
