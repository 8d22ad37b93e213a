// Transaction histories and selective undo, without bytes; no code.
#![tactic(auto)]
