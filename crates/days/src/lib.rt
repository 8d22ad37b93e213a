// The worked days of documents 01 and 02, as theorems; no code.
#![tactic(auto)]
