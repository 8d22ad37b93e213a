// The example of document 01 in bytes; no code.
#![tactic(auto)]
