// Worked instances of the statements of `demands` and of the report, as theorems; no code.
#![tactic(auto)]
