// What rounds promise of every job, as theorems; no code.
#![tactic(auto)]
