// The small files of docs/RULES.md, section 18, run by computation.
#![tactic(auto)]
