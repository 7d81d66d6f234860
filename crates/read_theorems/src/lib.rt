// What the reader promises of every file, and of every file that the check accepts, as theorems; no code.
#![tactic(auto)]
