// Grants of steps: what every list of them, and every single one, comes to.
#![tactic(auto)]
