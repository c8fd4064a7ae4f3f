// AllDifferent: definitions and theorems in specs/; no code here.
#![tactic(auto)]
