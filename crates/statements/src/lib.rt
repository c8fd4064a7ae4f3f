// Both walks over the folded statements of a set: definitions and theorems in specs/; no code here.
#![tactic(auto)]
