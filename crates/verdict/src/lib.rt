// The check of a roster: definition and theorems in specs/; the code is in evaluate.
#![tactic(auto)]
