// Folding and propagation: definitions and theorems in specs/; the code is in folding and passes.
#![tactic(auto)]
