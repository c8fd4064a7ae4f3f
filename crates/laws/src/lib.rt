// Laws of integers, lists and Booleans: definitions and theorems in specs/; no code here yet.
#![tactic(auto)]
