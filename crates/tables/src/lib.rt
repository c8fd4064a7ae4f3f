// Tables: definitions and theorems in specs/; no code here yet.
#![tactic(auto)]
