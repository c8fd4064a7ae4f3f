// What holds of every accepted set and every answer, and what no other crate cites: theorems in specs/; no code here.
#![tactic(auto)]
