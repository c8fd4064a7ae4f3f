// Trees with Ifs, and what the two walks compute of them: definitions and theorems in specs/; the walks' code follows with request 2.5.
#![tactic(auto)]
