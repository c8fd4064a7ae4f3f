// What refusals 9, 10 and 11 leave is kept by folding: theorems in specs/; no code here.
#![tactic(auto)]
