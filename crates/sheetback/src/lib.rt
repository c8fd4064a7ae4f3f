// Reading a sheet back: definitions and theorems in specs/; the code is in page.
#![tactic(auto)]
