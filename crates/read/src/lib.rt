// Reading with refusals 3 to 8: definitions and theorems in specs/; the code is in reader.
#![tactic(auto)]
