// Definitions and theorems only: a listing is read back.
#![tactic(auto)]
