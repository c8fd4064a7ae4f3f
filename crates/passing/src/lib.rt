// The theorem that ties the check of a roster to the answer of the call stands in specs/.
#![tactic(auto)]
