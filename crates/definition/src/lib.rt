// The definition of the bounded fit stands in specs/, its theorems in proofs/.
#![tactic(auto)]
