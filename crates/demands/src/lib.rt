// The promises to the customer: statements in specs/, proofs in proofs/.
#![tactic(auto)]
