// No code: what the library promises stands in specs/, and why it is kept in proofs/.
#![tactic(auto)]
