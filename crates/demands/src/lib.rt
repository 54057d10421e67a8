// Statements and proofs only: what the calls together are worth.
#![tactic(auto)]
