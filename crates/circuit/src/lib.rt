// Definitions and laws only: LowMC over bits.
#![tactic(auto)]
