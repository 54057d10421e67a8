// The bytes of a signature and of its unpacked form: definitions and theorems, no code.
#![tactic(auto)]
