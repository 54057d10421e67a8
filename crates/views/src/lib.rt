// A round in bytes, the signer's and the verifier's, and the challenge's input: definitions and theorems, no code.
#![tactic(auto)]
