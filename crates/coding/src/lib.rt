// The mathematics of binary linear block codes: definitions in specs/, laws in proofs/. No code.
#![tactic(auto)]
