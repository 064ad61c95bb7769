// The extended Golay code (24,12): its definition in specs/, its computed facts in proofs/. No code.
#![tactic(auto)]
