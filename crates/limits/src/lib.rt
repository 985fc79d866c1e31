// A channel's limits on the offset, and that it is feasible exactly if the offset is between them: specs/ and proofs/. No code.
#![tactic(auto)]
