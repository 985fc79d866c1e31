// What shows the promises to be the right ones: results follow from the inputs alone, the specimens, and wrong versions. No code: definitions and proofs.
#![tactic(auto)]
