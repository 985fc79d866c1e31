// Paths over the grid, and the theorem that a placement is drawable exactly if it is legal. There is no code: the crate is its definitions and proofs.
#![tactic(auto)]
