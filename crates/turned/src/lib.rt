// The card turned over: upside down and left to right the least totals are the same; paths kept inside the spread change no total; the top strip's positions have
// no gaps. No code: definitions and proofs, none of which speaks of how totals are found.
#![tactic(auto)]
