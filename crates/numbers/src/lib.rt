// Definitions and lemmas on tests, lists and orders that every layer cites; no code.
#![tactic(auto)]
