// No code: the text of a stack, and that a stack within the limits is read back from its text.
#![tactic(auto)]
