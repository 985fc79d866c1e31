// The page that shows a channel's paths: its definition, and the theorems on the paths shown. No code.
#![tactic(auto)]
