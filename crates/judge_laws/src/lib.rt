// When a list of routing words passes: laws, in specs/. There is no code.
#![tactic(auto)]
