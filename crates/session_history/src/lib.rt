// Whole lists of calls on a session. No code.
#![tactic(auto)]
