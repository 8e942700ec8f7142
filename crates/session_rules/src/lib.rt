// The session and its list machine: definitions, in specs/. There is no code.
#![tactic(auto)]
