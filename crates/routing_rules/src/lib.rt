// What a routing is: definitions, in specs/. There is no code.
#![tactic(auto)]
