// How many edges a routing uses, and how many words it has: laws, in proofs/. There is no code.
#![tactic(auto)]
