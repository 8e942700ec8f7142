// How many pins a convex board has: definitions in specs/, laws in proofs/, Law first. There is no code.
#![tactic(auto)]
