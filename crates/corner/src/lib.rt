// The theorem: on an even convex board the nets are routable exactly when no cut is overfull. Definitions are in specs/, proofs in proofs/,
// Theorem first; there is no code.
#![tactic(auto)]
