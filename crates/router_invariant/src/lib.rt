// Each corner step, as the arrays are written, keeps the invariant of the router. It is in specs/, Run first, and in proofs/, Step first; there
// is no code.
#![tactic(auto)]
