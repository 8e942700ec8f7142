// How many nets and helper pairs a convex board can have: at most 64 together. All of it is in proofs/; there is no code.
#![tactic(auto)]
