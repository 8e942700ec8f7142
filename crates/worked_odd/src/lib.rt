// The board of document 02, §4, and the revised cut condition of document 004: in specs/, cases in proofs/. There is no code.
#![tactic(auto)]
