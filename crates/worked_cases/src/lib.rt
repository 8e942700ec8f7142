// The table "Boards to be proved" and examples of every definition: boards in specs/, cases in proofs/. There is no code.
#![tactic(auto)]
