// What reading, writing, judging and routing answer: definitions, in specs/. There is no code.
#![tactic(auto)]
