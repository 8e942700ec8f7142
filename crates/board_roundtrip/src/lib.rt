// A session written as words reads back, and accepted words write back as the same words: laws about the definitions, in specs/.
// There is no code.
#![tactic(auto)]
