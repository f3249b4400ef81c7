// No code: the words of a state, the state that words say, and that each is the other's inverse, are in specs/ and proofs/.
#![tactic(auto)]
