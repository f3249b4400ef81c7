// No code: the definitions and laws of numbers and lists that the other crates share are in specs/ and proofs/.
#![tactic(auto)]
