// No code: what document 02, §6, says of a table in the other edition, with its theorems, is in specs/ and proofs/.
#![tactic(auto)]
