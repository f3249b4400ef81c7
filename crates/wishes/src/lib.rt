// No code: what document 02, §3, says of a wish sheet is in specs/ and proofs/.
#![tactic(auto)]
