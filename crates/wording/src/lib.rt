// What document 02, §2, says of the sentences that tell a refusal is in specs/ and proofs/.
#![tactic(auto)]
