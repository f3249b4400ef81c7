// No code: from a table to a plan and back, and from a plan to its bytes and back, proved of the definitions, are in specs/ and proofs/.
#![tactic(auto)]
