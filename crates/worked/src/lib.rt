// No code: document 01's worked tables, proved of the definitions, are in specs/ and proofs/.
#![tactic(auto)]
