// No code: what the calls answer and leave for worked tables, proved of the definitions, is in specs/ and proofs/.
#![tactic(auto)]
