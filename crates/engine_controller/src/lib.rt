// No code: the C calls on lent words as an engine, and that it keeps every claim of the delivered one, are in specs/ and proofs/.
#![tactic(auto)]
