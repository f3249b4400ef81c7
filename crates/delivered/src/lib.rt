// No code: the delivered engine as its calls show it, and demand 3 proved of it, are in specs/ and proofs/.
#![tactic(auto)]
