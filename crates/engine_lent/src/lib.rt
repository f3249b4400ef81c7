// No code: what the C calls on lent words answer and leave behind, and that a row of them is a row of the engine's calls, are in specs/ and proofs/.
#![tactic(auto)]
