// No code: the machine that the engine carries out, and the proof that every taken release finishes within its bound, are in specs/ and proofs/.
#![tactic(auto)]
