// No code: demand 3 of the bytes that go in and the bytes that come back, proved of the definitions, is in specs/ and proofs/.
#![tactic(auto)]
