// No code: what a run of calls shows, what a release log's entries mean, and demand 3 proved of the abstract machine, are in specs/ and proofs/.
#![tactic(auto)]
