// No code: what a log run keeps beside the machine, and that each part of its code keeps it so, are in specs/ and proofs/.
#![tactic(auto)]
