// Walks by hand that the proofs of more than one crate take, over any types. All of it is in proofs/; there is nothing to run.
#![tactic(auto)]
