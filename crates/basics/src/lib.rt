// What every crate's definitions and proofs stand on: choosing by a test, the first of a table that applies, a test at
// every place, what it means that a promise leaves one outcome, and what proofs by hand share. All of it is in specs/ and proofs/;
// there is nothing to run.
#![tactic(auto)]
