// The definition of LSH (specs/) and its laws (proofs/). There is no code here.
#![tactic(auto)]
