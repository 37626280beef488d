// The laws of bytes, padding and digest bits that the calls on a whole message use (proofs/). There is no code here.
#![tactic(auto)]
