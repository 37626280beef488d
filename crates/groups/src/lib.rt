// No code: specs/ has the second engine of the LSH paper, which works on four words at a time, proofs/ that it gives the chains of the first.
#![tactic(auto)]
