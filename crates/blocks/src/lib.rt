// No code: specs/ has the definition of the calls on one block, proofs/ that they undo each other.
#![tactic(auto)]
