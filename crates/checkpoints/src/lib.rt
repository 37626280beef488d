// No code: specs/ has the definition of a roll of checkpoints and of the calls with one, proofs/ their laws.
#![tactic(auto)]
