// No code: specs/ has the definition of HMAC over LSH and of the calls with a key, proofs/ their laws.
#![tactic(auto)]
