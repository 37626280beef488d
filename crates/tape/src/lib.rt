// Demand 3: lists of calls on a record, held to the plain tape of document 01 (specs/, proofs/). There is no code here.
#![tactic(auto)]
