// What the code of both word sizes has in common: the layout of the step constants and the sub-messages in memory (specs/), and the laws of its loops
// (proofs/). There is no code here.
#![tactic(auto)]
