// No code: specs/ says when lists of numbers are equal, below a bound or filled with zeros, which elements stand in a list and how many of them pass a
// test; proofs/ has the laws of this.
#![tactic(auto)]
