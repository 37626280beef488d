// What an order may have. There are no functions here: specs/ has the same figures, and proofs/ their laws.
#![tactic(auto)]

// The most bytes of an order.
pub const LIMIT: usize = 1 << 40;

// The most bytes of a block, those of word size 64.
pub const LONGEST_BLOCK: usize = 256;
