// The record of an order, and what a call on it answers. There are no functions here: specs/ has the definitions of the calls that change an order, and
// proofs/ their laws.
#![tactic(auto)]

use limits::LONGEST_BLOCK;

// What is kept of an order between calls: the word size, the digest length in bits, how many bytes there were, the chain after
// their whole blocks, the bytes held since, and how far a split rewind is. C has it by value, as lsh_record.
#[repr(C)]
#[derive(Clone, Copy)]
pub struct Record {
    pub w: u64,
    pub n: u64,
    pub total: u64,
    pub chain: [u64; 16],
    pub held: [u8; LONGEST_BLOCK],
    pub split: Split,
}

// A split rewind: the mark, 0 or 1 once begun, the second chain, which is run back so far, the bytes handed back last, and the number of
// blocks handed back. C has these as the last fields of lsh_record.
#[repr(C)]
#[derive(Clone, Copy)]
pub struct Split {
    pub mark: u64,
    pub second: [u64; 16],
    pub back: [u8; LONGEST_BLOCK],
    pub blocks: u64,
}

// What an accepted call gives: how many blocks were run, and the record that follows.
#[derive(Clone, Copy)]
pub struct Step {
    pub count: u64,
    pub next: Record,
}

// The answer to a call: its number, how many blocks were run, and the record that follows. C has it as lsh_outcome.
#[repr(C)]
#[derive(Clone, Copy)]
pub struct Outcome {
    pub number: u32,
    pub count: u64,
    pub next: Record,
}
