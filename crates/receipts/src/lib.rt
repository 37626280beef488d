// What Same and Tally answer. There are no functions here: specs/ has the definitions of receipts and of the calls on them, and proofs/ their laws.
#![tactic(auto)]

// How many receipts of a list are firsts, reprints and blanks.
#[derive(Clone, Copy, Debug, PartialEq, Eq)]
pub struct Kinds {
    pub firsts: u64,
    pub reprints: u64,
    pub blanks: u64,
}

// Why a list is not counted: it is none of whole receipts or has too many, or the receipt at a place, counted from 0, is the first that is malformed.
#[derive(Clone, Copy, Debug, PartialEq, Eq)]
pub enum TallyRefusal {
    NoReceipts,
    Malformed { place: u64 },
}

// The answer to Same: its number, and whether the two receipts are the same. C has it as lsh_sameness.
#[repr(C)]
#[derive(Clone, Copy)]
pub struct Sameness {
    pub number: u32,
    pub same: bool,
}

// The answer to Tally: its number, the place of the first malformed receipt if the number is 14, and the counts. C has it as lsh_counts.
#[repr(C)]
#[derive(Clone, Copy)]
pub struct Counts {
    pub number: u32,
    pub place: u64,
    pub firsts: u64,
    pub reprints: u64,
    pub blanks: u64,
}
