// Why a call refuses. There are no functions here: specs/ gives the refusals their numbers, and says which of two answers a call gives and what it leaves in the
// output that it is lent; proofs/ has their laws, and what an accepted call says of its tests.
#![tactic(auto)]

// Why a call refuses. include/lsh_kiosk.h has the same names and numbers, and says in `lsh_meaning` what each means.
#[derive(Clone, Copy, Debug, PartialEq, Eq)]
pub enum Refusal {
    BadWordSize = 1,
    BadDigestLength = 2,
    UnsoundRecord = 3,
    BadLength = 4,
    TooLong = 5,
    BadStart = 6,
    BadKeep = 7,
    HeldDiffer = 8,
    OpeningDiffers = 9,
    BadExtraBits = 10,
    BadLastByte = 11,
    ShortOutput = 12,
    NoReceipts = 13,
    Malformed = 14,
    BadRoll = 15,
    FullRoll = 16,
    OutOfTurn = 17,
    NoWholeBytes = 18,
}
