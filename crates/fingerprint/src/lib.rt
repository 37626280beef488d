// What `receipt` prints of a file: its receipt, the digest of the receipt alone, or its tag with a key.
#![tactic(auto)]

pub mod reading;

ghost use Rattle.std.specs.Prelude.{◌+◌, ◌-◌, ◌≤◌, length};
ghost use Rattle.receipts.specs.Receipt.{receipt_bytes, digest_place, length_place};

use finalization::{DIGEST, LENGTH, RECEIPT};
use orders::Record;
use program::Program;
use runs::Engine;

// The bytes of the longest digest, which is also the longest tag.
const LONGEST: usize = LENGTH - DIGEST;

// What is printed of a file.
#[derive(Clone, Copy)]
pub struct Fingerprint {
    // The receipt, or the tag at the front.
    bytes: [u8; RECEIPT],
    // The part of the bytes that is printed, by places and not as a slice, since a struct cannot borrow from itself.
    from: usize,
    to: usize,
    // The length of the file in bits.
    pub bits: u64,
    ghost part: { (from ≤ to) × (to ≤ receipt_bytes) },
}

impl Fingerprint {
    // The bytes that are printed.
    #[tactic(auto, unfolding(receipts::specs::Receipt::receipt_bytes))]
    pub fn shown(&self) -> &[u8]
        ensures { length result.now ≤ receipt_bytes }
    {
        &self.bytes[self.from..self.to]
    }

    // The receipt, where one was made.
    pub fn receipt(&self) -> [u8; RECEIPT] {
        self.bytes
    }
}

// What is asked for: the word size, the digest length, whether the digest alone, and whether standard input is read for something else than a file.
#[derive(Clone, Copy)]
pub struct Kind {
    pub w: u64,
    pub n: u64,
    pub digest: bool,
    pub input_taken: bool,
}

// What is printed of the file of a name, with a key its tag; nothing where it cannot be read, which is said. A key is not empty.
pub fn of_file(program: &Program, k: Kind, key: Option<&[u8]>, name: &[u8]) -> Option<Fingerprint> {
    let engine = runs::faster_engine(k.w);
    let opened = started(engine, k.w, k.n, key);
    let r = reading::read_file(program, engine, name, k.input_taken, opened)?;
    Some(match key {
        Some(key) => tagged(engine, r, bits_since(opened.total, r.total), key),
        None => of_record(engine, r, k.digest),
    })
}

// The record to which a file is appended; the empty one where the call is refused.
fn started(engine: Engine, w: u64, n: u64, key: Option<&[u8]>) -> Record {
    let started = match key {
        Some(key) => tag::start(engine, w, n, key),
        None => record::open(engine, w, n),
    };
    match started {
        Ok(step) => step.next,
        Err(_) => record::no_record(),
    }
}

// The receipt of a record, or its digest alone; zeros where the call is refused.
#[tactic(auto, unfolding(receipts::specs::Receipt::receipt_bytes))]
fn of_record(engine: Engine, r: Record, digest_alone: bool) -> Fingerprint {
    let mut receipt = [0u8; RECEIPT];
    let _ = close::close(engine, r, 0, 0, &mut receipt);
    let bits = same::bit_length_of(&receipt);
    if digest_alone {
        return part(receipt, DIGEST, digest_bytes(r.n), bits);
    }
    part(receipt, 0, RECEIPT, bits)
}

// The tag; zeros where the call is refused.
#[tactic(auto, unfolding(receipts::specs::Receipt::receipt_bytes))]
fn tagged(engine: Engine, r: Record, bits: u64, key: &[u8]) -> Fingerprint {
    let mut tag = [0u8; RECEIPT];
    let _ = tag::finish(engine, r, key, &mut tag);
    part(tag, 0, digest_bytes(r.n), bits)
}

// Some of the bytes, from a place on.
#[tactic(auto, unfolding(receipts::specs::Receipt::receipt_bytes))]
fn part(bytes: [u8; RECEIPT], from: usize, size: usize, bits: u64) -> Fingerprint
    requires { from + size ≤ receipt_bytes }
{
    Fingerprint {
        bytes,
        from,
        to: from + size,
        bits,
    }
}

// The bits of what was appended since the record had this total.
fn bits_since(before: u64, total: u64) -> u64 {
    8u64.saturating_mul(total.saturating_sub(before))
}

// The bytes of a digest, or a tag, of n bits, which are not more than the longest has.
pub fn digest_bytes(n: u64) -> usize
    ensures { result ≤ length_place - digest_place }
{
    (n.div_ceil(8) as usize).min(LONGEST)
}
