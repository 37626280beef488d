// Tally: a list of receipts counted.
#![tactic(auto)]

ghost use Rattle.std.specs.Prelude.{◌≡◌, ℕ, ◌*◌, ◌<◌, ◌≤◌, length, Ok, MatchOption};
ghost use Rattle.lsh.specs.Tabulate.{at};
ghost use Rattle.receipts.specs.Receipt.{receipt_bytes};
ghost use Rattle.receipts.specs.WellFormed.{IsReceipt};
ghost use Rattle.receipts.specs.Kinds.{is_blank, came_before};
ghost use Rattle.receipts.specs.Tally.{most_receipts, receipt_count, receipt_at, receipts, receipts_of, first_malformed, counted, tally_call};
ghost use Rattle.receipts.specs.Numbered.{counts};
ghost use Rattle.tally.specs.Checksum.{checksum};

use finalization::RECEIPT;
use receipts::{Kinds, TallyRefusal};

// The most receipts of a list.
pub const MOST_RECEIPTS: usize = 960;

// A checksum is below this, so that 257 times it and a byte more fit in 64 bits.
const CHECKSUM_BOUND: u64 = 1 << 55;

// Counts the receipts of a list.
#[tactic(auto, unfolding(receipts::specs::Receipt::receipt_bytes, receipts::specs::Tally::most_receipts, receipts::specs::Tally::receipt_count, receipts::specs::Tally::is_bad_length, receipts::specs::Tally::tally_call, receipts::specs::Tally::refused_tally))]
pub fn tally(list: &[u8]) -> Result<Kinds, TallyRefusal>
    ensures { counts result ≡ tally_call list.now }
{
    if list.len() % RECEIPT != 0 || MOST_RECEIPTS * RECEIPT < list.len() {
        return Err(TallyRefusal::NoReceipts);
    }
    if let Some(place) = first_malformed(list) {
        return Err(TallyRefusal::Malformed {
            place: place as u64,
        });
    }
    Ok(count(list))
}

// The receipt at place i of a list.
#[tactic(auto, unfolding(receipts::specs::Receipt::receipt_bytes, receipts::specs::Tally::receipt_count))]
fn receipt_at(list: &[u8], i: usize) -> &[u8]
    requires { i < receipt_count list.now }
    ensures { result.now ≡ receipt_at list.now i }
{
    &list[i * RECEIPT..(i + 1) * RECEIPT]
}

// The place of the first malformed receipt, if there is one.
#[tactic(auto, unfolding(receipts::specs::Receipt::receipt_bytes, receipts::specs::Tally::receipt_count))]
fn first_malformed(list: &[u8]) -> Option<usize>
    ensures { MatchOption result (receipt_count list.now ≤ first_malformed list.now 0 (receipt_count list.now)) (λ i. (i ≡ first_malformed list.now 0 (receipt_count list.now)) × (i < receipt_count list.now)) }
{
    for i in 0..list.len() / RECEIPT {
        if !same::is_well_formed(receipt_at(list, i)) {
            return Some(i);
        }
    }
    None
}

// The counts of a list of well-formed receipts.
#[tactic(auto, unfolding(receipts::specs::Receipt::receipt_bytes, receipts::specs::Tally::receipt_count, receipts::specs::Tally::most_receipts))]
fn count(list: &[u8]) -> Kinds
    requires { (length list.now ≤ most_receipts * receipt_bytes) × ((j : ℕ) → j < receipt_count list.now → IsReceipt (receipt_at list.now j)) }
    ensures { counts (Ok result) ≡ counted (receipts_of list.now) }
{
    let sums = checksums(list);
    let mut firsts: u64 = 0;
    let mut reprints: u64 = 0;
    let mut blanks: u64 = 0;
    for i in 0..list.len() / RECEIPT {
        if is_blank(receipt_at(list, i)) {
            blanks += 1;
        } else if came_before(list, &sums, i) {
            reprints += 1;
        } else {
            firsts += 1;
        }
    }
    Kinds {
        firsts,
        reprints,
        blanks,
    }
}

// Whether a receipt is that of a message without bits.
#[tactic(auto, unfolding(receipts::specs::Kinds::is_blank))]
fn is_blank(r: &[u8]) -> bool
    requires { length r.now ≡ receipt_bytes }
    ensures { result ≡ is_blank r.now }
{
    same::bit_length_of(r) == 0
}

// Whether the receipt at place i is the same as an earlier one. All bytes are compared only where the checksums agree. The loop is over places, which the
// list of receipts and that of the checksums share, from the last back: a reprint mostly stands near the receipt that it repeats.
#[tactic(auto, unfolding(receipts::specs::Tally::most_receipts))]
fn came_before(list: &[u8], sums: &[u64; MOST_RECEIPTS], i: usize) -> bool
    requires { (i < most_receipts) × (i < receipt_count list.now) × ((j : ℕ) → j ≤ i → IsReceipt (receipt_at list.now j)) × ((j : ℕ) → j ≤ i → at sums.now j ≡ checksum (receipt_at list.now j)) }
    ensures { result ≡ came_before (receipt_at list.now i) (receipts list.now i) }
{
    let sum = sums[i];
    for j in (0..i).rev() {
        if sums[j] == sum && same::all_agree(receipt_at(list, i), receipt_at(list, j)) {
            return true;
        }
    }
    false
}

// The checksum of each receipt.
#[tactic(auto, unfolding(receipts::specs::Receipt::receipt_bytes, receipts::specs::Tally::receipt_count, receipts::specs::Tally::most_receipts))]
fn checksums(list: &[u8]) -> [u64; MOST_RECEIPTS]
    requires { length list.now ≤ most_receipts * receipt_bytes }
    ensures { (j : ℕ) → j < receipt_count list.now → at result j ≡ checksum (receipt_at list.now j) }
{
    let mut sums = [0; MOST_RECEIPTS];
    for i in 0..list.len() / RECEIPT {
        sums[i] = sum_of(receipt_at(list, i));
    }
    sums
}

// The checksum of a receipt.
#[tactic(auto, unfolding(crate::specs::Checksum::checksum, crate::specs::Checksum::checksum_after))]
fn sum_of(r: &[u8]) -> u64
    ensures { result ≡ checksum r.now }
{
    let mut c: u64 = 0;
    for x in r {
        c = (257 * c + u64::from(*x)) % CHECKSUM_BOUND;
    }
    c
}
