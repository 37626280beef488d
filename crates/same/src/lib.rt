// Same: two receipts compared, and the form of a receipt.
#![tactic(auto)]

ghost use Rattle.std.specs.Prelude.{◌≡◌, ◌≤◌, length};
ghost use Rattle.limits.specs.Limits.{longest_digest};
ghost use Rattle.receipts.specs.Receipt.{receipt_bytes};
ghost use Rattle.receipts.specs.Parts.{digest_length_of, bit_length_of};
ghost use Rattle.receipts.specs.WellFormed.{unused_zero, zero_after, well_formed, IsReceipt};
ghost use Rattle.receipts.specs.Same.{same_receipt, same_call};
ghost use Rattle.receipts.specs.Numbered.{sameness};

use answers::Refusal;
use finalization::{DIGEST, LENGTH, MOST_BITS, RECEIPT};
use word::Word;

// Whether two receipts are the same.
#[tactic(auto, unfolding(receipts::specs::Receipt::receipt_bytes, receipts::specs::Same::same_call, receipts::specs::Same::is_receipt_long))]
pub fn same(a: &[u8], b: &[u8]) -> Result<bool, Refusal>
    ensures { sameness result ≡ same_call a.now b.now }
{
    if a.len() != RECEIPT || b.len() != RECEIPT {
        return Err(Refusal::NoReceipts);
    }
    if !is_well_formed(a) || !is_well_formed(b) {
        return Err(Refusal::Malformed);
    }
    Ok(all_agree(a, b))
}

// Whether two well-formed receipts are the same: all their bytes agree. That these are RECEIPT is in their form, and tells the compiler how many it compares.
#[tactic(auto, unfolding(receipts::specs::Receipt::receipt_bytes))]
pub fn all_agree(a: &[u8], b: &[u8]) -> bool
    requires { IsReceipt a.now × IsReceipt b.now }
    ensures { result ≡ same_receipt a.now b.now }
{
    buffers::equal_bytes(&a[0..RECEIPT], &b[0..RECEIPT])
}

// Whether as many bytes as a receipt has are a receipt that could have been written.
#[tactic(auto, unfolding(receipts::specs::Receipt::receipt_bytes, receipts::specs::WellFormed::well_formed, receipts::specs::Parts::word_size_of, receipts::specs::Ending::most_bits, limits::specs::Limits::limit))]
pub fn is_well_formed(r: &[u8]) -> bool
    requires { length r.now ≡ receipt_bytes }
    ensures { result ≡ well_formed r.now }
{
    let w = u64::from(r[0]);
    let n = digest_length_of(r);
    runs::is_word_size(w)
        && r[1] == 0
        && runs::is_digest_length(w, n)
        && is_unused_zero(r, n)
        && is_zero_after(r, n)
        && bit_length_of(r) <= MOST_BITS
}

// n of a receipt.
#[tactic(auto, unfolding(receipts::specs::Receipt::receipt_bytes, receipts::specs::Parts::digest_length_of, lsh::specs::Bytes::word_at))]
pub fn digest_length_of(r: &[u8]) -> u64
    requires { length r.now ≡ receipt_bytes }
    ensures { result ≡ digest_length_of r.now }
{
    u64::from(r[2]) + 256 * u64::from(r[3])
}

// The length in bits of the message that a receipt is of.
#[tactic(auto, unfolding(receipts::specs::Receipt::receipt_bytes, receipts::specs::Parts::bit_length_of, lsh::specs::WordSize::lsh512, lsh::specs::WordSize::word_bytes))]
pub fn bit_length_of(r: &[u8]) -> u64
    requires { length r.now ≡ receipt_bytes }
    ensures { result ≡ bit_length_of r.now }
{
    u64::load(r, LENGTH)
}

// Whether the bits of the digest's last byte that it does not use are 0.
#[tactic(auto, unfolding(receipts::specs::Receipt::receipt_bytes, receipts::specs::WellFormed::unused_zero))]
fn is_unused_zero(r: &[u8], n: u64) -> bool
    requires { (length r.now ≡ receipt_bytes) × (n ≤ longest_digest 64) }
    ensures { result ≡ unused_zero r.now n }
{
    n % 8 == 0 || finalization::low_bits(r[DIGEST + (n / 8) as usize], (n % 8) as u32) == 0
}

// Whether each byte between the digest and the length is 0.
#[tactic(auto, unfolding(receipts::specs::Receipt::receipt_bytes, receipts::specs::WellFormed::zero_after))]
fn is_zero_after(r: &[u8], n: u64) -> bool
    requires { (length r.now ≡ receipt_bytes) × (n ≤ longest_digest 64) }
    ensures { result ≡ zero_after r.now n }
{
    let after = DIGEST + ((n + 7) / 8) as usize;
    buffers::zero_from(&r[..LENGTH], after)
}
