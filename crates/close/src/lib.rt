// Close: the receipt of the bytes of a record.
#![tactic(auto)]

ghost use Rattle.std.specs.Prelude.{◌≡◌, true, ◌+◌, ◌-◌, ◌/◌, ◌%◌, ◌^◌, ◌≤◌, length, take};
ghost use Rattle.lsh.specs.WordSize.{size_of};
ghost use Rattle.lsh.specs.Block.{Chain};
ghost use Rattle.lsh.specs.Bits.{bytes_of_bits};
ghost use Rattle.lsh.specs.Hash.{digest};
ghost use Rattle.answers.specs.Refusal.{answer_of};
ghost use Rattle.orders.specs.Record.{sound};
ghost use Rattle.receipts.specs.Close.{close_answer, closed_digest, close_output};

use answers::Refusal;
use limits::LONGEST_BLOCK;
use orders::Record;
use runs::Engine;

// Writes the receipt of the record's bytes and the top e bits of the last byte, if the call is accepted. The record is not changed, so
// more can be appended to it.
pub fn close(engine: Engine, r: Record, last: u8, e: u64, output: &mut [u8]) -> Result<(), Refusal>
    ensures { (answer_of result ≡ close_answer r last e (length output.old)) × (output.new ≡ close_output r last e output.old) }
{
    answer(r, last, e, output.len())?;
    let bits = 8 * r.total + e;
    let t = final_chain(engine, r, last, e as u32);
    finalization::write_receipt(r.w, r.n, t, bits, output);
    Ok(())
}

// The bytes of the digest that the record gives without extra bits, and others after them.
pub fn digest_bytes(engine: Engine, r: Record) -> [u8; LONGEST_BLOCK]
    requires { sound r ≡ true }
    ensures { take ((r.n + 7) / 8) result ≡ bytes_of_bits (closed_digest r 0 0) }
{
    finalization::digest_bytes(r.w, r.n, final_chain(engine, r, 0, 0))
}

// The tests of a call. Nothing is hashed before they are passed.
#[tactic(auto, unfolding(receipts::specs::Close::close_answer))]
fn answer(r: Record, last: u8, e: u64, size: usize) -> Result<(), Refusal>
    ensures { answer_of result ≡ close_answer r last e size }
{
    if !record::is_sound(r) {
        return Err(Refusal::UnsoundRecord);
    }
    finalization::end_answer(last, e, size)
}

// The chain after the last block, which is the bytes held and the top e bits of the last byte, padded.
fn final_chain(engine: Engine, r: Record, last: u8, e: u32) -> [u64; 16]
    requires { (sound r ≡ true) × (e ≤ 7) × (last % 2 ^ (8 - e) ≡ 0) }
    ensures { Chain (size_of r.w) result × (digest (size_of r.w) r.n result ≡ closed_digest r last e) }
{
    let pad = finalization::pad_byte(last, e);
    let at = record::held_length(r.w, r.total);
    finalization::last_chain(engine, r.w, r.chain, &r.held[..at], pad)
}
