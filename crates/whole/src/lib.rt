// Whole: the receipt of one message.
#![tactic(auto)]

ghost use Rattle.std.specs.Prelude.{◌≡◌, length};
ghost use Rattle.answers.specs.Refusal.{answer_of};
ghost use Rattle.receipts.specs.Whole.{whole_answer, whole_output};

use answers::Refusal;
use runs::Engine;

// Writes the receipt of the message and the top e bits of its last byte, if the call is accepted. What is asked for comes one by one, as C passes it and as
// `whole_answer` and `whole_output` take it.
pub fn whole(
    engine: Engine,
    w: u64,
    n: u64,
    message: &[u8],
    last: u8,
    e: u64,
    output: &mut [u8],
) -> Result<(), Refusal>
    ensures { (answer_of result ≡ whole_answer w n (length message.now) last e (length output.old)) × (output.new ≡ whole_output w n message.now last e output.old) }
{
    answer(w, n, message.len(), last, e, output.len())?;
    let bits = 8 * message.len() as u64 + e;
    let pad = finalization::pad_byte(last, e as u32);
    let t = finalization::message_chain(engine, w, runs::opening(engine, w, n), message, pad);
    finalization::write_receipt(w, n, t, bits, output);
    Ok(())
}

// The tests of a call. Nothing is hashed before they are passed.
#[tactic(auto, unfolding(receipts::specs::Whole::whole_answer, limits::specs::Limits::limit))]
fn answer(w: u64, n: u64, len: usize, last: u8, e: u64, size: usize) -> Result<(), Refusal>
    ensures { answer_of result ≡ whole_answer w n len last e size }
{
    if !runs::is_word_size(w) {
        return Err(Refusal::BadWordSize);
    }
    if !runs::is_digest_length(w, n) {
        return Err(Refusal::BadDigestLength);
    }
    if limits::LIMIT < len {
        return Err(Refusal::TooLong);
    }
    finalization::end_answer(last, e, size)
}
