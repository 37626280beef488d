// Why the calls with a key refuse, by w, n, the lengths of the key and the message, and the size of the output.
#![tactic(auto)]

ghost use Rattle.std.specs.Prelude.{◌≡◌};
ghost use Rattle.answers.specs.Refusal.{answer_of};
ghost use Rattle.tags.specs.KeyAnswer.{key_answer, room_answer, tag_answer, finish_answer};

use answers::Refusal;
use orders::Record;

// The tests for one message. Nothing is hashed before they are passed.
#[tactic(auto, unfolding(answers::specs::First::first, tags::specs::KeyAnswer::tag_answer))]
pub fn answer(w: u64, n: u64, key: usize, message: usize, size: usize) -> Result<(), Refusal>
    ensures { answer_of result ≡ tag_answer w n key message size }
{
    key_answer(w, n, key, message)?;
    room_answer(n, size)
}

// The tests of w, n and the lengths of the key and the message.
#[tactic(auto, unfolding(tags::specs::KeyAnswer::key_answer, tags::specs::KeyAnswer::is_whole_bytes, limits::specs::Limits::limit))]
pub fn key_answer(w: u64, n: u64, key: usize, message: usize) -> Result<(), Refusal>
    ensures { answer_of result ≡ key_answer w n key message }
{
    if !runs::is_word_size(w) {
        return Err(Refusal::BadWordSize);
    }
    if !runs::is_digest_length(w, n) {
        return Err(Refusal::BadDigestLength);
    }
    if n % 8 != 0 {
        return Err(Refusal::NoWholeBytes);
    }
    if limits::LIMIT < key || limits::LIMIT - runs::block_bytes(w) < message {
        return Err(Refusal::TooLong);
    }
    Ok(())
}

// The tests of a finish.
#[tactic(auto, unfolding(tags::specs::KeyAnswer::finish_answer, tags::specs::KeyAnswer::is_whole_bytes, limits::specs::Limits::limit))]
pub fn finish_answer(r: Record, key: usize, size: usize) -> Result<(), Refusal>
    ensures { answer_of result ≡ finish_answer r key size }
{
    if !record::is_sound(r) {
        return Err(Refusal::UnsoundRecord);
    }
    if r.n % 8 != 0 {
        return Err(Refusal::NoWholeBytes);
    }
    if limits::LIMIT < key {
        return Err(Refusal::TooLong);
    }
    room_answer(r.n, size)
}

// The test of the size of the output.
#[tactic(auto, unfolding(tags::specs::KeyAnswer::room_answer))]
fn room_answer(n: u64, size: usize) -> Result<(), Refusal>
    ensures { answer_of result ≡ room_answer n size }
{
    if (size as u64) < n / 8 {
        return Err(Refusal::ShortOutput);
    }
    Ok(())
}
