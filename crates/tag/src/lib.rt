// Tags with a key: of one message, or of pieces between start and finish, and the check of a tag.
#![tactic(auto)]

ghost use Rattle.std.specs.Prelude.{◌≡◌, ◌++◌, ◌≤◌, length, take, drop};
ghost use Rattle.answers.specs.Refusal.{answer_of};
ghost use Rattle.limits.specs.Limits.{longest_block};
ghost use Rattle.orders.specs.Record.{zeros};
ghost use Rattle.orders.specs.Step.{outcome};
ghost use Rattle.receipts.specs.Numbered.{sameness};
ghost use Rattle.tags.specs.KeyAnswer.{tag_bytes, tag_answer, finish_answer};
ghost use Rattle.tags.specs.Tag.{tag_output};
ghost use Rattle.tags.specs.Start.{start_call};
ghost use Rattle.tags.specs.Finish.{finish_output};
ghost use Rattle.tags.specs.Check.{check_call};

use answers::Refusal;
use limits::LONGEST_BLOCK;
use orders::{Record, Step};
use runs::Engine;

// Writes the tag of the message, if the call is accepted.
pub fn tag(
    engine: Engine,
    w: u64,
    n: u64,
    key: &[u8],
    message: &[u8],
    output: &mut [u8],
) -> Result<(), Refusal>
    ensures { (answer_of result ≡ tag_answer w n (length key.now) (length message.now) (length output.old)) × (output.new ≡ tag_output w n key.now message.now output.old) }
{
    tag_answers::answer(w, n, key.len(), message.len(), output.len())?;
    write_tag(n, hmac::hmac(engine, w, n, key, message), output);
    Ok(())
}

// The record of a new tag, to which Append adds the message.
pub fn start(engine: Engine, w: u64, n: u64, key: &[u8]) -> Result<Step, Refusal>
    ensures { outcome zeros result ≡ start_call w n key.now }
{
    tag_answers::key_answer(w, n, key.len(), 0)?;
    let opened = record::opened(engine, w, n);
    let block = hmac::xor_each(
        hmac::key_block(engine, w, n, opened.chain, key),
        hmac::INNER,
    );
    Ok(append::accepted(engine, opened, &block[..runs::block_bytes(w)]))
}

// Writes the tag of the message that was appended since the start, if the call is accepted. The record is not changed, so more can be appended to it.
pub fn finish(engine: Engine, r: Record, key: &[u8], output: &mut [u8]) -> Result<(), Refusal>
    ensures { (answer_of result ≡ finish_answer r (length key.now) (length output.old)) × (output.new ≡ finish_output r key.now output.old) }
{
    tag_answers::finish_answer(r, key.len(), output.len())?;
    let inner = close::digest_bytes(engine, r);
    let size = (r.n / 8) as usize;
    write_tag(
        r.n,
        hmac::tag_of(engine, r.w, r.n, key, &inner[..size]),
        output,
    );
    Ok(())
}

// Whether a tag is that of the message. A tag of another length is not, and every byte of one of this length is compared.
pub fn check(
    engine: Engine,
    w: u64,
    n: u64,
    key: &[u8],
    message: &[u8],
    tag: &[u8],
) -> Result<bool, Refusal>
    ensures { sameness result ≡ check_call w n key.now message.now tag.now }
{
    tag_answers::key_answer(w, n, key.len(), message.len())?;
    let right = hmac::hmac(engine, w, n, key, message);
    let size = (n / 8) as usize;
    Ok(buffers::equal_bytes(&right[..size], tag))
}

// Writes a tag, which stands at the front of t, at the output's front.
fn write_tag(n: u64, t: [u8; LONGEST_BLOCK], output: &mut [u8])
    requires { (tag_bytes n ≤ longest_block) × (tag_bytes n ≤ length output.old) }
    ensures { output.new ≡ take (tag_bytes n) t ++ drop (tag_bytes n) output.old }
{
    let size = (n / 8) as usize;
    output[..size].copy_from_slice(&t[..size]);
}
