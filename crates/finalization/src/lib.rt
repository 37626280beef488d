// The end of a message: its last block, the digest of the chain reached, and the receipt.
#![tactic(auto)]

ghost use Rattle.std.specs.Prelude.{◌≡◌, true, ◌∷◌, ◌++◌, ◌+◌, ◌-◌, ◌/◌, ◌%◌, ◌^◌, ◌<◌, ◌≤◌, length, take, drop, replicate};
ghost use Rattle.lsh.specs.Tabulate.{at, tabulate};
ghost use Rattle.lsh.specs.Word.{xor};
ghost use Rattle.lsh.specs.WordSize.{is_word_size, size_of, block_bytes};
ghost use Rattle.lsh.specs.Block.{Chain, forwards};
ghost use Rattle.lsh.specs.Bits.{bytes_of_bits};
ghost use Rattle.lsh.specs.Padding.{blocks_of};
ghost use Rattle.lsh.specs.Hash.{final_bytes, digest};
ghost use Rattle.answers.specs.Refusal.{answer_of};
ghost use Rattle.limits.specs.Limits.{longest_block, longest_digest};
ghost use Rattle.receipts.specs.Receipt.{receipt_bytes, receipt};
ghost use Rattle.receipts.specs.Ending.{end_answer};

use answers::Refusal;
use limits::LONGEST_BLOCK;
use runs::Engine;
use word::Word;

// Bytes of a receipt.
pub const RECEIPT: usize = 76;

// The place of the digest in a receipt, after w and n.
pub const DIGEST: usize = 4;

// The place of the message's length in bits, which takes the last eight bytes.
pub const LENGTH: usize = 68;

// The most bits of a message.
pub const MOST_BITS: u64 = 8 * limits::LIMIT as u64 + 7;

// What padding puts after whole bytes: the bit 1, and zeros to the end of its byte.
pub const PAD: u8 = 0x80;

// The tests of the end of a message and of the size of the output.
#[tactic(auto, unfolding(receipts::specs::Ending::end_answer, receipts::specs::Receipt::receipt_bytes))]
pub fn end_answer(last: u8, e: u64, size: usize) -> Result<(), Refusal>
    ensures { answer_of result ≡ end_answer last e size }
{
    if 7 < e {
        return Err(Refusal::BadExtraBits);
    }
    if low_bits(last, e as u32) != 0 {
        return Err(Refusal::BadLastByte);
    }
    if size < RECEIPT {
        return Err(Refusal::ShortOutput);
    }
    Ok(())
}

// The low 8 - e bits of a byte.
pub fn low_bits(x: u8, e: u32) -> u8
    requires { e ≤ 7 }
    ensures { result ≡ x % 2 ^ (8 - e) }
{
    x & (255u8 >> e)
}

// The last byte of a message with the bit 1 after its e bits.
pub fn pad_byte(last: u8, e: u32) -> u8
    requires { (e ≤ 7) × (last % 2 ^ (8 - e) ≡ 0) }
    ensures { result ≡ last + 2 ^ (7 - e) }
{
    last + (128u8 >> e)
}

// The chain after the blocks of a message that is padded from the byte pad on.
pub fn message_chain(engine: Engine, w: u64, t: [u64; 16], message: &[u8], pad: u8) -> [u64; 16]
    requires { (is_word_size w ≡ true) × Chain (size_of w) t }
    ensures { result ≡ forwards (size_of w) (blocks_of (size_of w) (message.now ++ pad ∷ replicate (block_bytes (size_of w) - 1 - length message.now % block_bytes (size_of w)) 0)) t }
{
    let run = runs::forward(engine, w, t, message);
    let whole = run.count * runs::block_bytes(w);
    last_chain(engine, w, run.chain, &message[whole..], pad)
}

// The chain after the last block, of the bytes that are left over and the padding.
pub fn last_chain(engine: Engine, w: u64, t: [u64; 16], rest: &[u8], pad: u8) -> [u64; 16]
    requires { (is_word_size w ≡ true) × Chain (size_of w) t × (length rest.now < block_bytes (size_of w)) }
    ensures { result ≡ forwards (size_of w) (blocks_of (size_of w) (rest.now ++ pad ∷ replicate (block_bytes (size_of w) - 1 - length rest.now) 0)) t }
{
    let size = runs::block_bytes(w);
    let block = last_block(rest, pad);
    runs::forward(engine, w, t, &block[..size]).chain
}

fn last_block(rest: &[u8], pad: u8) -> [u8; LONGEST_BLOCK]
    requires { length rest.now < longest_block }
    ensures { result ≡ rest.now ++ pad ∷ replicate (longest_block - 1 - length rest.now) 0 }
{
    let mut b = runs::zero_filled(rest);
    b[rest.len()] = pad;
    b
}

// Writes the receipt at the output's front: the digest of the chain reached, and the length of the message in bits.
pub fn write_receipt(w: u64, n: u64, t: [u64; 16], bits: u64, output: &mut [u8])
    requires { (is_word_size w ≡ true) × (n ≤ longest_digest w) × Chain (size_of w) t × (receipt_bytes ≤ length output.old) }
    ensures { output.new ≡ receipt w n (digest (size_of w) n t) bits ++ drop receipt_bytes output.old }
{
    let size = ((n + 7) / 8) as usize;
    let bytes = digest_bytes(w, n, t);
    output[..RECEIPT].fill(0);
    output[0] = w as u8;
    output[2] = (n % 256) as u8;
    output[3] = (n / 256) as u8;
    buffers::put(output, DIGEST, &bytes[..size]);
    bits.store(output, LENGTH);
}

// The bytes of the digest, and others after them. Byte n / 8 keeps its first n % 8 bits; where it keeps none, it is behind the digest.
pub fn digest_bytes(w: u64, n: u64, t: [u64; 16]) -> [u8; LONGEST_BLOCK]
    requires { (is_word_size w ≡ true) × (n ≤ longest_digest w) × Chain (size_of w) t }
    ensures { take ((n + 7) / 8) result ≡ bytes_of_bits (digest (size_of w) n t) }
{
    let mut s = final_bytes(w, t);
    let last = (n / 8) as usize;
    s[last] -= low_bits(s[last], (n % 8) as u32);
    s
}

// The bytes of the final chain, which are those of eight words, and others after them.
fn final_bytes(w: u64, t: [u64; 16]) -> [u8; LONGEST_BLOCK]
    requires { (is_word_size w ≡ true) × Chain (size_of w) t }
    ensures { take w result ≡ final_bytes (size_of w) t }
{
    let mut s = runs::zero_bytes();
    let size = runs::chain_bytes(w);
    runs::store_chain(w, &mut s[..size], final_words(t));
    s
}

// Words l and l + 8 of the chain in one, for l = 0 to 7, and as many zeros, so that they can be stored as a chain. A chain of 32-bit words has
// only zeros above them.
fn final_words(t: [u64; 16]) -> [u64; 16]
    ensures { result ≡ tabulate 8 (λ l. xor 64 (at t l) (at t (l + 8))) ++ replicate 8 0 }
{
    let mut r = [0u64; 16];
    // One number is the place of three words, which iterators would take from a zip within a zip.
    for l in 0..8 {
        let h = l + 8;
        r[l] = t[l].exclusive_or(t[h]);
    }
    r
}
