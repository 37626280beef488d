// HMAC over LSH: the block of a key, and the tag of a text or of an inner digest. A tag and the digests on the way have n / 8 bytes, which stand at the
// front of an array.
#![tactic(auto)]

ghost use Rattle.std.specs.Prelude.{◌≡◌, true, ◌∷◌, ◌++◌, ◌-◌, ◌/◌, ◌%◌, length, take, replicate};
ghost use Rattle.lsh.specs.WordSize.{is_word_size, size_of, block_bytes};
ghost use Rattle.lsh.specs.Block.{Chain, forwards};
ghost use Rattle.lsh.specs.Opening.{opening};
ghost use Rattle.lsh.specs.Bits.{bytes_of_bits};
ghost use Rattle.lsh.specs.Padding.{blocks_of};
ghost use Rattle.lsh.specs.Hash.{digest};
ghost use Rattle.limits.specs.Limits.{is_digest_length};
ghost use Rattle.tags.specs.Hmac.{hash_bytes, key_block, xor_each, tag_of, hmac};

use limits::LONGEST_BLOCK;
use runs::Engine;

// The byte that the inner block of a key is taken with, and that of the outer block.
pub const INNER: u8 = 0x36;

pub const OUTER: u8 = 0x5c;

// The tag of a text.
pub fn hmac(engine: Engine, w: u64, n: u64, key: &[u8], text: &[u8]) -> [u8; LONGEST_BLOCK]
    requires { (is_word_size w ≡ true) × (is_digest_length w n ≡ true) × (n % 8 ≡ 0) }
    ensures { take (n / 8) result ≡ hmac w n key.now text.now }
{
    let size = (n / 8) as usize;
    let opened = runs::opening(engine, w, n);
    let block = key_block(engine, w, n, opened, key);
    let inner = keyed_digest(engine, w, n, opened, block, INNER, text);
    keyed_digest(engine, w, n, opened, block, OUTER, &inner[..size])
}

// The tag of an inner digest.
pub fn tag_of(engine: Engine, w: u64, n: u64, key: &[u8], inner: &[u8]) -> [u8; LONGEST_BLOCK]
    requires { (is_word_size w ≡ true) × (is_digest_length w n ≡ true) × (n % 8 ≡ 0) }
    ensures { take (n / 8) result ≡ tag_of w n key.now inner.now }
{
    let opened = runs::opening(engine, w, n);
    let block = key_block(engine, w, n, opened, key);
    keyed_digest(engine, w, n, opened, block, OUTER, inner)
}

// The key as a block, and zeros after it. The opening chain of w and n is given, since its callers have it.
pub fn key_block(
    engine: Engine,
    w: u64,
    n: u64,
    opened: [u64; 16],
    key: &[u8],
) -> [u8; LONGEST_BLOCK]
    requires { (is_word_size w ≡ true) × (is_digest_length w n ≡ true) × (n % 8 ≡ 0) × (opened ≡ opening (size_of w) n) }
    ensures { take (block_bytes (size_of w)) result ≡ key_block w n key.now }
{
    if runs::block_bytes(w) < key.len() {
        let size = (n / 8) as usize;
        let d = digest_on(engine, w, n, opened, key);
        return runs::zero_filled(&d[..size]);
    }
    runs::zero_filled(key)
}

// Each byte exclusive or the byte x.
pub fn xor_each(mut block: [u8; LONGEST_BLOCK], x: u8) -> [u8; LONGEST_BLOCK]
    ensures { result ≡ xor_each x block }
{
    for byte in &mut block {
        *byte ^= x;
    }
    block
}

// The digest of the block of a key, each byte of it exclusive or the byte x, and of the bytes after it.
fn keyed_digest(
    engine: Engine,
    w: u64,
    n: u64,
    opened: [u64; 16],
    block: [u8; LONGEST_BLOCK],
    x: u8,
    after: &[u8],
) -> [u8; LONGEST_BLOCK]
    requires { (is_word_size w ≡ true) × (is_digest_length w n ≡ true) × (n % 8 ≡ 0) × (opened ≡ opening (size_of w) n) }
    ensures { take (n / 8) result ≡ hash_bytes w n (xor_each x (take (block_bytes (size_of w)) block) ++ after.now) }
{
    digest_on(engine, w, n, key_chain(engine, w, opened, block, x), after)
}

// The chain after the block of a key, taken with the byte x.
fn key_chain(
    engine: Engine,
    w: u64,
    opened: [u64; 16],
    block: [u8; LONGEST_BLOCK],
    x: u8,
) -> [u64; 16]
    requires { (is_word_size w ≡ true) × Chain (size_of w) opened }
    ensures { result ≡ forwards (size_of w) (blocks_of (size_of w) (xor_each x (take (block_bytes (size_of w)) block))) opened }
{
    let size = runs::block_bytes(w);
    let b = xor_each(block, x);
    let run = runs::forward(engine, w, opened, &b[..size]);
    run.chain
}

// The digest of a message whose blocks are run on the chain t.
fn digest_on(engine: Engine, w: u64, n: u64, t: [u64; 16], message: &[u8]) -> [u8; LONGEST_BLOCK]
    requires { (is_word_size w ≡ true) × (is_digest_length w n ≡ true) × (n % 8 ≡ 0) × Chain (size_of w) t }
    ensures { take (n / 8) result ≡ bytes_of_bits (digest (size_of w) n (forwards (size_of w) (blocks_of (size_of w) (message.now ++ 128 ∷ replicate (block_bytes (size_of w) - 1 - length message.now % block_bytes (size_of w)) 0)) t)) }
{
    let c = finalization::message_chain(engine, w, t, message, finalization::PAD);
    finalization::digest_bytes(w, n, c)
}
