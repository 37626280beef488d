// Whole blocks on a chain of 16 numbers, for either word size and by either engine, and the opening chain.
#![tactic(auto)]

ghost use Rattle.std.specs.Prelude.{◌≡◌, true, ◌∷◌, ℕ, ◌+◌, ◌*◌, ◌/◌, ◌^◌, ◌<◌, ◌≤◌, length, replicate};
ghost use Rattle.std.proofs.Math.Seq.{paste};
ghost use Rattle.lsh.specs.Tabulate.{at};
ghost use Rattle.lsh.specs.WordSize.{is_word_size, size_of, chain_bytes, block_bytes};
ghost use Rattle.lsh.specs.Bytes.{words_of, bytes_of};
ghost use Rattle.lsh.specs.Block.{Chain, forwards_steps, backwards_steps, forwards, backwards};
ghost use Rattle.lsh.specs.Opening.{opening};
ghost use Rattle.lsh.specs.Padding.{blocks_of};
ghost use Rattle.lists.specs.ZeroFilled.{zero_filled};
ghost use Rattle.limits.specs.Limits.{longest_block, longest_digest, is_digest_length};

use limits::LONGEST_BLOCK;
use word::Word;
pub use words::Run;

pub mod engines;

use crate::engines::Engines;

// Which code runs the blocks: word by word, or in groups of four words. Both give the same chains, so that no contract names the one that a call is given.
#[derive(Clone, Copy)]
pub enum Engine {
    Words,
    Groups,
}

// The number of the groups for C. Every other number is the words.
const GROUPS: u64 = 2;

impl From<u64> for Engine {
    fn from(number: u64) -> Engine {
        if number == GROUPS {
            return Engine::Groups;
        }
        Engine::Words
    }
}

// The one that was measured to be faster at a word size.
pub fn faster_engine(w: u64) -> Engine {
    if w == 32 {
        return Engine::Groups;
    }
    Engine::Words
}

pub fn is_word_size(w: u64) -> bool
    ensures { result ≡ is_word_size w }
{
    if w == 32 {
        return true;
    }
    w == 64
}

pub fn is_digest_length(w: u64, n: u64) -> bool
    requires { is_word_size w ≡ true }
    ensures { result ≡ is_digest_length w n }
{
    if n == 0 {
        return false;
    }
    n <= longest_digest(w)
}

// Bytes of a block, by w.
pub fn block_bytes(w: u64) -> usize
    ensures { result ≡ block_bytes (size_of w) }
{
    if w == 64 {
        return u64::BLOCK;
    }
    u32::BLOCK
}

// Bytes of a chain, by w.
pub fn chain_bytes(w: u64) -> usize
    ensures { result ≡ chain_bytes (size_of w) }
{
    if w == 64 {
        return u64::CHAIN;
    }
    u32::CHAIN
}

// The most bits of a digest: 8w, where a block has 4w bytes.
pub fn longest_digest(w: u64) -> u64
    ensures { result ≡ longest_digest (size_of w).bits }
{
    2 * block_bytes(w) as u64
}

// Runs the whole blocks of s forward, in order, on the chain t, at one word size. These two functions and the two behind them alone look at the engine.
fn forward_at<W: Engines>(engine: Engine, t: [W; 16], s: &[u8]) -> Run<W>
    ensures { (W.numbers result.chain ≡ forwards W.size (blocks_of W.size s.now) (W.numbers t)) × (result.count ≡ length s.now / block_bytes W.size) }
{
    match engine {
        Engine::Words => W::words_forward(W::STEPS, t, s),
        Engine::Groups => W::groups_forward(W::STEPS, t, s),
    }
}

// Backward, from the last block.
fn backward_at<W: Engines>(engine: Engine, t: [W; 16], s: &[u8]) -> Run<W>
    ensures { (W.numbers result.chain ≡ backwards W.size (blocks_of W.size s.now) (W.numbers t)) × (result.count ≡ length s.now / block_bytes W.size) }
{
    match engine {
        Engine::Words => W::words_backward(W::STEPS, t, s),
        Engine::Groups => W::groups_backward(W::STEPS, t, s),
    }
}

// The same with a number of steps, for the block calls. They do not stand under the two above: an engine that one function alone calls is written into it by the compiler,
// which then no longer works on four words at once.
fn forward_steps_at<W: Engines>(engine: Engine, steps: usize, t: [W; 16], s: &[u8]) -> Run<W>
    requires { (1 ≤ steps) × (steps ≤ W.size.steps) }
    ensures { (W.numbers result.chain ≡ forwards_steps W.size steps (blocks_of W.size s.now) (W.numbers t)) × (result.count ≡ length s.now / block_bytes W.size) }
{
    match engine {
        Engine::Words => W::words_forward(steps, t, s),
        Engine::Groups => W::groups_forward(steps, t, s),
    }
}

fn backward_steps_at<W: Engines>(engine: Engine, steps: usize, t: [W; 16], s: &[u8]) -> Run<W>
    requires { (1 ≤ steps) × (steps ≤ W.size.steps) }
    ensures { (W.numbers result.chain ≡ backwards_steps W.size steps (blocks_of W.size s.now) (W.numbers t)) × (result.count ≡ length s.now / block_bytes W.size) }
{
    match engine {
        Engine::Words => W::words_backward(steps, t, s),
        Engine::Groups => W::groups_backward(steps, t, s),
    }
}

// Runs the whole blocks of s forward, in order, on the chain t.
pub fn forward(engine: Engine, w: u64, t: [u64; 16], s: &[u8]) -> Run<u64>
    requires { (is_word_size w ≡ true) × Chain (size_of w) t }
    ensures { (result.chain ≡ forwards (size_of w) (blocks_of (size_of w) s.now) t) × (result.count ≡ length s.now / block_bytes (size_of w)) }
{
    // An engine works out its step constants first, which a piece without a whole block need not pay for.
    if s.len() < block_bytes(w) {
        return Run { chain: t, count: 0 };
    }
    if w == 32 {
        return widened(forward_at(engine, narrow(t), s));
    }
    forward_at(engine, t, s)
}

// Runs the whole blocks of s backward, from the last, on the chain t.
pub fn backward(engine: Engine, w: u64, t: [u64; 16], s: &[u8]) -> Run<u64>
    requires { (is_word_size w ≡ true) × Chain (size_of w) t }
    ensures { (result.chain ≡ backwards (size_of w) (blocks_of (size_of w) s.now) t) × (result.count ≡ length s.now / block_bytes (size_of w)) }
{
    if s.len() < block_bytes(w) {
        return Run { chain: t, count: 0 };
    }
    if w == 32 {
        return widened(backward_at(engine, narrow(t), s));
    }
    backward_at(engine, t, s)
}

// The same on the bytes of a chain. Its words stay at the width of w: a block alone would take some hundredths longer if they were widened and narrowed.
pub fn forward_bytes(engine: Engine, w: u64, chain: &mut [u8], s: &[u8])
    requires { (is_word_size w ≡ true) × (length chain.old ≡ chain_bytes (size_of w)) }
    ensures { chain.new ≡ bytes_of (size_of w) (forwards (size_of w) (blocks_of (size_of w) s.now) (words_of (size_of w) 16 chain.old)) }
{
    if w == 32 {
        let room = Run {
            chain: [0u32; 16],
            count: 0,
        };
        forward_bytes_at(engine, room, chain, s);
    } else {
        let room = Run {
            chain: [0u64; 16],
            count: 0,
        };
        forward_bytes_at(engine, room, chain, s);
    }
}

pub fn backward_bytes(engine: Engine, w: u64, chain: &mut [u8], s: &[u8])
    requires { (is_word_size w ≡ true) × (length chain.old ≡ chain_bytes (size_of w)) }
    ensures { chain.new ≡ bytes_of (size_of w) (backwards (size_of w) (blocks_of (size_of w) s.now) (words_of (size_of w) 16 chain.old)) }
{
    if w == 32 {
        let room = Run {
            chain: [0u32; 16],
            count: 0,
        };
        backward_bytes_at(engine, room, chain, s);
    } else {
        let room = Run {
            chain: [0u64; 16],
            count: 0,
        };
        backward_bytes_at(engine, room, chain, s);
    }
}

// At one word size. The room is for the words of the chain.
fn forward_bytes_at<W: Engines>(engine: Engine, room: Run<W>, chain: &mut [u8], s: &[u8])
    requires { length chain.old ≡ chain_bytes W.size }
    ensures { chain.new ≡ bytes_of W.size (forwards W.size (blocks_of W.size s.now) (words_of W.size 16 chain.old)) }
{
    let mut t = room.chain;
    words::load_chain(chain, &mut t);
    let ahead = forward_steps_at(engine, W::STEPS, t, s);
    words::store_chain(chain, ahead.chain);
}

fn backward_bytes_at<W: Engines>(engine: Engine, room: Run<W>, chain: &mut [u8], s: &[u8])
    requires { length chain.old ≡ chain_bytes W.size }
    ensures { chain.new ≡ bytes_of W.size (backwards W.size (blocks_of W.size s.now) (words_of W.size 16 chain.old)) }
{
    let mut t = room.chain;
    words::load_chain(chain, &mut t);
    let before = backward_steps_at(engine, W::STEPS, t, s);
    words::store_chain(chain, before.chain);
}

// The opening chain. Those of the published functions are stored, which saves a run where the message is short.
pub fn opening(engine: Engine, w: u64, n: u64) -> [u64; 16]
    requires { (is_word_size w ≡ true) × (n ≤ 8 * w) }
    ensures { result ≡ opening (size_of w) n }
{
    match published::opening(w, n) {
        Some(chain) => chain,
        None => opening_run(engine, w, n),
    }
}

// A block of zeros run on the chain whose words 0 and 1 are w and n.
fn opening_run(engine: Engine, w: u64, n: u64) -> [u64; 16]
    requires { (is_word_size w ≡ true) × (n ≤ longest_digest w) }
    ensures { result ≡ opening (size_of w) n }
{
    let size = block_bytes(w);
    let zeros = zero_bytes();
    let run = forward(engine, w, first_chain(w, n), &zeros[..size]);
    run.chain
}

fn first_chain(w: u64, n: u64) -> [u64; 16]
    ensures { result ≡ w ∷ n ∷ replicate 14 0 }
{
    [w, n, 0, 0, 0, 0, 0, 0, 0, 0, 0, 0, 0, 0, 0, 0]
}

// As many zeros as a block has bytes at most.
pub fn zero_bytes() -> [u8; LONGEST_BLOCK]
    ensures { result ≡ replicate longest_block 0 }
{
    [0u8; LONGEST_BLOCK]
}

// The bytes of the part, and zeros after them.
pub fn zero_filled(part: &[u8]) -> [u8; LONGEST_BLOCK]
    requires { length part.now ≤ longest_block }
    ensures { result ≡ zero_filled longest_block part.now }
{
    with_part(zero_bytes(), 0, part)
}

// The block with the part written from a place on.
pub fn with_part(block: [u8; LONGEST_BLOCK], at: usize, part: &[u8]) -> [u8; LONGEST_BLOCK]
    requires { at + length part.now ≤ longest_block }
    ensures { result ≡ paste block at part.now (length part.now) }
{
    let mut b = block;
    buffers::put(&mut b, at, part);
    b
}

// Puts the bytes of a chain into d.
pub fn store_chain(w: u64, d: &mut [u8], t: [u64; 16])
    requires { (is_word_size w ≡ true) × Chain (size_of w) t × (length d.old ≡ chain_bytes (size_of w)) }
    ensures { d.new ≡ bytes_of (size_of w) t }
{
    if w == 32 {
        words::store_chain(d, narrow(t));
        return;
    }
    words::store_chain(d, t);
}

// The same numbers as words of 32 bits, and back. By place, as the loops of crates/steps: see there.
fn narrow(t: [u64; 16]) -> [u32; 16]
    requires { (l : ℕ) → at t l < 2 ^ 32 }
    ensures { result ≡ t }
{
    let mut r = [0u32; 16];
    for l in 0..16 {
        r[l] = t[l] as u32;
    }
    r
}

fn widen(t: [u32; 16]) -> [u64; 16]
    ensures { result ≡ t }
{
    let mut r = [0u64; 16];
    for l in 0..16 {
        r[l] = t[l] as u64;
    }
    r
}

fn widened(run: Run<u32>) -> Run<u64>
    ensures { (result.chain ≡ run.chain) × (result.count ≡ run.count) }
{
    Run {
        chain: widen(run.chain),
        count: run.count,
    }
}
