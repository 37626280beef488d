// Append: a piece is added to an order, and the whole blocks that it fills are run.
#![tactic(auto)]

ghost use Rattle.std.specs.Prelude.{◌≡◌, true, ◌+◌, ◌/◌, ◌<◌, ◌≤◌, length, Ok};
ghost use Rattle.lsh.specs.WordSize.{is_word_size, size_of, block_bytes};
ghost use Rattle.lsh.specs.Block.{Chain, forwards};
ghost use Rattle.lsh.specs.Padding.{blocks_of, rest_of};
ghost use Rattle.limits.specs.Limits.{limit};
ghost use Rattle.orders.specs.Record.{held_of, held_length, sound};
ghost use Rattle.orders.specs.Step.{outcome};
ghost use Rattle.orders.specs.Append.{append_accepted, append_call};

use answers::Refusal;
use limits::LONGEST_BLOCK;
use orders::{Record, Step};
use runs::{Engine, Run};

// A chain after whole blocks, how many there were, and the held bytes after them.
#[derive(Clone, Copy)]
struct Absorbed {
    chain: [u64; 16],
    count: u64,
    held: [u8; LONGEST_BLOCK],
}

// The record after the piece.
#[tactic(auto, unfolding(orders::specs::Append::append_call, orders::specs::Turn::in_turn, orders::specs::Turn::answered, orders::specs::Turn::turn_answer, limits::specs::Limits::limit))]
pub fn append(engine: Engine, r: Record, piece: &[u8]) -> Result<Step, Refusal>
    ensures { outcome r result ≡ append_call r piece.now }
{
    record::turn(r, record::is_begun(r))?;
    if limits::LIMIT as u64 - r.total < piece.len() as u64 {
        return Err(Refusal::TooLong);
    }
    Ok(accepted(engine, r, piece))
}

// Where the tests are passed.
pub fn accepted(engine: Engine, r: Record, piece: &[u8]) -> Step
    requires { (sound r ≡ true) × (r.total + length piece.now ≤ limit) }
    ensures { outcome r (Ok result) ≡ append_accepted r piece.now }
{
    let at = record::held_length(r.w, r.total);
    if at == 0 {
        return append_even(engine, r, piece);
    }
    if at + piece.len() < runs::block_bytes(r.w) {
        return append_short(r, piece);
    }
    append_long(engine, r, piece)
}

// To a record that holds no bytes.
fn append_even(engine: Engine, r: Record, piece: &[u8]) -> Step
    requires { (sound r ≡ true) × (r.total + length piece.now ≤ limit) × (held_length r.w r.total ≡ 0) }
    ensures { outcome r (Ok result) ≡ append_accepted r piece.now }
{
    let Absorbed { chain, count, held } = absorb(engine, r.w, r.chain, piece);
    Step {
        count,
        next: Record {
            total: r.total + piece.len() as u64,
            chain,
            held,
            ..r
        },
    }
}

// A piece that does not fill the block begun.
fn append_short(r: Record, piece: &[u8]) -> Step
    requires { (sound r ≡ true) × (r.total + length piece.now ≤ limit) × (held_length r.w r.total + length piece.now < block_bytes (size_of r.w)) }
    ensures { outcome r (Ok result) ≡ append_accepted r piece.now }
{
    let at = record::held_length(r.w, r.total);
    let held = runs::with_part(r.held, at, piece);
    Step {
        count: 0,
        next: Record {
            total: r.total + piece.len() as u64,
            held,
            ..r
        },
    }
}

// A piece that fills the block begun: this block is run first, and the blocks after it straight from the piece.
fn append_long(engine: Engine, r: Record, piece: &[u8]) -> Step
    requires { (sound r ≡ true) × (r.total + length piece.now ≤ limit) × (block_bytes (size_of r.w) ≤ held_length r.w r.total + length piece.now) }
    ensures { outcome r (Ok result) ≡ append_accepted r piece.now }
{
    let size = runs::block_bytes(r.w);
    let at = record::held_length(r.w, r.total);
    let (filling, rest) = piece.split_at(size - at);
    let first = runs::with_part(r.held, at, filling);
    let begun = runs::forward(engine, r.w, r.chain, &first[..size]);
    let Absorbed { chain, count, held } = absorb(engine, r.w, begun.chain, rest);
    Step {
        count: count + 1,
        next: Record {
            total: r.total + piece.len() as u64,
            chain,
            held,
            ..r
        },
    }
}

// The whole blocks of the piece are run on the chain, and the rest of the piece is held.
fn absorb(engine: Engine, w: u64, chain: [u64; 16], piece: &[u8]) -> Absorbed
    requires { (is_word_size w ≡ true) × Chain (size_of w) chain }
    ensures { (result.chain ≡ forwards (size_of w) (blocks_of (size_of w) piece.now) chain)
        × (result.count ≡ length piece.now / block_bytes (size_of w))
        × (result.held ≡ held_of (rest_of (size_of w) piece.now)) }
{
    let Run { chain, count } = runs::forward(engine, w, chain, piece);
    let at = count * runs::block_bytes(w);
    Absorbed {
        chain,
        count: count as u64,
        held: runs::zero_filled(&piece[at..]),
    }
}
