// A rewind that is split into steps: begin with the held bytes, hand back one whole block at a time from the last, and end with the number of bytes
// to keep, or abandon it. Until the end the record is still that of the order before the rewind.
#![tactic(auto)]

ghost use Rattle.std.specs.Prelude.{◌≡◌, true, false, length};
ghost use Rattle.lsh.specs.WordSize.{size_of, block_bytes};
ghost use Rattle.orders.specs.Record.{sound, is_begun};
ghost use Rattle.orders.specs.Step.{outcome};
ghost use Rattle.orders.specs.Rewind.{keeps_too_much, cut_call};
ghost use Rattle.orders.specs.Begin.{begin_call};
ghost use Rattle.orders.specs.HandBack.{no_block, handed_back, hand_back_call};
ghost use Rattle.orders.specs.End.{handed, last_bytes, end_in_turn, end_call};
ghost use Rattle.orders.specs.Abandon.{abandon_call};

use answers::Refusal;
use orders::{Record, Split, Step};
use runs::{Engine, Run};

// The record with a split rewind begun, by the bytes that it holds.
#[tactic(auto, unfolding(orders::specs::Begin::begin_call, orders::specs::Begin::begun, orders::specs::Split::not_begun, orders::specs::Turn::in_turn, orders::specs::Turn::answered, orders::specs::Turn::turn_answer, orders::specs::Record::held_of))]
pub fn begin(r: Record, bytes: &[u8]) -> Result<Step, Refusal>
    ensures { outcome r result ≡ begin_call r bytes.now }
{
    record::turn(r, record::is_begun(r))?;
    if bytes.len() != record::held_length(r.w, r.total) {
        return Err(Refusal::BadStart);
    }
    if rewind::held_differs(r, bytes) {
        return Err(Refusal::HeldDiffer);
    }
    let second = r.chain;
    let begun = Split {
        mark: 1,
        second,
        ..record::not_begun()
    };
    Ok(record::stepped(r, begun))
}

// The record with one more block handed back.
#[tactic(auto, unfolding(orders::specs::HandBack::hand_back_call, orders::specs::Turn::in_turn, orders::specs::Turn::answered, orders::specs::Turn::turn_answer))]
pub fn hand_back(engine: Engine, r: Record, block: &[u8]) -> Result<Step, Refusal>
    ensures { outcome r result ≡ hand_back_call r block.now }
{
    record::turn(r, !record::is_begun(r))?;
    if no_block(r.w, r.total, r.split.blocks, block.len()) {
        return Err(Refusal::BadStart);
    }
    Ok(record::stepped(r, handed_back(engine, r, block)))
}

// Whether size bytes are not a block, or no whole block remains.
#[tactic(auto, unfolding(orders::specs::HandBack::no_block))]
fn no_block(w: u64, total: u64, blocks: u64, size: usize) -> bool
    ensures { result ≡ no_block (block_bytes (size_of w)) total blocks size }
{
    let b = runs::block_bytes(w);
    size != b || total / b as u64 <= blocks
}

#[tactic(auto, unfolding(orders::specs::HandBack::handed_back, orders::specs::Record::held_of))]
fn handed_back(engine: Engine, r: Record, block: &[u8]) -> Split
    requires { (sound r ≡ true) × (is_begun r ≡ true) × (no_block (block_bytes (size_of r.w)) r.total r.split.blocks (length block.now) ≡ false) }
    ensures { result ≡ handed_back r block.now }
{
    let Run { chain, .. } = runs::backward(engine, r.w, r.split.second, block);
    Split {
        mark: 1,
        second: chain,
        back: runs::zero_filled(block),
        blocks: r.split.blocks + 1,
    }
}

// The record of what remains, where the first keep of the bytes handed back are kept.
#[tactic(auto, unfolding(orders::specs::End::end_call, orders::specs::Turn::in_turn, orders::specs::Turn::answered, orders::specs::Turn::turn_answer))]
pub fn end(engine: Engine, r: Record, keep: u64) -> Result<Step, Refusal>
    ensures { outcome r result ≡ end_call r keep }
{
    record::turn(r, !record::is_begun(r))?;
    in_turn(engine, r, keep)
}

// Where the call is in turn.
#[tactic(auto, unfolding(orders::specs::End::end_in_turn, orders::specs::End::end_cut))]
pub fn in_turn(engine: Engine, r: Record, keep: u64) -> Result<Step, Refusal>
    requires { (sound r ≡ true) × (is_begun r ≡ true) }
    ensures { outcome r result ≡ end_in_turn r keep }
{
    let size = handed(r);
    if rewind::keeps_too_much(r.w, keep, size) {
        return Err(Refusal::BadKeep);
    }
    remaining(engine, r, size, keep)
}

// How many bytes were handed back.
#[tactic(auto, unfolding(orders::specs::End::handed))]
fn handed(r: Record) -> u64
    requires { (sound r ≡ true) × (is_begun r ≡ true) }
    ensures { result ≡ handed r }
{
    r.split.blocks * runs::block_bytes(r.w) as u64 + record::held_length(r.w, r.total) as u64
}

// Where the lengths are right: the bytes that remain are those of the block handed back last, or of the held part if none was.
#[tactic(auto, unfolding(orders::specs::End::last_bytes, orders::specs::Record::held_bytes))]
fn remaining(engine: Engine, r: Record, size: u64, keep: u64) -> Result<Step, Refusal>
    requires { (sound r ≡ true) × (is_begun r ≡ true) × (size ≡ handed r) × (keeps_too_much (block_bytes (size_of r.w)) keep size ≡ false) }
    ensures { outcome r result ≡ cut_call r (record { size = size; keep = keep; chain = r.split.second; bytes = last_bytes r }) }
{
    let second = r.split.second;
    if r.split.blocks == 0 {
        let at = record::held_length(r.w, r.total);
        return rewind::cut(engine, r, r.split.blocks, size, keep, second, &r.held[..at]);
    }
    let b = runs::block_bytes(r.w);
    rewind::cut(
        engine,
        r,
        r.split.blocks,
        size,
        keep,
        second,
        &r.split.back[..b],
    )
}

// The record before the rewind began.
#[tactic(auto, unfolding(orders::specs::Abandon::abandon_call, orders::specs::Turn::in_turn, orders::specs::Turn::answered, orders::specs::Turn::turn_answer))]
pub fn abandon(r: Record) -> Result<Step, Refusal>
    ensures { outcome r result ≡ abandon_call r }
{
    record::turn(r, !record::is_begun(r))?;
    Ok(record::stepped(r, record::not_begun()))
}
