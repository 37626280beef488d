// Append with a roll: a piece is added to an order in parts that end at every 64th block, and a checkpoint is inserted at each.
#![tactic(auto)]

ghost use Rattle.std.specs.Prelude.{◌≡◌, true, [], ℕ, ◌+◌, ◌*◌, ◌/◌, ◌<◌, ◌≤◌, length, Ok, Some, IfOk};
ghost use Rattle.lsh.specs.WordSize.{is_word_size, size_of, block_bytes};
ghost use Rattle.lsh.specs.Block.{Chain, forwards};
ghost use Rattle.lsh.specs.Padding.{blocks_of};
ghost use Rattle.answers.specs.Refusal.{answer_of};
ghost use Rattle.limits.specs.Limits.{limit};
ghost use Rattle.orders.specs.declared.Record.{Record};
ghost use Rattle.orders.specs.Record.{held_of, sound};
ghost use Rattle.orders.specs.Step.{outcome};
ghost use Rattle.orders.specs.Append.{appended, append_accepted};
ghost use Rattle.checkpoints.specs.Due.{spacing};
ghost use Rattle.checkpoints.specs.Slots.{slot_count};
ghost use Rattle.checkpoints.specs.Roll.{links, checkpoints};
ghost use Rattle.checkpoints.specs.FreeSlot.{free_slot, FreeChoice};
ghost use Rattle.checkpoints.specs.Checkpoints.{inserted};
ghost use Rattle.roll.specs.Traversal.{traversal_of};
ghost use Rattle.checkpoints.specs.AppendRoll.{append_roll_answer, append_roll_call, appended_roll};

use answers::Refusal;
use orders::{Record, Step};
use roll::{SPACING, Traversal};
use runs::Engine;

// An order at a checkpoint within a piece: the chain there, how many blocks were run, and what is known of the roll.
#[derive(Clone, Copy)]
struct Progress {
    chain: [u64; 16],
    count: u64,
    known: Traversal,
}

// The record after the piece. Which slot a checkpoint takes is the choice free_slot, of which FreeChoice says what holds.
pub fn append_roll(
    engine: Engine,
    r: Record,
    piece: &[u8],
    roll: &mut [u8],
) -> Result<Step, Refusal>
    ensures { (outcome r result ≡ append_roll_call r piece.now roll.old) × (roll.new ≡ appended_roll r piece.now roll.old) × FreeChoice free_slot }
{
    let known = tested(r, piece.len(), roll)?;
    Ok(append_parts(engine, r, piece, roll, known))
}

// The tests of the call. One that passes them gets what is known of the roll.
fn tested(r: Record, size: usize, roll: &[u8]) -> Result<Traversal, Refusal>
    ensures { (answer_of result ≡ append_roll_answer r size roll.now) × IfOk result (λ y. Some y ≡ traversal_of (size_of r.w) roll.now) }
{
    let known = roll::turn(r, record::is_begun(r), roll)?;
    if limits::LIMIT as u64 - r.total < size as u64 {
        return Err(Refusal::TooLong);
    }
    // The links are the record's checkpoints, so with those due they are the checkpoints of the order with the piece.
    if (known.slots as u64) < roll::checkpoints(r.w, r.total + size as u64) {
        return Err(Refusal::FullRoll);
    }
    Ok(known)
}

// Where the tests are passed.
fn append_parts(engine: Engine, r: Record, piece: &[u8], roll: &mut [u8], known: Traversal) -> Step
    requires { (append_roll_answer r (length piece.now) roll.old ≡ 0) × (Some known ≡ traversal_of (size_of r.w) roll.old) }
    ensures { (outcome r (Ok result) ≡ append_accepted r piece.now) × (roll.new ≡ appended_roll r piece.now roll.old) }
{
    let first = to_checkpoint(r.w, r.total);
    if piece.len() < first {
        return append::accepted(engine, r, piece);
    }
    let step = between_checkpoints(r.w);
    let mut p = first_part(engine, r, &piece[..first], roll, known);
    let mut at = first;
    while step <= piece.len() - at {
        let end = at + step;
        p = next_part(engine, r.w, p, &piece[at..end], roll);
        at = end;
    }
    last_part(engine, r, p, at, &piece[at..])
}

// How many bytes an order of this total has to the next checkpoint.
fn to_checkpoint(w: u64, total: u64) -> usize
    requires { total ≤ limit }
    ensures { total + result ≡ (checkpoints w total + 1) * (spacing * block_bytes (size_of w)) }
{
    let step = between_checkpoints(w);
    step - total as usize % step
}

// The bytes from a checkpoint to the next.
fn between_checkpoints(w: u64) -> usize
    ensures { result ≡ spacing * block_bytes (size_of w) }
{
    SPACING as usize * runs::block_bytes(w)
}

// The part up to the first checkpoint, which is inserted.
fn first_part(engine: Engine, r: Record, part: &[u8], roll: &mut [u8], known: Traversal) -> Progress
    requires { (sound r ≡ true) × (r.total + length part.now ≤ limit)
        × (Some known ≡ traversal_of (size_of r.w) roll.old)
        × (length (links (size_of r.w) roll.old) < slot_count (size_of r.w) (length roll.old)) }
    ensures { (result.chain ≡ (appended r part.now).chain)
        × (result.count ≡ (append_accepted r part.now).count)
        × ((k : ℕ) → roll.new ≡ inserted (size_of r.w) (record { number = k; chain = (appended r part.now).chain }) roll.old)
        × (Some result.known ≡ traversal_of (size_of r.w) roll.new) }
{
    let step = append::accepted(engine, r, part);
    let chain = step.next.chain;
    Progress {
        chain,
        count: step.count,
        known: roll::insert(r.w, known, roll, chain),
    }
}

// A part from a checkpoint to the next, which is inserted. Its blocks are run straight from the piece.
fn next_part(engine: Engine, w: u64, p: Progress, part: &[u8], roll: &mut [u8]) -> Progress
    requires { (is_word_size w ≡ true) × Chain (size_of w) p.chain × (p.count + length part.now ≤ limit)
        × (Some p.known ≡ traversal_of (size_of w) roll.old)
        × (length (links (size_of w) roll.old) < slot_count (size_of w) (length roll.old)) }
    ensures { (result.chain ≡ forwards (size_of w) (blocks_of (size_of w) part.now) p.chain)
        × (result.count ≡ p.count + length part.now / block_bytes (size_of w))
        × ((k : ℕ) → roll.new ≡ inserted (size_of w) (record { number = k; chain = result.chain }) roll.old)
        × (Some result.known ≡ traversal_of (size_of w) roll.new) }
{
    let run = runs::forward(engine, w, p.chain, part);
    let chain = run.chain;
    Progress {
        chain,
        count: p.count + run.count as u64,
        known: roll::insert(w, p.known, roll, chain),
    }
}

// The last part, from a checkpoint at the place at of the piece. It reaches no other.
fn last_part(engine: Engine, r: Record, p: Progress, at: usize, part: &[u8]) -> Step
    requires { (r.total + at + length part.now ≤ limit) × (p.count ≤ limit)
        × ((order : Record) → order ≡ record { w = r.w; n = r.n; total = r.total + at; chain = p.chain; held = held_of []; split = r.split } → sound order ≡ true) }
    ensures { (order : Record) → order ≡ record { w = r.w; n = r.n; total = r.total + at; chain = p.chain; held = held_of []; split = r.split }
        → outcome r (Ok result) ≡ record { number = 0; count = p.count + (append_accepted order part.now).count; next = appended order part.now } }
{
    let chain = p.chain;
    let held = runs::zero_bytes();
    let order = Record {
        total: r.total + at as u64,
        chain,
        held,
        ..r
    };
    let step = append::accepted(engine, order, part);
    Step {
        count: p.count + step.count,
        next: step.next,
    }
}
