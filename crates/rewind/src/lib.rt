// Rewind: the end of an order is taken back by running its blocks backward.
#![tactic(auto)]

ghost use Rattle.std.specs.Prelude.{◌≡◌, true, false, not, ◌&&◌, ◌/◌, ◌<◌, ◌≤◌, eqb, length};
ghost use Rattle.lsh.specs.WordSize.{is_word_size, size_of, block_bytes};
ghost use Rattle.lsh.specs.Opening.{opening};
ghost use Rattle.limits.specs.Limits.{is_digest_length};
ghost use Rattle.lists.specs.Equal.{equal};
ghost use Rattle.orders.specs.Record.{held_length, sound};
ghost use Rattle.orders.specs.Step.{outcome};
ghost use Rattle.orders.specs.Rewind.{starts_off_block, keeps_too_much, held_differs, cut_call, rewind_in_turn, rewind_call};

use answers::Refusal;
use orders::{Record, Step};
use runs::Engine;

// The record after its last bytes h were handed back and the first keep of them remain.
#[tactic(auto, unfolding(orders::specs::Rewind::rewind_call, orders::specs::Turn::in_turn, orders::specs::Turn::answered, orders::specs::Turn::turn_answer))]
pub fn rewind(engine: Engine, r: Record, keep: u64, h: &[u8]) -> Result<Step, Refusal>
    ensures { outcome r result ≡ rewind_call r keep h.now }
{
    record::turn(r, record::is_begun(r))?;
    in_turn(engine, r, keep, h)
}

// Where the call is in turn.
#[tactic(auto, unfolding(orders::specs::Rewind::rewind_in_turn, orders::specs::Rewind::reached))]
pub fn in_turn(engine: Engine, r: Record, keep: u64, h: &[u8]) -> Result<Step, Refusal>
    requires { sound r ≡ true }
    ensures { outcome r result ≡ rewind_in_turn r keep h.now }
{
    let size = h.len() as u64;
    if starts_off_block(r.w, r.total, size) {
        return Err(Refusal::BadStart);
    }
    if keeps_too_much(r.w, keep, size) {
        return Err(Refusal::BadKeep);
    }
    if held_differs(r, h) {
        return Err(Refusal::HeldDiffer);
    }
    let run = runs::backward(engine, r.w, r.chain, h);
    cut(engine, r, run.count as u64, size, keep, run.chain, h)
}

#[tactic(auto, unfolding(orders::specs::Rewind::starts_off_block))]
fn starts_off_block(w: u64, total: u64, size: u64) -> bool
    ensures { result ≡ starts_off_block (block_bytes (size_of w)) total size }
{
    total < size || (total - size) % runs::block_bytes(w) as u64 != 0
}

#[tactic(auto, unfolding(orders::specs::Rewind::keeps_too_much))]
pub fn keeps_too_much(w: u64, keep: u64, size: u64) -> bool
    ensures { result ≡ keeps_too_much (block_bytes (size_of w)) keep size }
{
    size < keep || runs::block_bytes(w) as u64 <= keep
}

// Where size bytes were handed back, which lead back to the chain over count blocks, and the first keep of the bytes s remain. The count is handed on from what ran the blocks.
// OpeningDiffers is known only after the run, which is on copies, so a refusal has nothing to undo.
// The definition has size, keep, chain and s in a record (`Cut`); here a struct of them would be made at each call and taken apart at once.
#[tactic(auto, unfolding(orders::specs::Rewind::cut_call, orders::specs::Rewind::opening_differs, orders::specs::Rewind::rewound, orders::specs::Record::held_of))]
pub fn cut(
    engine: Engine,
    r: Record,
    count: u64,
    size: u64,
    keep: u64,
    chain: [u64; 16],
    s: &[u8],
) -> Result<Step, Refusal>
    requires { (sound r ≡ true)
        × (count ≡ size / block_bytes (size_of r.w))
        × (size ≤ r.total)
        × (keep ≤ size)
        × (keep < block_bytes (size_of r.w))
        × (keep ≤ length s.now) }
    ensures { outcome r result ≡ cut_call r (record { size = size; keep = keep; chain = chain; bytes = s.now }) }
{
    let left = r.total - size;
    if opening_differs(engine, r.w, r.n, left, chain) {
        return Err(Refusal::OpeningDiffers);
    }
    let held = runs::zero_filled(&s[..keep as usize]);
    Ok(Step {
        count,
        next: Record {
            total: left + keep,
            chain,
            held,
            split: record::not_begun(),
            ..r
        },
    })
}

// Whether as many of the last bytes of h as are held are not those held.
#[tactic(auto, unfolding(orders::specs::Rewind::held_differs, orders::specs::Record::held_bytes))]
pub fn held_differs(r: Record, h: &[u8]) -> bool
    requires { held_length r.w r.total ≤ length h.now }
    ensures { result ≡ held_differs r h.now }
{
    let at = record::held_length(r.w, r.total);
    !buffers::equal_bytes(&h[h.len() - at..], &r.held[..at])
}

// Whether nothing is left before the bytes handed back and the chain is not the opening chain.
fn opening_differs(engine: Engine, w: u64, n: u64, left: u64, chain: [u64; 16]) -> bool
    requires { (is_word_size w ≡ true) × (is_digest_length w n ≡ true) }
    ensures { result ≡ (eqb left 0 && not (equal chain (opening (size_of w) n))) }
{
    left == 0 && !buffers::equal_chains(chain, runs::opening(engine, w, n))
}
