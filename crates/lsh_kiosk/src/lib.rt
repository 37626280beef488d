// The calls for C. Each is declared, with its answers, in include/lsh_kiosk.h, and is one line over the call that it carries the
// equation of, with the number in place of a refusal. Records and answers pass by value, and the engine as a number, which only `Engine` of crate runs reads.
#![tactic(auto)]

ghost use Rattle.std.specs.Prelude.{◌≡◌, length};
ghost use Rattle.blocks.specs.BlockCall.{block_answer, forward_bytes, backward_bytes};
ghost use Rattle.orders.specs.Record.{zeros};
ghost use Rattle.orders.specs.Step.{outcome};
ghost use Rattle.orders.specs.Open.{open_call};
ghost use Rattle.orders.specs.Append.{append_call};
ghost use Rattle.orders.specs.Rewind.{rewind_call};
ghost use Rattle.orders.specs.Begin.{begin_call};
ghost use Rattle.orders.specs.HandBack.{hand_back_call};
ghost use Rattle.orders.specs.End.{end_call};
ghost use Rattle.orders.specs.Abandon.{abandon_call};
ghost use Rattle.checkpoints.specs.FreeSlot.{free_slot, FreeChoice};
ghost use Rattle.checkpoints.specs.AppendRoll.{append_roll_call, appended_roll};
ghost use Rattle.checkpoints.specs.RewindRoll.{rewind_roll_call, rewound_roll};
ghost use Rattle.checkpoints.specs.EndRoll.{end_roll_call, ended_roll};
ghost use Rattle.receipts.specs.Close.{close_answer, close_output};
ghost use Rattle.receipts.specs.Whole.{whole_answer, whole_output};
ghost use Rattle.receipts.specs.Same.{same_call};
ghost use Rattle.receipts.specs.Tally.{tally_call};
ghost use Rattle.tags.specs.KeyAnswer.{tag_answer, finish_answer};
ghost use Rattle.tags.specs.Tag.{tag_output};
ghost use Rattle.tags.specs.Start.{start_call};
ghost use Rattle.tags.specs.Finish.{finish_output};
ghost use Rattle.tags.specs.Check.{check_call};

use answers::Refusal;
use orders::{Outcome, Record, Step};
use receipts::{Counts, Sameness};
use runs::Engine;

#[unsafe(no_mangle)]
pub extern "C" fn lsh_block_forward(engine: u64, w: u64, chain: &mut [u8], block: &[u8]) -> u32
    ensures { (result ≡ block_answer w (length chain.old) (length block.now)) × (chain.new ≡ forward_bytes w chain.old block.now) }
{
    numbered::answer(block_call::forward(Engine::from(engine), w, chain, block))
}

#[unsafe(no_mangle)]
pub extern "C" fn lsh_block_backward(engine: u64, w: u64, chain: &mut [u8], block: &[u8]) -> u32
    ensures { (result ≡ block_answer w (length chain.old) (length block.now)) × (chain.new ≡ backward_bytes w chain.old block.now) }
{
    numbered::answer(block_call::backward(Engine::from(engine), w, chain, block))
}

#[unsafe(no_mangle)]
pub extern "C" fn lsh_open(engine: u64, w: u64, n: u64) -> Outcome
    ensures { result ≡ open_call w n }
{
    begun(record::open(Engine::from(engine), w, n))
}

#[unsafe(no_mangle)]
pub extern "C" fn lsh_append(engine: u64, r: Record, piece: &[u8]) -> Outcome
    ensures { result ≡ append_call r piece.now }
{
    numbered::outcome(r, append::append(Engine::from(engine), r, piece))
}

#[unsafe(no_mangle)]
pub extern "C" fn lsh_rewind(engine: u64, r: Record, keep: u64, h: &[u8]) -> Outcome
    ensures { result ≡ rewind_call r keep h.now }
{
    numbered::outcome(r, rewind::rewind(Engine::from(engine), r, keep, h))
}

#[unsafe(no_mangle)]
pub extern "C" fn lsh_begin(r: Record, bytes: &[u8]) -> Outcome
    ensures { result ≡ begin_call r bytes.now }
{
    numbered::outcome(r, split_rewind::begin(r, bytes))
}

#[unsafe(no_mangle)]
pub extern "C" fn lsh_hand_back(engine: u64, r: Record, block: &[u8]) -> Outcome
    ensures { result ≡ hand_back_call r block.now }
{
    numbered::outcome(r, split_rewind::hand_back(Engine::from(engine), r, block))
}

#[unsafe(no_mangle)]
pub extern "C" fn lsh_end(engine: u64, r: Record, keep: u64) -> Outcome
    ensures { result ≡ end_call r keep }
{
    numbered::outcome(r, split_rewind::end(Engine::from(engine), r, keep))
}

#[unsafe(no_mangle)]
pub extern "C" fn lsh_abandon(r: Record) -> Outcome
    ensures { result ≡ abandon_call r }
{
    numbered::outcome(r, split_rewind::abandon(r))
}

#[unsafe(no_mangle)]
pub extern "C" fn lsh_append_roll(engine: u64, r: Record, piece: &[u8], roll: &mut [u8]) -> Outcome
    ensures { (result ≡ append_roll_call r piece.now roll.old) × (roll.new ≡ appended_roll r piece.now roll.old) × FreeChoice free_slot }
{
    numbered::outcome(
        r,
        append_roll::append_roll(Engine::from(engine), r, piece, roll),
    )
}

#[unsafe(no_mangle)]
pub extern "C" fn lsh_rewind_roll(
    engine: u64,
    r: Record,
    keep: u64,
    h: &[u8],
    roll: &mut [u8],
) -> Outcome
    ensures { (result ≡ rewind_roll_call r keep h.now roll.old) × (roll.new ≡ rewound_roll r keep h.now roll.old) }
{
    numbered::outcome(
        r,
        rewind_roll::rewind_roll(Engine::from(engine), r, keep, h, roll),
    )
}

#[unsafe(no_mangle)]
pub extern "C" fn lsh_end_roll(engine: u64, r: Record, keep: u64, roll: &mut [u8]) -> Outcome
    ensures { (result ≡ end_roll_call r keep roll.old) × (roll.new ≡ ended_roll r keep roll.old) }
{
    numbered::outcome(
        r,
        rewind_roll::end_roll(Engine::from(engine), r, keep, roll),
    )
}

#[unsafe(no_mangle)]
pub extern "C" fn lsh_close(engine: u64, r: Record, last: u8, e: u64, output: &mut [u8]) -> u32
    ensures { (result ≡ close_answer r last e (length output.old)) × (output.new ≡ close_output r last e output.old) }
{
    numbered::answer(close::close(Engine::from(engine), r, last, e, output))
}

#[unsafe(no_mangle)]
pub extern "C" fn lsh_whole(
    engine: u64,
    w: u64,
    n: u64,
    message: &[u8],
    last: u8,
    e: u64,
    output: &mut [u8],
) -> u32
    ensures { (result ≡ whole_answer w n (length message.now) last e (length output.old)) × (output.new ≡ whole_output w n message.now last e output.old) }
{
    numbered::answer(whole::whole(Engine::from(engine), w, n, message, last, e, output))
}

#[unsafe(no_mangle)]
pub extern "C" fn lsh_same(a: &[u8], b: &[u8]) -> Sameness
    ensures { result ≡ same_call a.now b.now }
{
    numbered::sameness(same::same(a, b))
}

#[unsafe(no_mangle)]
pub extern "C" fn lsh_tally(list: &[u8]) -> Counts
    ensures { result ≡ tally_call list.now }
{
    numbered::counts(tally::tally(list))
}

#[unsafe(no_mangle)]
pub extern "C" fn lsh_tag(
    engine: u64,
    w: u64,
    n: u64,
    key: &[u8],
    message: &[u8],
    output: &mut [u8],
) -> u32
    ensures { (result ≡ tag_answer w n (length key.now) (length message.now) (length output.old)) × (output.new ≡ tag_output w n key.now message.now output.old) }
{
    numbered::answer(tag::tag(Engine::from(engine), w, n, key, message, output))
}

#[unsafe(no_mangle)]
pub extern "C" fn lsh_tag_start(engine: u64, w: u64, n: u64, key: &[u8]) -> Outcome
    ensures { result ≡ start_call w n key.now }
{
    begun(tag::start(Engine::from(engine), w, n, key))
}

#[unsafe(no_mangle)]
pub extern "C" fn lsh_tag_finish(engine: u64, r: Record, key: &[u8], output: &mut [u8]) -> u32
    ensures { (result ≡ finish_answer r (length key.now) (length output.old)) × (output.new ≡ finish_output r key.now output.old) }
{
    numbered::answer(tag::finish(Engine::from(engine), r, key, output))
}

#[unsafe(no_mangle)]
pub extern "C" fn lsh_tag_check(
    engine: u64,
    w: u64,
    n: u64,
    key: &[u8],
    message: &[u8],
    tag: &[u8],
) -> Sameness
    ensures { result ≡ check_call w n key.now message.now tag.now }
{
    numbered::sameness(tag::check(Engine::from(engine), w, n, key, message, tag))
}

// Of a call that begins an order: where it is refused there is none yet. The record of zeros is made only then.
fn begun(given: Result<Step, Refusal>) -> Outcome
    ensures { result ≡ outcome zeros given }
{
    match given {
        Ok(step) => numbered::outcome(step.next, Ok(step)),
        Err(refusal) => numbered::outcome(record::no_record(), Err(refusal)),
    }
}
