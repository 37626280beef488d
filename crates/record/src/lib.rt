// The record of an order, and the call Open.
#![tactic(auto)]

ghost use Rattle.std.specs.Prelude.{◌≡◌, true, ◌^◌, Ok};
ghost use Rattle.lsh.specs.WordSize.{is_word_size};
ghost use Rattle.limits.specs.Limits.{is_digest_length};
ghost use Rattle.lists.specs.Lists.{all_below, all_zero};
ghost use Rattle.orders.specs.Split.{not_begun, none_begun, one_begun, split_sound};
ghost use Rattle.answers.specs.Refusal.{answer_of};
ghost use Rattle.orders.specs.Record.{held_length, sound, zeros, is_begun, stepped};
ghost use Rattle.orders.specs.Step.{outcome};
ghost use Rattle.orders.specs.Open.{opened, open_call};
ghost use Rattle.orders.specs.Turn.{turn_answer};

use answers::Refusal;
use limits::LONGEST_BLOCK;
use orders::{Record, Split, Step};
use runs::Engine;

// The record of a new order.
#[tactic(auto, unfolding(orders::specs::Open::open_call))]
pub fn open(engine: Engine, w: u64, n: u64) -> Result<Step, Refusal>
    ensures { outcome zeros result ≡ open_call w n }
{
    if !runs::is_word_size(w) {
        return Err(Refusal::BadWordSize);
    }
    if !runs::is_digest_length(w, n) {
        return Err(Refusal::BadDigestLength);
    }
    Ok(Step {
        count: 0,
        next: opened(engine, w, n),
    })
}

// The record of an order without bytes.
#[tactic(auto, unfolding(orders::specs::Open::opened, orders::specs::Record::held_of))]
pub fn opened(engine: Engine, w: u64, n: u64) -> Record
    requires { (is_word_size w ≡ true) × (is_digest_length w n ≡ true) }
    ensures { result ≡ opened w n }
{
    Record {
        w,
        n,
        total: 0,
        chain: runs::opening(engine, w, n),
        held: runs::zero_bytes(),
        split: not_begun(),
    }
}

// What an accepted step of a split rewind gives: the same record, but for how far the rewind is. No block is counted.
#[tactic(auto, unfolding(orders::specs::Record::stepped, orders::specs::Record::with_split))]
pub fn stepped(r: Record, split: Split) -> Step
    ensures { outcome r (Ok result) ≡ stepped r split }
{
    Step {
        count: 0,
        next: Record { split, ..r },
    }
}

// The record of zeros.
#[tactic(auto, unfolding(orders::specs::Record::zeros))]
pub fn no_record() -> Record
    ensures { result ≡ zeros }
{
    Record {
        w: 0,
        n: 0,
        total: 0,
        chain: [0u64; 16],
        held: runs::zero_bytes(),
        split: not_begun(),
    }
}

// The tests that every call makes which changes an order, where out says whether it is out of turn.
// That the record is sound then stays a clause of the functions called next. A struct that says so, made of the record once it is tested,
// was tried: the record is copied into it, and an Append of 64 bytes took 1.1 to 1.2 times as long.
#[tactic(auto, unfolding(orders::specs::Turn::turn_answer))]
pub fn turn(r: Record, out: bool) -> Result<(), Refusal>
    ensures { answer_of result ≡ turn_answer r out }
{
    if !is_sound(r) {
        return Err(Refusal::UnsoundRecord);
    }
    if out {
        return Err(Refusal::OutOfTurn);
    }
    Ok(())
}

// What a record has of a split rewind while none is begun.
#[tactic(auto, unfolding(orders::specs::Split::not_begun))]
pub fn not_begun() -> Split
    ensures { result ≡ not_begun }
{
    Split {
        mark: 0,
        second: [0u64; 16],
        back: runs::zero_bytes(),
        blocks: 0,
    }
}

// Whether the calls take the record.
#[tactic(auto, unfolding(orders::specs::Record::sound, limits::specs::Limits::limit))]
pub fn is_sound(r: Record) -> bool
    ensures { result ≡ sound r }
{
    runs::is_word_size(r.w)
        && runs::is_digest_length(r.w, r.n)
        && r.total <= limits::LIMIT as u64
        && words_below(r.w, r.chain)
        && buffers::zero_from(&r.held, held_length(r.w, r.total))
        && is_split_sound(r.w, r.total, r.chain, r.split)
}

// Whether a split rewind is begun.
#[tactic(auto, unfolding(orders::specs::Record::is_begun))]
pub fn is_begun(r: Record) -> bool
    ensures { result ≡ is_begun r }
{
    r.split.mark == 1
}

// Whether the record has of a split rewind what it may.
#[tactic(auto, unfolding(orders::specs::Split::split_sound))]
fn is_split_sound(w: u64, total: u64, chain: [u64; 16], s: Split) -> bool
    requires { is_word_size w ≡ true }
    ensures { result ≡ split_sound w total chain s }
{
    is_none_begun(s) || is_one_begun(w, total, chain, s)
}

// Whether all is zero.
#[tactic(auto, unfolding(orders::specs::Split::none_begun))]
fn is_none_begun(s: Split) -> bool
    ensures { result ≡ none_begun s }
{
    s.mark == 0 && s.blocks == 0 && words_zero(s.second) && buffers::zero_from(&s.back, 0)
}

// Whether one is begun, in an order of this total and chain.
#[tactic(auto, unfolding(orders::specs::Split::one_begun))]
fn is_one_begun(w: u64, total: u64, chain: [u64; 16], s: Split) -> bool
    requires { is_word_size w ≡ true }
    ensures { result ≡ one_begun w total chain s }
{
    let b = runs::block_bytes(w);
    s.mark == 1
        && s.blocks <= total / b as u64
        && words_below(w, s.second)
        && buffers::zero_from(&s.back, b)
        && (s.blocks != 0
            || buffers::equal_chains(s.second, chain) && buffers::zero_from(&s.back, 0))
}

// How many bytes are held of an order of this total: those after its last whole block.
pub fn held_length(w: u64, total: u64) -> usize
    ensures { result ≡ held_length w total }
{
    total as usize % runs::block_bytes(w)
}

// Whether each word of the chain has w bits.
fn words_below(w: u64, chain: [u64; 16]) -> bool
    requires { is_word_size w ≡ true }
    ensures { result ≡ all_below (2 ^ w) chain }
{
    if w == 64 {
        return true;
    }
    chain.iter().all(|word| *word < 1 << 32)
}

// Whether each word is 0. A fold, and not all(): it has no early end, so that the compiler tests many words at once.
fn words_zero(t: [u64; 16]) -> bool
    ensures { result ≡ all_zero t }
{
    t.iter().fold(true, |zero, word| zero & (*word == 0))
}
