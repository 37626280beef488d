// A roll of checkpoints in a lent buffer: its slots are walked from the head, a checkpoint is inserted behind the last, and links are taken off.
#![tactic(auto)]

ghost use Rattle.std.specs.Prelude.{◌≡◌, true, false, List, ℕ, ◌+◌, ◌<◌, ◌≤◌, length, set, Some, IfOk};
ghost use Rattle.answers.specs.Refusal.{answer_of};
ghost use Rattle.lsh.specs.WordSize.{is_word_size, size_of};
ghost use Rattle.lsh.specs.Bytes.{word_at};
ghost use Rattle.lsh.specs.Block.{Chain};
ghost use Rattle.orders.specs.Record.{sound};
ghost use Rattle.checkpoints.specs.Slots.{index_bytes, most_slots, slot_bytes, slot_count, is_roll_length, index_place};
ghost use Rattle.checkpoints.specs.Roll.{next_index, links, is_roll, checkpoints, roll_answer};
ghost use Rattle.checkpoints.specs.FreeSlot.{free_slot};
ghost use Rattle.checkpoints.specs.Checkpoints.{with_index, with_slot, lead_to, inserted, unlinked};
ghost use Rattle.roll.specs.Traversal.{marked, traversal_of};

use answers::Refusal;
use orders::Record;

// The most slots of a roll.
pub const MOST_SLOTS: usize = 255;

// The bytes of an index.
const INDEX: usize = 2;

// A mark for the head and for each slot.
const MARKS: usize = MOST_SLOTS + 1;

// A checkpoint is inserted at every 64th block.
pub const SPACING: u64 = 64;

// What is known of a roll that was walked: how many slots it has and how many of them are linked, the last link, or 0, and which slots are linked. A mark is
// a number, 0 or 1, since the laws of lists by place are over numbers.
#[derive(Clone, Copy)]
pub struct Traversal {
    pub slots: usize,
    pub count: usize,
    pub last: usize,
    pub marks: [u8; MARKS],
}

// Walks the links from the head, if the buffer is a roll.
pub fn walk(w: u64, roll: &[u8]) -> Option<Traversal>
    ensures { result ≡ traversal_of (size_of w) roll.now }
{
    if !is_roll_length(w, roll.len()) {
        return None;
    }
    walk_links(w, slot_count(w, roll.len()), roll)
}

// The tests that a call with a roll makes first, where out says whether it is out of turn. A call that passes them gets what is known of the roll.
#[tactic(auto, unfolding(checkpoints::specs::Roll::roll_answer, checkpoints::specs::Roll::is_roll_of, answers::specs::First::first, crate::specs::Traversal::traversal_of, orders::specs::Turn::turn_answer))]
pub fn turn(r: Record, out: bool, roll: &[u8]) -> Result<Traversal, Refusal>
    ensures { (answer_of result ≡ roll_answer r out roll.now) × IfOk result (λ y. (sound r ≡ true) × (out ≡ false) × (Some y ≡ traversal_of (size_of r.w) roll.now)) }
{
    record::turn(r, out)?;
    match walk(r.w, roll) {
        Some(known) if known.count as u64 == checkpoints(r.w, r.total) => Ok(known),
        _ => Err(Refusal::BadRoll),
    }
}

// How many checkpoints an order of this total has.
pub fn checkpoints(w: u64, total: u64) -> u64
    ensures { result ≡ checkpoints w total }
{
    total / runs::block_bytes(w) as u64 / SPACING
}

// Inserts a checkpoint with the chain t in a slot that is not linked, behind the last link; its number is not written. Returns what is known of the roll then.
pub fn insert(w: u64, y: Traversal, roll: &mut [u8], t: [u64; 16]) -> Traversal
    requires { (is_word_size w ≡ true) × Chain (size_of w) t × (Some y ≡ traversal_of (size_of w) roll.old) × (y.count < y.slots) }
    ensures { ((k : ℕ) → roll.new ≡ inserted (size_of w) (record { number = k; chain = t }) roll.old) × (Some result ≡ traversal_of (size_of w) roll.new) }
{
    let i = free_slot(y.slots, y.marks);
    put_slot(w, roll, i, t);
    put_index(w, roll, y.last, i);
    with_link(y, i)
}

// Takes off the links from the m-th on, counted from 0, if there are any of the count links.
pub fn unlink(w: u64, roll: &mut [u8], count: usize, m: usize)
    requires { (is_roll (size_of w) roll.old ≡ true) × (count ≡ length (links (size_of w) roll.old)) }
    ensures { roll.new ≡ unlinked (size_of w) m roll.old }
{
    if m < count {
        let i = lead_to(w, roll, m);
        put_index(w, roll, i, 0);
    }
}

fn slot_bytes(w: u64) -> usize
    ensures { result ≡ slot_bytes (size_of w) }
{
    INDEX + runs::chain_bytes(w)
}

#[tactic(auto, unfolding(checkpoints::specs::Slots::slot_count))]
fn slot_count(w: u64, size: usize) -> usize
    ensures { result ≡ slot_count (size_of w) size }
{
    size.saturating_sub(INDEX) / slot_bytes(w)
}

#[tactic(auto, unfolding(checkpoints::specs::Slots::is_roll_length, checkpoints::specs::Slots::roll_bytes))]
fn is_roll_length(w: u64, size: usize) -> bool
    ensures { result ≡ is_roll_length (size_of w) size }
{
    let k = slot_count(w, size);
    1 <= k && k <= MOST_SLOTS && size == INDEX + k * slot_bytes(w)
}

// The links of a roll of right length. Each index leads to the next, so that there is nothing to go over but they.
fn walk_links(w: u64, slots: usize, roll: &[u8]) -> Option<Traversal>
    requires { (is_roll_length (size_of w) (length roll.now) ≡ true) × (slots ≡ slot_count (size_of w) (length roll.now)) }
    ensures { result ≡ traversal_of (size_of w) roll.now }
{
    let mut marks = [0; MARKS];
    let mut count = 0;
    let mut last = 0;
    let mut i = next_index(w, roll, 0);
    while i != 0 {
        if slots < i {
            return None;
        }
        if marks[i] != 0 {
            return None;
        }
        marks[i] = 1;
        count += 1;
        last = i;
        i = next_index(w, roll, i);
    }
    Some(Traversal {
        slots,
        count,
        last,
        marks,
    })
}

// The walk with one link more.
fn with_link(y: Traversal, i: usize) -> Traversal
    requires { (i ≤ most_slots) × (y.count < most_slots) }
    ensures { result ≡ record { slots = y.slots; count = y.count + 1; last = i; marks = set y.marks i 1 } }
{
    let mut marks = y.marks;
    marks[i] = 1;
    Traversal {
        slots: y.slots,
        count: y.count + 1,
        last: i,
        marks,
    }
}

// The slot that is taken, of the first k, or k + 1 if none is free. Slots are counted from 1, so the loop is over their numbers.
fn free_slot(k: usize, marks: [u8; MARKS]) -> usize
    requires { k ≤ most_slots }
    ensures { (linked : List ℕ) → marks ≡ marked linked → result ≡ free_slot k linked }
{
    for i in 1..k + 1 {
        if marks[i] == 0 {
            return i;
        }
    }
    k + 1
}

// The slot before the m-th link, or 0 for the head.
fn lead_to(w: u64, roll: &[u8], m: usize) -> usize
    requires { (is_roll (size_of w) roll.now ≡ true) × (m < length (links (size_of w) roll.now)) }
    ensures { result ≡ lead_to (size_of w) roll.now m }
{
    let mut i: usize = 0;
    for j in 0..m {
        i = next_index(w, roll, i);
    }
    i
}

// Where the index that leads on from slot i stands; 0 is the head.
fn index_place(w: u64, i: usize) -> usize
    requires { i ≤ most_slots }
    ensures { result ≡ index_place (size_of w) i }
{
    if i == 0 {
        return 0;
    }
    INDEX + (i - 1) * slot_bytes(w)
}

// The index that leads on from slot i.
fn next_index(w: u64, roll: &[u8], i: usize) -> usize
    requires { (is_roll_length (size_of w) (length roll.now) ≡ true) × (i ≤ slot_count (size_of w) (length roll.now)) }
    ensures { result ≡ next_index (size_of w) roll.now i }
{
    read_index(roll, index_place(w, i))
}

#[tactic(auto, unfolding(lsh::specs::Bytes::word_at))]
fn read_index(s: &[u8], a: usize) -> usize
    requires { a + index_bytes ≤ length s.now }
    ensures { result ≡ word_at index_bytes s.now a }
{
    usize::from(s[a]) + 256 * usize::from(s[a + 1])
}

// Writes the index that leads on from slot i.
fn put_index(w: u64, roll: &mut [u8], i: usize, next: usize)
    requires { (is_roll_length (size_of w) (length roll.old) ≡ true) × (i ≤ slot_count (size_of w) (length roll.old)) × (next ≤ most_slots) }
    ensures { roll.new ≡ with_index (size_of w) roll.old i next }
{
    let a = index_place(w, i);
    roll[a] = (next % 256) as u8;
    roll[a + 1] = (next / 256) as u8;
}

// Writes slot i, with no slot after it.
fn put_slot(w: u64, roll: &mut [u8], i: usize, t: [u64; 16])
    requires { (is_word_size w ≡ true) × Chain (size_of w) t × (is_roll_length (size_of w) (length roll.old) ≡ true) × (0 < i) × (i ≤ slot_count (size_of w) (length roll.old)) }
    ensures { roll.new ≡ with_slot (size_of w) roll.old i t }
{
    put_index(w, roll, i, 0);
    let a = index_place(w, i) + INDEX;
    let e = a + runs::chain_bytes(w);
    runs::store_chain(w, &mut roll[a..e], t);
}
