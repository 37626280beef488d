// Whole blocks of LSH run forward and backward on a chain of 16 words, for either word size. An engine is what mixes a chain: word by word here, and in groups of four words
// in crates above.
#![tactic(auto)]

ghost use Rattle.std.specs.Prelude.{◌≡◌, ◌+◌, ◌*◌, ◌/◌, ◌<◌, ◌≤◌, length, take};
ghost use Rattle.std.proofs.lemmas.List.Edits.{sets};
ghost use Rattle.lsh.specs.WordSize.{chain_bytes, block_bytes};
ghost use Rattle.lsh.specs.StepConstants.{constants};
ghost use Rattle.lsh.specs.Bytes.{words_of, bytes_of};
ghost use Rattle.lsh.specs.Step.{mix, unmix, step, unstep};
ghost use Rattle.lsh.specs.Expansion.{next_sub_message};
ghost use Rattle.lsh.specs.Block.{forward_steps, backward_steps, forwards_steps, backwards_steps};
ghost use Rattle.lsh.specs.Padding.{blocks_of};
ghost use Rattle.loops.specs.Rows.{expanded_words, row, Expanded};
ghost use Rattle.loops.specs.Turns.{RunTo, RunBack};

use word::Word;

// A chain after whole blocks, and how many there were.
#[derive(Clone, Copy)]
pub struct Run<W> {
    pub chain: [W; 16],
    pub count: usize,
}

// The mix of a step (10), where sc has the step constants.
pub trait Mix<W: Word> {
    fn mix(sc: &[W], j: usize, t: [W; 16]) -> [W; 16]
        requires { (W.numbers sc.now ≡ constants W.size) × (j < W.size.steps) }
        ensures { W.numbers result ≡ mix W.size j (W.numbers t) };

    fn unmix(sc: &[W], j: usize, t: [W; 16]) -> [W; 16]
        requires { (W.numbers sc.now ≡ constants W.size) × (j < W.size.steps) }
        ensures { W.numbers result ≡ unmix W.size j (W.numbers t) };
}

// Word by word.
pub struct ByWord {}

impl<W: Word> Mix<W> for ByWord {
    fn mix(sc: &[W], j: usize, t: [W; 16]) -> [W; 16]
        requires { (W.numbers sc.now ≡ constants W.size) × (j < W.size.steps) }
        ensures { W.numbers result ≡ mix W.size j (W.numbers t) }
    {
        steps::mix(sc, j, t)
    }

    fn unmix(sc: &[W], j: usize, t: [W; 16]) -> [W; 16]
        requires { (W.numbers sc.now ≡ constants W.size) × (j < W.size.steps) }
        ensures { W.numbers result ≡ unmix W.size j (W.numbers t) }
    {
        steps::unmix(sc, j, t)
    }
}

const TAU: [usize; 16] = [3, 2, 0, 1, 7, 4, 5, 6, 11, 10, 8, 9, 15, 12, 13, 14];

// M_0 and M_1 (7): the words of a block. The loops over words go by place, as those of crates/steps: see there.
pub fn load_block<W: Word>(m: &mut [W], s: &[u8])
    requires { (32 ≤ length m.old) × (length s.now ≡ block_bytes W.size) }
    ensures { W.numbers m.new ≡ sets (W.numbers m.old) 0 (words_of W.size 32 s.now) }
{
    for l in 0..32 {
        m[l] = W::load(s, l * W::BYTES);
    }
}

// M_j
pub fn sub_message<W: Word>(m: &[W], j: usize) -> [W; 16]
    requires { j * 16 + 16 ≤ length m.now }
    ensures { W.numbers result ≡ row (W.numbers m.now) j }
{
    word::part(m, j * 16)
}

pub fn put_sub_message<W: Word>(m: &mut [W], j: usize, r: [W; 16])
    requires { j * 16 + 16 ≤ length m.old }
    ensures { W.numbers m.new ≡ sets (W.numbers m.old) (j * 16) (W.numbers r) }
{
    word::put(m, j * 16, r);
}

// A sub-message from the two before it, p and q (8).
pub fn next_sub_message<W: Word>(p: [W; 16], q: [W; 16]) -> [W; 16]
    ensures { W.numbers result ≡ next_sub_message W.size (W.numbers p) (W.numbers q) }
{
    let tau = TAU;
    let mut r = [W::ZERO; 16];
    for l in 0..16 {
        r[l] = p[l].add(q[tau[l]]);
    }
    r
}

// M_2 to M_steps, where M_1 and M_0 are last and before. The two rows before are at hand: a row read again would have to wait until it is stored, and the compiler works on
// several words at once.
pub fn expand<W: Word>(m: &mut [W], steps: usize, last: [W; 16], before: [W; 16])
    requires { (length m.old ≡ expanded_words W.size) × (1 ≤ steps) × (steps ≤ W.size.steps) × (W.numbers last ≡ row (W.numbers m.old) 1) × (W.numbers before ≡ row (W.numbers m.old) 0) }
    ensures { Expanded W.size (take 32 (W.numbers m.old)) (W.numbers m.new) steps }
{
    let mut p = last;
    let mut q = before;
    for j in 0..steps - 1 {
        let r = next_sub_message(p, q);
        put_sub_message(m, j + 2, r);
        q = p;
        p = r;
    }
}

// (6)
pub fn step<W: Word, M: Mix<W>>(sc: &[W], j: usize, m: [W; 16], t: [W; 16]) -> [W; 16]
    requires { (W.numbers sc.now ≡ constants W.size) × (j < W.size.steps) }
    ensures { W.numbers result ≡ step W.size j (W.numbers m) (W.numbers t) }
{
    steps::permute(M::mix(sc, j, steps::add_message(t, m)))
}

pub fn unstep<W: Word, M: Mix<W>>(sc: &[W], j: usize, m: [W; 16], t: [W; 16]) -> [W; 16]
    requires { (W.numbers sc.now ≡ constants W.size) × (j < W.size.steps) }
    ensures { W.numbers result ≡ unstep W.size j (W.numbers m) (W.numbers t) }
{
    steps::add_message(M::unmix(sc, j, steps::unpermute(t)), m)
}

// The steps j and j + 1: with an even j the amounts of both are constants to the compiler.
fn two_steps<W: Word, M: Mix<W>>(sc: &[W], m: &[W], j: usize, t: [W; 16]) -> [W; 16]
    requires { (W.numbers sc.now ≡ constants W.size) × (length m.now ≡ expanded_words W.size) × (j + 1 < W.size.steps) }
    ensures { W.numbers result ≡ step W.size (j + 1) (row (W.numbers m.now) (j + 1)) (step W.size j (row (W.numbers m.now) j) (W.numbers t)) }
{
    let u = step::<W, M>(sc, j, sub_message(m, j), t);
    step::<W, M>(sc, j + 1, sub_message(m, j + 1), u)
}

fn two_unsteps<W: Word, M: Mix<W>>(sc: &[W], m: &[W], j: usize, t: [W; 16]) -> [W; 16]
    requires { (W.numbers sc.now ≡ constants W.size) × (length m.now ≡ expanded_words W.size) × (j + 1 < W.size.steps) }
    ensures { W.numbers result ≡ unstep W.size j (row (W.numbers m.now) j) (unstep W.size (j + 1) (row (W.numbers m.now) (j + 1)) (W.numbers t)) }
{
    let u = unstep::<W, M>(sc, j + 1, sub_message(m, j + 1), t);
    unstep::<W, M>(sc, j, sub_message(m, j), u)
}

// All the steps on the chain t, and then M_Ns. Full runs have loops of their own: the number of turns is a constant to the compiler.
fn all_steps<W: Word, M: Mix<W>>(sc: &[W], m: &[W], t: [W; 16]) -> [W; 16]
    requires { (W.numbers sc.now ≡ constants W.size) × (length m.now ≡ expanded_words W.size) }
    ensures { RunTo W.size (W.numbers m.now) W.size.steps (W.numbers t) (W.numbers result) }
{
    let mut r = t;
    for k in 0..W::STEPS / 2 {
        let u = two_steps::<W, M>(sc, m, k * 2, r);
        r = u;
    }
    steps::add_message(r, sub_message(m, W::STEPS))
}

fn all_unsteps<W: Word, M: Mix<W>>(sc: &[W], m: &[W], t: [W; 16]) -> [W; 16]
    requires { (W.numbers sc.now ≡ constants W.size) × (length m.now ≡ expanded_words W.size) }
    ensures { RunBack W.size (W.numbers m.now) W.size.steps 0 (W.numbers t) (W.numbers result) }
{
    let mut r = steps::add_message(t, sub_message(m, W::STEPS));
    for k in (0..W::STEPS / 2).rev() {
        let u = two_unsteps::<W, M>(sc, m, k * 2, r);
        r = u;
    }
    r
}

// Any number of steps: an odd one ends in the middle of a turn.
fn some_steps<W: Word, M: Mix<W>>(sc: &[W], m: &[W], steps: usize, t: [W; 16]) -> [W; 16]
    requires { (W.numbers sc.now ≡ constants W.size) × (length m.now ≡ expanded_words W.size) × (steps ≤ W.size.steps) }
    ensures { RunTo W.size (W.numbers m.now) steps (W.numbers t) (W.numbers result) }
{
    let mut r = t;
    for k in 0..(steps + 1) / 2 {
        let j = k * 2;
        let u = step::<W, M>(sc, j, sub_message(m, j), r);
        let i = j + 1;
        if i == steps {
            return steps::add_message(u, sub_message(m, steps));
        }
        let v = step::<W, M>(sc, i, sub_message(m, i), u);
        r = v;
    }
    steps::add_message(r, sub_message(m, steps))
}

fn some_unsteps<W: Word, M: Mix<W>>(sc: &[W], m: &[W], steps: usize, t: [W; 16]) -> [W; 16]
    requires { (W.numbers sc.now ≡ constants W.size) × (length m.now ≡ expanded_words W.size) × (steps ≤ W.size.steps) }
    ensures { RunBack W.size (W.numbers m.now) steps 0 (W.numbers t) (W.numbers result) }
{
    let mut r = last_unstep::<W, M>(sc, m, steps, t);
    for k in (0..steps / 2).rev() {
        let u = two_unsteps::<W, M>(sc, m, k * 2, r);
        r = u;
    }
    r
}

// M_steps, and the last of an odd number of steps, so that pairs are left.
fn last_unstep<W: Word, M: Mix<W>>(sc: &[W], m: &[W], steps: usize, t: [W; 16]) -> [W; 16]
    requires { (W.numbers sc.now ≡ constants W.size) × (length m.now ≡ expanded_words W.size) × (steps ≤ W.size.steps) }
    ensures { RunBack W.size (W.numbers m.now) steps (steps / 2 * 2) (W.numbers t) (W.numbers result) }
{
    let r = steps::add_message(t, sub_message(m, steps));
    if steps % 2 == 0 {
        return r;
    }
    unstep::<W, M>(sc, steps - 1, sub_message(m, steps - 1), r)
}

// The block s on the chain t, with this number of steps. m is room for the sub-messages.
fn forward_block<W: Word, M: Mix<W>>(
    sc: &[W],
    m: &mut [W],
    steps: usize,
    s: &[u8],
    t: [W; 16],
) -> [W; 16]
    requires { (W.numbers sc.now ≡ constants W.size) × (length m.old ≡ expanded_words W.size) × (1 ≤ steps) × (steps ≤ W.size.steps) × (length s.now ≡ block_bytes W.size) }
    ensures { W.numbers result ≡ forward_steps W.size steps (words_of W.size 32 s.now) (W.numbers t) }
{
    load_block(m, s);
    let before = sub_message(m, 0);
    let last = sub_message(m, 1);
    expand(m, steps, last, before);
    if steps == W::STEPS {
        return all_steps::<W, M>(sc, m, t);
    }
    some_steps::<W, M>(sc, m, steps, t)
}

fn backward_block<W: Word, M: Mix<W>>(
    sc: &[W],
    m: &mut [W],
    steps: usize,
    s: &[u8],
    t: [W; 16],
) -> [W; 16]
    requires { (W.numbers sc.now ≡ constants W.size) × (length m.old ≡ expanded_words W.size) × (1 ≤ steps) × (steps ≤ W.size.steps) × (length s.now ≡ block_bytes W.size) }
    ensures { W.numbers result ≡ backward_steps W.size steps (words_of W.size 32 s.now) (W.numbers t) }
{
    load_block(m, s);
    let before = sub_message(m, 0);
    let last = sub_message(m, 1);
    expand(m, steps, last, before);
    if steps == W::STEPS {
        return all_unsteps::<W, M>(sc, m, t);
    }
    some_unsteps::<W, M>(sc, m, steps, t)
}

// Runs the whole blocks of s forward, in order, on the chain t, with this number of steps each. sc and m are room for the step constants and the sub-messages: an array whose
// length depends on W cannot be made here. k is the number of a block, by which the law of the run goes (`RunForward`).
pub fn forward<W: Word, M: Mix<W>>(
    sc: &mut [W],
    m: &mut [W],
    steps: usize,
    t: [W; 16],
    s: &[u8],
) -> Run<W>
    requires { (length sc.old ≡ W.size.steps * 8) × (length m.old ≡ expanded_words W.size) × (1 ≤ steps) × (steps ≤ W.size.steps) }
    ensures { (W.numbers result.chain ≡ forwards_steps W.size steps (blocks_of W.size s.now) (W.numbers t)) × (result.count ≡ length s.now / block_bytes W.size) }
{
    constants::write_constants(sc, W::FIRST_CONSTANTS);
    let block = W::BLOCK;
    let n = s.len() / block;
    let mut c = t;
    let mut count = 0;
    for k in 0..n {
        let a = k * block;
        let e = a + block;
        let next = forward_block::<W, M>(sc, m, steps, &s[a..e], c);
        c = next;
        count += 1;
    }
    Run { chain: c, count }
}

// Runs the whole blocks of s backward, from the last, on the chain t.
pub fn backward<W: Word, M: Mix<W>>(
    sc: &mut [W],
    m: &mut [W],
    steps: usize,
    t: [W; 16],
    s: &[u8],
) -> Run<W>
    requires { (length sc.old ≡ W.size.steps * 8) × (length m.old ≡ expanded_words W.size) × (1 ≤ steps) × (steps ≤ W.size.steps) }
    ensures { (W.numbers result.chain ≡ backwards_steps W.size steps (blocks_of W.size s.now) (W.numbers t)) × (result.count ≡ length s.now / block_bytes W.size) }
{
    constants::write_constants(sc, W::FIRST_CONSTANTS);
    let block = W::BLOCK;
    let n = s.len() / block;
    let mut c = t;
    let mut count = 0;
    for k in (0..n).rev() {
        let a = k * block;
        let e = a + block;
        let before = backward_block::<W, M>(sc, m, steps, &s[a..e], c);
        c = before;
        count += 1;
    }
    Run { chain: c, count }
}

// The words of a chain's bytes.
pub fn load_chain<W: Word>(s: &[u8], r: &mut [W; 16])
    requires { length s.now ≡ chain_bytes W.size }
    ensures { W.numbers r.new ≡ words_of W.size 16 s.now }
{
    for l in 0..16 {
        r[l] = W::load(s, l * W::BYTES);
    }
}

// Puts the bytes of a chain into d.
pub fn store_chain<W: Word>(d: &mut [u8], t: [W; 16])
    requires { length d.old ≡ chain_bytes W.size }
    ensures { d.new ≡ bytes_of W.size (W.numbers t) }
{
    for l in 0..16 {
        t[l].store(d, l * W::BYTES);
    }
}
