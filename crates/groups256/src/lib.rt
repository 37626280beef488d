// LSH-256 in groups of four words: whole blocks of 128 bytes run forward and backward on a chain of 16 words of 32 bits, with the contracts of crates/words. The mix is that of
// mix256; all else works on a chain as it is in memory, four words at a time too, and is that of the first engine. Group l of a chain stands at places 4l to 4l + 3.
#![tactic(auto)]

ghost use Rattle.std.specs.Prelude.{◌≡◌, List, ℕ, ◌+◌, ◌-◌, ◌*◌, ◌/◌, ◌%◌, ◌<◌, ◌≤◌, min, length, take};
ghost use Rattle.std.proofs.lemmas.List.Edits.{sets};
ghost use Rattle.lsh.specs.Tabulate.{tabulate};
ghost use Rattle.lsh.specs.WordSize.{lsh256, block_bytes};
ghost use Rattle.lsh.specs.StepConstants.{constant, constants};
ghost use Rattle.lsh.specs.Bytes.{words_of};
ghost use Rattle.lsh.specs.Step.{step, unstep};
ghost use Rattle.lsh.specs.Expansion.{next_sub_message};
ghost use Rattle.lsh.specs.Block.{forward_steps, backward_steps, forwards_steps, backwards_steps};
ghost use Rattle.lsh.specs.Padding.{blocks_of};
ghost use Rattle.loops.specs.Rows.{expanded_words, row};
ghost use Rattle.loops.specs.Turns.{SteppedAhead, RunBack};
ghost use Rattle.mix256.specs.Amounts.{shifts, beta_gamma, remaining, powers};

use word::Word;
use words::Run;

// Step j, whose constants are c and whose shifts are k, with its sub-message in m (6).
fn step(c: [u32; 8], pw: &[u64; 32], k: [u32; 4], j: usize, m: &[u32], t: [u32; 16]) -> [u32; 16]
    requires { (c ≡ tabulate 8 (constant lsh256 j)) × (pw.now ≡ powers (beta_gamma lsh256)) × (k ≡ shifts lsh256 j) × (j * 16 + 16 ≤ length m.now) }
    ensures { result ≡ step lsh256 j (row m.now j) t }
{
    steps::permute(mix256::mix(c, pw, k, j, steps::add_message(t, words::sub_message(m, j))))
}

// Step j taken back, with its sub-message q.
pub fn unstep(
    c: [u32; 8],
    pw: &[u64; 32],
    k: [u32; 4],
    j: usize,
    q: [u32; 16],
    t: [u32; 16],
) -> [u32; 16]
    requires { (c ≡ tabulate 8 (constant lsh256 j)) × (pw.now ≡ powers (remaining lsh256)) × (k ≡ shifts lsh256 j) }
    ensures { result ≡ unstep lsh256 j q t }
{
    steps::add_message(mix256::unmix(c, pw, k, j, steps::unpermute(t)), q)
}

// M_(j + 2), from the two before it (8).
pub fn expand_row(m: &mut [u32], j: usize)
    requires { (j + 3) * 16 ≤ length m.old }
    ensures { m.new ≡ sets m.old ((j + 2) * 16) (next_sub_message lsh256 (row m.old (j + 1)) (row m.old j)) }
{
    let q = words::sub_message(m, j);
    let p = words::sub_message(m, j + 1);
    let r = words::next_sub_message(p, q);
    words::put_sub_message(m, j + 2, r);
}

// Words of the step constants, and of the sub-messages of a block.
const CONSTANTS: usize = 8 * <u32 as Word>::STEPS;

pub const EXPANDED: usize = 16 * (<u32 as Word>::STEPS + 1);

// The step constants.
pub fn step_constants() -> [u32; CONSTANTS]
    ensures { result ≡ constants lsh256 }
{
    let mut sc = [0u32; CONSTANTS];
    constants::write_constants(&mut sc, u32::FIRST_CONSTANTS);
    sc
}

// Room for the sub-messages of a block, and for one more: each is worked out two steps before it is wanted, so that the processor does it beside a step, and none of them by
// a condition, which the compiler would not do on four words at once.
fn long_room() -> [u32; EXPANDED + 16] {
    [0u32; EXPANDED + 16]
}

// A chain, and how many steps led to it.
#[derive(Clone, Copy)]
struct Stepped {
    chain: [u32; 16],
    count: usize,
}

// Step j, if it is even. The shifts are then constants to the compiler.
fn even_step(sc: &[u32], pw: &[u64; 32], m: &mut [u32], j: usize, t: [u32; 16]) -> Stepped
    requires { (sc.now ≡ constants lsh256) × (pw.now ≡ powers (beta_gamma lsh256)) × (j < lsh256.steps) × (length m.old ≡ expanded_words lsh256 + 16) }
    ensures { ((m₀ u : List ℕ) → SteppedAhead lsh256 m₀ m.old j u t → SteppedAhead lsh256 m₀ m.new result.count u result.chain) × (result.count ≡ j + (1 - j % 2)) }
{
    let mut r = t;
    let mut count = j;
    if j % 2 == 0 {
        let c = mix256::constants(sc, j);
        expand_row(m, j);
        let u = step(c, pw, mix256::shifts(j), j, m, r);
        r = u;
        count += 1;
    }
    Stepped { chain: r, count }
}

// The steps from j on, below the number of steps, as long as they are odd: one at most. It is a loop since the compiler takes four words together only from one turn of a
// loop to the next, and not over two steps in one turn.
fn odd_steps(
    sc: &[u32],
    pw: &[u64; 32],
    m: &mut [u32],
    steps: usize,
    j: usize,
    t: [u32; 16],
) -> Stepped
    requires { (sc.now ≡ constants lsh256) × (pw.now ≡ powers (beta_gamma lsh256)) × (steps ≤ lsh256.steps) × (j ≤ steps) × (length m.old ≡ expanded_words lsh256 + 16) }
    ensures { ((m₀ u : List ℕ) → SteppedAhead lsh256 m₀ m.old j u t → SteppedAhead lsh256 m₀ m.new result.count u result.chain) × (result.count ≡ min steps (j + j % 2)) }
{
    let mut r = t;
    let mut count = j;
    while count < steps && count % 2 == 1 {
        let c = mix256::constants(sc, count);
        expand_row(m, count);
        let u = step(c, pw, mix256::shifts(count), count, m, r);
        r = u;
        count += 1;
    }
    Stepped { chain: r, count }
}

// The steps on the chain t, an even one and an odd one a turn, and then M_steps, for the block whose words stand first in m. How far a turn comes is known when it is over,
// so that this loop counts itself.
fn all_steps(sc: &[u32], pw: &[u64; 32], m: &mut [u32], steps: usize, t: [u32; 16]) -> [u32; 16]
    requires { (sc.now ≡ constants lsh256) × (pw.now ≡ powers (beta_gamma lsh256)) × (length m.old ≡ expanded_words lsh256 + 16) × (steps ≤ lsh256.steps) }
    ensures { result ≡ forward_steps lsh256 steps (take 32 m.old) t }
{
    let mut r = t;
    let mut j = 0;
    while j < steps {
        let e = even_step(sc, pw, m, j, r);
        let u = e.chain;
        let o = odd_steps(sc, pw, m, steps, e.count, u);
        r = o.chain;
        j = o.count;
    }
    steps::add_message(r, words::sub_message(m, steps))
}

// The steps taken back from the last, on the chain t from which M_steps is taken already. The shifts come again after two steps, so those of the last step are those of step
// steps + 1.
fn all_unsteps(sc: &[u32], pw: &[u64; 32], m: &[u32], steps: usize, t: [u32; 16]) -> [u32; 16]
    requires { (sc.now ≡ constants lsh256) × (pw.now ≡ powers (remaining lsh256)) × (length m.now ≡ expanded_words lsh256) × (steps ≤ lsh256.steps) }
    ensures { (u : List ℕ) → RunBack lsh256 m.now steps steps u t → RunBack lsh256 m.now steps 0 u result }
{
    let mut r = t;
    let mut k = mix256::shifts(steps + 1);
    for j in (0..steps).rev() {
        let c = mix256::constants(sc, j);
        let u = unstep(c, pw, k, j, words::sub_message(m, j), r);
        r = u;
        let n = mix256::next_shifts(k);
        k = n;
    }
    r
}

// The block s on the chain t, with this number of steps. m is room for the sub-messages.
fn forward_block(
    sc: &[u32],
    pw: &[u64; 32],
    m: &mut [u32],
    steps: usize,
    s: &[u8],
    t: [u32; 16],
) -> [u32; 16]
    requires { (sc.now ≡ constants lsh256) × (pw.now ≡ powers (beta_gamma lsh256)) × (length m.old ≡ expanded_words lsh256 + 16) × (steps ≤ lsh256.steps) × (length s.now ≡ block_bytes lsh256) }
    ensures { result ≡ forward_steps lsh256 steps (words_of lsh256 32 s.now) t }
{
    words::load_block(m, s);
    all_steps(sc, pw, m, steps, t)
}

fn backward_block(
    sc: &[u32],
    pw: &[u64; 32],
    m: &mut [u32],
    steps: usize,
    s: &[u8],
    t: [u32; 16],
) -> [u32; 16]
    requires { (sc.now ≡ constants lsh256) × (pw.now ≡ powers (remaining lsh256)) × (length m.old ≡ expanded_words lsh256) × (1 ≤ steps) × (steps ≤ lsh256.steps) × (length s.now ≡ block_bytes lsh256) }
    ensures { result ≡ backward_steps lsh256 steps (words_of lsh256 32 s.now) t }
{
    words::load_block(m, s);
    let before = words::sub_message(m, 0);
    let last = words::sub_message(m, 1);
    words::expand(m, steps, last, before);
    let r = steps::add_message(t, words::sub_message(m, steps));
    all_unsteps(sc, pw, m, steps, r)
}

// Runs the whole blocks of s forward, in order, on the chain t, with this number of steps each.
pub fn forward(steps: usize, t: [u32; 16], s: &[u8]) -> Run<u32>
    requires { (1 ≤ steps) × (steps ≤ lsh256.steps) }
    ensures { (result.chain ≡ forwards_steps lsh256 steps (blocks_of lsh256 s.now) t) × (result.count ≡ length s.now / block_bytes lsh256) }
{
    let sc = step_constants();
    let pw = mix256::powers();
    let mut m = long_room();
    let n = s.len() / u32::BLOCK;
    let mut c = t;
    let mut count = 0;
    for k in 0..n {
        let a = k * u32::BLOCK;
        let e = a + u32::BLOCK;
        let next = forward_block(&sc, &pw, &mut m, steps, &s[a..e], c);
        c = next;
        count += 1;
    }
    Run { chain: c, count }
}

// Runs the whole blocks of s backward, from the last, on the chain t.
pub fn backward(steps: usize, t: [u32; 16], s: &[u8]) -> Run<u32>
    requires { (1 ≤ steps) × (steps ≤ lsh256.steps) }
    ensures { (result.chain ≡ backwards_steps lsh256 steps (blocks_of lsh256 s.now) t) × (result.count ≡ length s.now / block_bytes lsh256) }
{
    let sc = step_constants();
    let pw = mix256::back_powers();
    let mut m = [0u32; EXPANDED];
    let n = s.len() / u32::BLOCK;
    let mut c = t;
    let mut count = 0;
    for k in (0..n).rev() {
        let a = k * u32::BLOCK;
        let e = a + u32::BLOCK;
        let before = backward_block(&sc, &pw, &mut m, steps, &s[a..e], c);
        c = before;
        count += 1;
    }
    Run { chain: c, count }
}
