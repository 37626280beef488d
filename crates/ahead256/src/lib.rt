// Many blocks of LSH-256 backward in groups of four words, with the contract of crates/words. The steps of a block begin with its last sub-message, so all of them have to be
// worked out before. While the steps of a block are taken back, the sub-messages of the block before it are worked out beside them, a row a step, in the other half of the
// room. A single block is faster with crates/groups256, which has a shorter room.
#![tactic(auto)]

ghost use Rattle.std.specs.Prelude.{◌≡◌, List, ◌⊎◌, ℕ, ◌+◌, ◌-◌, ◌*◌, ◌/◌, ◌<◌, ◌≤◌, length};
ghost use Rattle.lsh.specs.WordSize.{lsh256, block_bytes};
ghost use Rattle.lsh.specs.StepConstants.{constants};
ghost use Rattle.lsh.specs.Bytes.{words_of};
ghost use Rattle.lsh.specs.Block.{unsteps, backward_steps, backwards_steps};
ghost use Rattle.lsh.specs.Padding.{blocks_of};
ghost use Rattle.loops.specs.Rows.{expanded_words, row};
ghost use Rattle.loops.specs.Halves.{ExpandedFrom, KeptBut, loaded};
ghost use Rattle.loops.specs.Parts.{part};
ghost use Rattle.mix256.specs.Amounts.{remaining, powers};

use word::Word;
use words::Run;

// The rows of a half: those of a block's sub-messages, and one more, which is worked out in the last step and which nothing wants.
const HALF: usize = <u32 as Word>::STEPS + 2;

fn two_halves() -> [u32; 2 * (groups256::EXPANDED + 16)] {
    [0u32; 2 * (groups256::EXPANDED + 16)]
}

// The first 16 words of a block, or the last (7). By place, as the loops of crates/steps: see there.
fn load_row(s: &[u8], i: usize) -> [u32; 16]
    requires { (i < 2) × (length s.now ≡ block_bytes lsh256) }
    ensures { result ≡ row (words_of lsh256 32 s.now) i }
{
    let mut r = [0u32; 16];
    for l in 0..16 {
        r[l] = u32::load(s, (i * 16 + l) * 4);
    }
    r
}

// M_0 and M_1 of the block s, as rows n and n + 1.
fn load(m: &mut [u32], n: usize, s: &[u8])
    requires { (n * 16 + 32 ≤ length m.old) × (length s.now ≡ block_bytes lsh256) }
    ensures { m.new ≡ loaded m.old n (words_of lsh256 32 s.now) }
{
    words::put_sub_message(m, n, load_row(s, 0));
    words::put_sub_message(m, n + 1, load_row(s, 1));
}

// The same of block i - 1 of s, if there is such a block.
fn load_before(m: &mut [u32], n: usize, s: &[u8], i: usize)
    requires { (n * 16 + 32 ≤ length m.old) × (i * block_bytes lsh256 ≤ length s.now) }
    ensures { KeptBut m.old m.new n (lsh256.steps + 2) × (0 < i → ExpandedFrom lsh256 (words_of lsh256 32 (part lsh256 s.now (i - 1))) m.new n 1) }
{
    if 0 < i {
        let a = (i - 1) * u32::BLOCK;
        let e = a + u32::BLOCK;
        load(m, n, &s[a..e]);
    }
}

// M_2 to M_steps of the block whose words are rows k and k + 1.
fn expand(m: &mut [u32], k: usize, steps: usize)
    requires { ((k + lsh256.steps + 2) * 16 ≤ length m.old) × (1 ≤ steps) × (steps ≤ lsh256.steps) }
    ensures { (b : List ℕ) → ExpandedFrom lsh256 b m.old k 1 → ExpandedFrom lsh256 b m.new k steps }
{
    for j in 0..steps - 1 {
        groups256::expand_row(m, k + j);
    }
}

// The steps of the block from row k on taken back, on the chain t from which M_steps is taken already; and M_2 to M_steps of the block whose words are rows n and n + 1.
// The shifts come again after two steps, so those of the last step are those of step steps + 1.
fn all_unsteps(
    sc: &[u32],
    pw: &[u64; 32],
    m: &mut [u32],
    k: usize,
    n: usize,
    steps: usize,
    t: [u32; 16],
) -> [u32; 16]
    requires { (sc.now ≡ constants lsh256) × (pw.now ≡ powers (remaining lsh256)) × (length m.old ≡ 2 * (expanded_words lsh256 + 16)) × ((k ≡ 0) ⊎ (k ≡ lsh256.steps + 2)) × (n ≡ lsh256.steps + 2 - k) × (steps ≤ lsh256.steps) × (k ≤ lsh256.steps + 2) }
    ensures { KeptBut m.old m.new n (lsh256.steps + 2) × ((b : List ℕ) → ExpandedFrom lsh256 b m.old k steps → result ≡ unsteps lsh256 b steps t) × ((b : List ℕ) → ExpandedFrom lsh256 b m.old n 1 → ExpandedFrom lsh256 b m.new n steps) }
{
    let mut r = t;
    let mut x = mix256::shifts(steps + 1);
    for i in 0..steps {
        let j = steps - 1 - i;
        let c = mix256::constants(sc, j);
        let u = groups256::unstep(c, pw, x, j, words::sub_message(m, k + j), r);
        r = u;
        let y = mix256::next_shifts(x);
        x = y;
        groups256::expand_row(m, n + i);
    }
    r
}

// The block from row k on backward, on the chain t; and M_2 to M_steps of the block whose words are rows n and n + 1.
fn backward_block(
    sc: &[u32],
    pw: &[u64; 32],
    m: &mut [u32],
    k: usize,
    n: usize,
    steps: usize,
    t: [u32; 16],
) -> [u32; 16]
    requires { (sc.now ≡ constants lsh256) × (pw.now ≡ powers (remaining lsh256)) × (length m.old ≡ 2 * (expanded_words lsh256 + 16)) × ((k ≡ 0) ⊎ (k ≡ lsh256.steps + 2)) × (n ≡ lsh256.steps + 2 - k) × (steps ≤ lsh256.steps) × (k ≤ lsh256.steps + 2) }
    ensures { ((b : List ℕ) → ExpandedFrom lsh256 b m.old k steps → result ≡ backward_steps lsh256 steps b t) × ((b : List ℕ) → ExpandedFrom lsh256 b m.old n 1 → ExpandedFrom lsh256 b m.new n steps) }
{
    let r = steps::add_message(t, words::sub_message(m, k + steps));
    all_unsteps(sc, pw, m, k, n, steps, r)
}

// Runs the whole blocks of s backward, from the last, on the chain t.
pub fn backward(steps: usize, t: [u32; 16], s: &[u8]) -> Run<u32>
    requires { (1 ≤ steps) × (steps ≤ lsh256.steps) }
    ensures { (result.chain ≡ backwards_steps lsh256 steps (blocks_of lsh256 s.now) t) × (result.count ≡ length s.now / block_bytes lsh256) }
{
    let sc = groups256::step_constants();
    let pw = mix256::back_powers();
    let mut m = two_halves();
    let blocks = s.len() / u32::BLOCK;
    let mut c = t;
    let mut k = 0;
    let mut count = 0;
    load_before(&mut m, k, s, blocks);
    expand(&mut m, k, steps);
    for left in (0..blocks).rev() {
        let n = HALF - k;
        load_before(&mut m, n, s, left);
        let before = backward_block(&sc, &pw, &mut m, k, n, steps, c);
        c = before;
        k = n;
        count += 1;
    }
    Run { chain: c, count }
}
