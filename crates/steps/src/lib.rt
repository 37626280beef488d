// The steps of LSH, forward and backward, on a chain of 16 words. sc has the step constants, which a run of blocks lends.
#![tactic(auto)]

ghost use Rattle.std.specs.Prelude.{◌≡◌, ◌<◌};
ghost use Rattle.lsh.specs.StepConstants.{constant, constants};
ghost use Rattle.lsh.specs.Lane.{lane, mix_lane, unmix_lane};
ghost use Rattle.lsh.specs.Step.{add_message, mix, unmix, permute, unpermute};

use word::Word;

// The words X and Y of a lane.
#[derive(Clone, Copy)]
pub struct Pair<W> {
    pub x: W,
    pub y: W,
}

const SIGMA: [usize; 16] = [6, 4, 5, 7, 12, 15, 14, 13, 2, 0, 1, 3, 8, 11, 10, 9];

// SC_j[l]
fn step_constant<W: Word>(sc: &[W], j: usize, l: usize) -> W
    requires { (W.numbers sc.now ≡ constants W.size) × (j < W.size.steps) × (l < 8) }
    ensures { W.number result ≡ constant W.size j l }
{
    sc[j * 8 + l]
}

// (22)
pub fn mix_lane<W: Word>(a: u32, b: u32, g: u32, c: W, x: W, y: W) -> Pair<W>
    requires { (a < W.size.bits) × (b < W.size.bits) × (g < W.size.bits) }
    ensures { lane (W.number result.x) (W.number result.y) ≡ mix_lane W.size.bits a b g (W.number c) (lane (W.number x) (W.number y)) }
{
    let x1 = x.add(y).rotate_left(a).exclusive_or(c);
    let y1 = y.add(x1).rotate_left(b);
    Pair {
        x: x1.add(y1),
        y: y1.rotate_left(g),
    }
}

pub fn unmix_lane<W: Word>(a: u32, b: u32, g: u32, c: W, x: W, y: W) -> Pair<W>
    requires { (a < W.size.bits) × (b < W.size.bits) × (g < W.size.bits) }
    ensures { lane (W.number result.x) (W.number result.y) ≡ unmix_lane W.size.bits a b g (W.number c) (lane (W.number x) (W.number y)) }
{
    let y1 = y.rotate_right(g);
    let x1 = x.subtract(y1);
    let y0 = y1.rotate_right(b).subtract(x1);
    Pair {
        x: x1.exclusive_or(c).rotate_right(a).subtract(y0),
        y: y0,
    }
}

// (9) The loops over words go by place, in this crate and in those above it that run blocks: with std's `array::from_fn` and a closure for each word, a run took six to eight
// times as long.
pub fn add_message<W: Word>(t: [W; 16], m: [W; 16]) -> [W; 16]
    ensures { W.numbers result ≡ add_message W.size (W.numbers t) (W.numbers m) }
{
    let mut r = [W::ZERO; 16];
    for l in 0..16 {
        r[l] = t[l].exclusive_or(m[l]);
    }
    r
}

// (10)
pub fn mix<W: Word>(sc: &[W], j: usize, t: [W; 16]) -> [W; 16]
    requires { (W.numbers sc.now ≡ constants W.size) × (j < W.size.steps) }
    ensures { W.numbers result ≡ mix W.size j (W.numbers t) }
{
    let a = W::ALPHAS[j % 2];
    let b = W::BETAS[j % 2];
    let gamma = W::GAMMAS;
    let mut r = [W::ZERO; 16];
    for l in 0..8 {
        let p = mix_lane(a, b, gamma[l], step_constant(sc, j, l), t[l], t[l + 8]);
        r[l] = p.x;
        r[l + 8] = p.y;
    }
    r
}

pub fn unmix<W: Word>(sc: &[W], j: usize, t: [W; 16]) -> [W; 16]
    requires { (W.numbers sc.now ≡ constants W.size) × (j < W.size.steps) }
    ensures { W.numbers result ≡ unmix W.size j (W.numbers t) }
{
    let a = W::ALPHAS[j % 2];
    let b = W::BETAS[j % 2];
    let gamma = W::GAMMAS;
    let mut r = [W::ZERO; 16];
    for l in 0..8 {
        let p = unmix_lane(a, b, gamma[l], step_constant(sc, j, l), t[l], t[l + 8]);
        r[l] = p.x;
        r[l + 8] = p.y;
    }
    r
}

// (15)
pub fn permute<W: Word>(t: [W; 16]) -> [W; 16]
    ensures { W.numbers result ≡ permute (W.numbers t) }
{
    let sigma = SIGMA;
    let mut r = [W::ZERO; 16];
    for l in 0..16 {
        r[l] = t[sigma[l]];
    }
    r
}

pub fn unpermute<W: Word>(t: [W; 16]) -> [W; 16]
    ensures { W.numbers result ≡ unpermute (W.numbers t) }
{
    let sigma = SIGMA;
    let mut r = [W::ZERO; 16];
    for l in 0..16 {
        r[sigma[l]] = t[l];
    }
    r
}
