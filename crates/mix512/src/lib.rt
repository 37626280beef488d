// The mix of LSH-512 in groups of four words (22), forward and backward. The processor has nothing to give for four words of 64 bits at once, so a group is mixed
// word by word, as the first engine does.
#![tactic(auto)]

ghost use Rattle.std.specs.Prelude.{◌≡◌, ◌+◌, ◌<◌, ◌≤◌, length};
ghost use Rattle.lsh.specs.Tabulate.{at};
ghost use Rattle.lsh.specs.WordSize.{lsh512, alpha, beta, gamma};
ghost use Rattle.lsh.specs.StepConstants.{constants};
ghost use Rattle.lsh.specs.Lane.{lane, mix_lane, unmix_lane};
ghost use Rattle.lsh.specs.Step.{mix, unmix};
ghost use Rattle.groups.specs.Group.{group};
ghost use Rattle.groups.specs.GroupStep.{pair, groups, in_words, mix_pair, unmix_pair};

use words::Mix;

// The groups X and Y of the same lanes.
type Pair = steps::Pair<[u64; 4]>;

// The groups of gamma.
const GAMMA_0: [u32; 4] = [0, 16, 32, 48];

const GAMMA_1: [u32; 4] = [8, 24, 40, 56];

// The amounts of step j, and those of group l. A test is less to the compiler than a look into an array: so a step is short enough to be written out in the loop over
// the steps.
fn alpha(j: usize) -> u32
    ensures { result ≡ alpha lsh512 j }
{
    if j % 2 == 0 {
        return 23;
    }
    7
}

fn beta(j: usize) -> u32
    ensures { result ≡ beta lsh512 j }
{
    if j % 2 == 0 {
        return 59;
    }
    3
}

fn gamma(l: usize) -> [u32; 4]
    requires { l < 2 }
    ensures { result ≡ group (gamma lsh512) l }
{
    if l == 0 {
        return GAMMA_0;
    }
    GAMMA_1
}

// Word i of two groups X and Y, a lane of step j, with the groups of gamma and of the constants.
fn mix_word(
    j: usize,
    g: [u32; 4],
    c: [u64; 4],
    x: [u64; 4],
    y: [u64; 4],
    i: usize,
) -> steps::Pair<u64>
    requires { (at g i < lsh512.bits) × (i < 4) }
    ensures { lane result.x result.y ≡ mix_lane lsh512.bits (alpha lsh512 j) (beta lsh512 j) (at g i) (at c i) (lane (at x i) (at y i)) }
{
    steps::mix_lane(alpha(j), beta(j), g[i], c[i], x[i], y[i])
}

fn unmix_word(
    j: usize,
    g: [u32; 4],
    c: [u64; 4],
    x: [u64; 4],
    y: [u64; 4],
    i: usize,
) -> steps::Pair<u64>
    requires { (at g i < lsh512.bits) × (i < 4) }
    ensures { lane result.x result.y ≡ unmix_lane lsh512.bits (alpha lsh512 j) (beta lsh512 j) (at g i) (at c i) (lane (at x i) (at y i)) }
{
    steps::unmix_lane(alpha(j), beta(j), g[i], c[i], x[i], y[i])
}

// Lanes 4l to 4l + 3 of step j.
fn mix_pair(sc: &[u64], j: usize, l: usize, x: [u64; 4], y: [u64; 4]) -> Pair
    requires { (sc.now ≡ constants lsh512) × (j < lsh512.steps) × (l < 2) }
    ensures { pair result.x result.y ≡ mix_pair lsh512 j l (pair x y) }
{
    let g = gamma(l);
    let c = word::part(sc, j * 8 + l * 4);
    let p = mix_word(j, g, c, x, y, 0);
    let q = mix_word(j, g, c, x, y, 1);
    let r = mix_word(j, g, c, x, y, 2);
    let s = mix_word(j, g, c, x, y, 3);
    Pair {
        x: [p.x, q.x, r.x, s.x],
        y: [p.y, q.y, r.y, s.y],
    }
}

fn unmix_pair(sc: &[u64], j: usize, l: usize, x: [u64; 4], y: [u64; 4]) -> Pair
    requires { (sc.now ≡ constants lsh512) × (j < lsh512.steps) × (l < 2) }
    ensures { pair result.x result.y ≡ unmix_pair lsh512 j l (pair x y) }
{
    let g = gamma(l);
    let c = word::part(sc, j * 8 + l * 4);
    let p = unmix_word(j, g, c, x, y, 0);
    let q = unmix_word(j, g, c, x, y, 1);
    let r = unmix_word(j, g, c, x, y, 2);
    let s = unmix_word(j, g, c, x, y, 3);
    Pair {
        x: [p.x, q.x, r.x, s.x],
        y: [p.y, q.y, r.y, s.y],
    }
}

// The words of the pairs of lanes 0 to 3 and 4 to 7.
fn in_words(p: Pair, q: Pair) -> [u64; 16]
    ensures { result ≡ in_words (groups p.x q.x p.y q.y) }
{
    let x0 = p.x;
    let x1 = q.x;
    let y0 = p.y;
    let y1 = q.y;
    [
        x0[0], x0[1], x0[2], x0[3], x1[0], x1[1], x1[2], x1[3], y0[0], y0[1], y0[2], y0[3], y1[0],
        y1[1], y1[2], y1[3],
    ]
}

// The mix of a step in groups.
pub struct ByGroups {}

impl Mix<u64> for ByGroups {
    fn mix(sc: &[u64], j: usize, t: [u64; 16]) -> [u64; 16]
        requires { (sc.now ≡ constants lsh512) × (j < lsh512.steps) }
        ensures { result ≡ mix lsh512 j t }
    {
        let p = mix_pair(sc, j, 0, word::part(&t, 0), word::part(&t, 8));
        let q = mix_pair(sc, j, 1, word::part(&t, 4), word::part(&t, 12));
        in_words(p, q)
    }

    fn unmix(sc: &[u64], j: usize, t: [u64; 16]) -> [u64; 16]
        requires { (sc.now ≡ constants lsh512) × (j < lsh512.steps) }
        ensures { result ≡ unmix lsh512 j t }
    {
        let p = unmix_pair(sc, j, 0, word::part(&t, 0), word::part(&t, 8));
        let q = unmix_pair(sc, j, 1, word::part(&t, 4), word::part(&t, 12));
        in_words(p, q)
    }
}
