// The mix of LSH-256 in groups of four words (22), forward and backward. A group in this shape makes the compiler use the processor's four-word instructions: a rotation
// that it recognises it would do word by word. So a rotation is here two shifts, which forward are added or xored to another word one after the other, and whose amounts
// backward are variables; or the two halves of a product with a power of two.
#![tactic(auto)]

ghost use Rattle.std.specs.Prelude.{◌≡◌, ℕ, ◌+◌, ◌%◌, ◌^◌, ◌<◌, ◌≤◌, length};
ghost use Rattle.lsh.specs.Tabulate.{tabulate};
ghost use Rattle.lsh.specs.Word.{add, subtract, rotate_left, rotate_right, xor};
ghost use Rattle.lsh.specs.WordSize.{lsh256};
ghost use Rattle.lsh.specs.StepConstants.{constant, constants};
ghost use Rattle.lsh.specs.Step.{mix, unmix};
ghost use Rattle.groups.specs.Group.{group, each_word, wordwise};
ghost use Rattle.groups.specs.GroupStep.{pair, groups, in_words, mix_pair, unmix_pair};
ghost use Rattle.mix256.specs.Amounts.{shifts, beta_gamma, remaining, powers};

use word::Word;

// The groups X and Y of the same lanes.
type Pair = steps::Pair<[u32; 4]>;

// The shifts of the even steps, and of the odd: alpha to the left and what is left of the width to the right, and the same of beta.
const EVEN: [u32; 4] = [29, 3, 1, 31];

const ODD: [u32; 4] = [5, 27, 17, 15];

// 2 to the sums of beta of a step and gamma of a lane, group after group; and 2 to what is left of the width beside gamma, since by so much to the left is by gamma to the
// right. The amounts come again after two steps, and there are rows for four: so a power is not known where the step is only known to be even or odd, and the compiler
// looks it up and makes no rotation of the product.
const POWERS: [u64; 32] = [
    0x2, 0x200, 0x20000, 0x2000000, 0x2000000, 0x20000, 0x200, 0x2, 0x20000, 0x2000000, 0x2, 0x200,
    0x200, 0x2, 0x2000000, 0x20000, 0x2, 0x200, 0x20000, 0x2000000, 0x2000000, 0x20000, 0x200, 0x2,
    0x20000, 0x2000000, 0x2, 0x200, 0x200, 0x2, 0x2000000, 0x20000,
];

const BACK_POWERS: [u64; 32] = [
    0x1, 0x1000000, 0x10000, 0x100, 0x100, 0x10000, 0x1000000, 0x1, 0x1, 0x1000000, 0x10000, 0x100,
    0x100, 0x10000, 0x1000000, 0x1, 0x1, 0x1000000, 0x10000, 0x100, 0x100, 0x10000, 0x1000000, 0x1,
    0x1, 0x1000000, 0x10000, 0x100, 0x100, 0x10000, 0x1000000, 0x1,
];

// The powers for a run forward, and for one backward. A run of blocks has them once, and lends them on.
pub fn powers() -> [u64; 32]
    ensures { result ≡ powers (beta_gamma lsh256) }
{
    POWERS
}

pub fn back_powers() -> [u64; 32]
    ensures { result ≡ powers (remaining lsh256) }
{
    BACK_POWERS
}

// The shifts of step j.
pub fn shifts(j: usize) -> [u32; 4]
    ensures { result ≡ shifts lsh256 j }
{
    if j % 2 == 0 {
        return EVEN;
    }
    ODD
}

// The shifts of the next step, from those of a step: a shift of an even step and that of an odd one have the same sum. So backward the amounts go from step to step in variables.
pub fn next_shifts(k: [u32; 4]) -> [u32; 4]
    ensures { (j : ℕ) → k ≡ shifts lsh256 j → result ≡ shifts lsh256 (j + 1) }
{
    [
        34u32.subtract(k[0]),
        30u32.subtract(k[1]),
        18u32.subtract(k[2]),
        46u32.subtract(k[3]),
    ]
}

fn xor(a: [u32; 4], b: [u32; 4]) -> [u32; 4]
    ensures { result ≡ wordwise (xor 32) a b }
{
    [
        a[0].exclusive_or(b[0]),
        a[1].exclusive_or(b[1]),
        a[2].exclusive_or(b[2]),
        a[3].exclusive_or(b[3]),
    ]
}

fn add(a: [u32; 4], b: [u32; 4]) -> [u32; 4]
    ensures { result ≡ wordwise (add 32) a b }
{
    [
        a[0].add(b[0]),
        a[1].add(b[1]),
        a[2].add(b[2]),
        a[3].add(b[3]),
    ]
}

fn subtract(a: [u32; 4], b: [u32; 4]) -> [u32; 4]
    ensures { result ≡ wordwise (subtract 32) a b }
{
    [
        a[0].subtract(b[0]),
        a[1].subtract(b[1]),
        a[2].subtract(b[2]),
        a[3].subtract(b[3]),
    ]
}

// By l to the left, where h is what is left of the width; and by h to the right.
fn turn(x: u32, l: u32, h: u32) -> u32
    requires { (l < 32) × (h < 32) × (l + h ≡ 32) }
    ensures { (result ≡ rotate_left 32 l x) × (result ≡ rotate_right 32 h x) }
{
    x << l | x >> h
}

fn turn_each(a: [u32; 4], l: u32, h: u32) -> [u32; 4]
    requires { (l < 32) × (h < 32) × (l + h ≡ 32) }
    ensures { (result ≡ each_word (rotate_left 32 l) a) × (result ≡ each_word (rotate_right 32 h) a) }
{
    [
        turn(a[0], l, h),
        turn(a[1], l, h),
        turn(a[2], l, h),
        turn(a[3], l, h),
    ]
}

fn wide(x: u32) -> u64
    ensures { (result ≡ x) × (result < 4294967296) }
{
    x as u64
}

// By k to the left, where p is 2 to the k: the two halves of the product together. (They have no bit in common; with a sum in place of an or the compiler keeps them apart,
// and takes fewer instructions.)
fn turn_by_power(x: u32, p: u64) -> u32
    ensures { (k : ℕ) → k < 32 → p ≡ 2 ^ k → result ≡ rotate_left 32 k x }
{
    let q = wide(x) * (p % 4294967296);
    ((q % 4294967296) as u32).add((q >> 32) as u32)
}

// Each word by the amount of its lane, 4l to 4l + 3, in step j: f of both, if the powers are those of f. By place, as the loops of crates/steps: see there.
fn turn_by_powers(pw: &[u64; 32], j: usize, l: usize, a: [u32; 4]) -> [u32; 4]
    requires { l < 2 }
    ensures { (f : ℕ → ℕ → ℕ) → ((i k : ℕ) → f i k < 32) → pw.now ≡ powers f → result ≡ wordwise (rotate_left 32) (group (f (j % 4)) l) a }
{
    let p = j % 4 * 8 + l * 4;
    let mut r = [0u32; 4];
    for i in 0..4 {
        r[i] = turn_by_power(a[i], pw[p + i]);
    }
    r
}

// u rotated by l to the left, where h is what is left of the width, xored with c, and added to x: in two parts, one after the other.
fn xor_turned(u: u32, c: u32, l: u32, h: u32) -> u32
    requires { (l < 32) × (h < 32) × (l + h ≡ 32) }
    ensures { result ≡ xor 32 (rotate_left 32 l u) c }
{
    c.exclusive_or(u << l).exclusive_or(u >> h)
}

fn add_turned(x: u32, u: u32, l: u32, h: u32) -> u32
    requires { (l < 32) × (h < 32) × (l + h ≡ 32) }
    ensures { result ≡ add 32 x (rotate_left 32 l u) }
{
    x.add(u >> h).add(u << l)
}

fn xor_turned_each(u: [u32; 4], c: [u32; 4], l: u32, h: u32) -> [u32; 4]
    requires { (l < 32) × (h < 32) × (l + h ≡ 32) }
    ensures { result ≡ wordwise (xor 32) (each_word (rotate_left 32 l) u) c }
{
    [
        xor_turned(u[0], c[0], l, h),
        xor_turned(u[1], c[1], l, h),
        xor_turned(u[2], c[2], l, h),
        xor_turned(u[3], c[3], l, h),
    ]
}

fn add_turned_each(x: [u32; 4], u: [u32; 4], l: u32, h: u32) -> [u32; 4]
    requires { (l < 32) × (h < 32) × (l + h ≡ 32) }
    ensures { result ≡ wordwise (add 32) x (each_word (rotate_left 32 l) u) }
{
    [
        add_turned(x[0], u[0], l, h),
        add_turned(x[1], u[1], l, h),
        add_turned(x[2], u[2], l, h),
        add_turned(x[3], u[3], l, h),
    ]
}

// Lanes 4l to 4l + 3 of step j, whose constants are c and whose shifts are k. Y is rotated by beta and by gamma in one product.
fn mix_pair(
    c: [u32; 4],
    pw: &[u64; 32],
    k: [u32; 4],
    j: usize,
    l: usize,
    x: [u32; 4],
    y: [u32; 4],
) -> Pair
    requires { (c ≡ group (constant lsh256 j) l) × (pw.now ≡ powers (beta_gamma lsh256)) × (k ≡ shifts lsh256 j) × (l < 2) }
    ensures { pair result.x result.y ≡ mix_pair lsh256 j l (pair x y) }
{
    let x1 = xor_turned_each(add(x, y), c, k[0], k[1]);
    let y1 = add(y, x1);
    Pair {
        x: add_turned_each(x1, y1, k[2], k[3]),
        y: turn_by_powers(pw, j, l, y1),
    }
}

fn unmix_pair(
    c: [u32; 4],
    pw: &[u64; 32],
    k: [u32; 4],
    j: usize,
    l: usize,
    x: [u32; 4],
    y: [u32; 4],
) -> Pair
    requires { (c ≡ group (constant lsh256 j) l) × (pw.now ≡ powers (remaining lsh256)) × (k ≡ shifts lsh256 j) × (l < 2) }
    ensures { pair result.x result.y ≡ unmix_pair lsh256 j l (pair x y) }
{
    let y1 = turn_by_powers(pw, j, l, y);
    let x1 = subtract(x, y1);
    let y0 = subtract(turn_each(y1, k[3], k[2]), x1);
    Pair {
        x: subtract(turn_each(xor(x1, c), k[1], k[0]), y0),
        y: y0,
    }
}

// The words of four groups. crates/mix512 has this for words of 64 bits: a generic one would speak of the numbers of an array that is written out, of which the laws of `Word`
// say nothing.
fn in_words(x0: [u32; 4], x1: [u32; 4], y0: [u32; 4], y1: [u32; 4]) -> [u32; 16]
    ensures { result ≡ in_words (groups x0 x1 y0 y1) }
{
    [
        x0[0], x0[1], x0[2], x0[3], x1[0], x1[1], x1[2], x1[3], y0[0], y0[1], y0[2], y0[3], y1[0],
        y1[1], y1[2], y1[3],
    ]
}

// The constants of step j.
pub fn constants(sc: &[u32], j: usize) -> [u32; 8]
    requires { (sc.now ≡ constants lsh256) × (j < lsh256.steps) }
    ensures { result ≡ tabulate 8 (constant lsh256 j) }
{
    word::part(sc, j * 8)
}

// The mix of step j (10), whose constants are c and whose shifts are k.
pub fn mix(c: [u32; 8], pw: &[u64; 32], k: [u32; 4], j: usize, t: [u32; 16]) -> [u32; 16]
    requires { (c ≡ tabulate 8 (constant lsh256 j)) × (pw.now ≡ powers (beta_gamma lsh256)) × (k ≡ shifts lsh256 j) }
    ensures { result ≡ mix lsh256 j t }
{
    let p = mix_pair(
        word::part(&c, 0),
        pw,
        k,
        j,
        0,
        word::part(&t, 0),
        word::part(&t, 8),
    );
    let q = mix_pair(
        word::part(&c, 4),
        pw,
        k,
        j,
        1,
        word::part(&t, 4),
        word::part(&t, 12),
    );
    let x0 = p.x;
    let x1 = q.x;
    let y0 = p.y;
    let y1 = q.y;
    in_words(x0, x1, y0, y1)
}

pub fn unmix(c: [u32; 8], pw: &[u64; 32], k: [u32; 4], j: usize, t: [u32; 16]) -> [u32; 16]
    requires { (c ≡ tabulate 8 (constant lsh256 j)) × (pw.now ≡ powers (remaining lsh256)) × (k ≡ shifts lsh256 j) }
    ensures { result ≡ unmix lsh256 j t }
{
    let p = unmix_pair(
        word::part(&c, 0),
        pw,
        k,
        j,
        0,
        word::part(&t, 0),
        word::part(&t, 8),
    );
    let q = unmix_pair(
        word::part(&c, 4),
        pw,
        k,
        j,
        1,
        word::part(&t, 4),
        word::part(&t, 12),
    );
    let x0 = p.x;
    let x1 = q.x;
    let y0 = p.y;
    let y1 = q.y;
    in_words(x0, x1, y0, y1)
}
