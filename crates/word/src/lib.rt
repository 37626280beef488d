// The words of LSH, of 32 bits or of 64: the operations on them, the bytes that hold them, and the figures of their size. What runs blocks word by word is written once, for
// any type that is a word.
#![tactic(auto)]

ghost use Rattle.std.specs.Prelude.{◌≡◌, ◌⊎◌, refl, List, ℕ, ◌+◌, ◌<◌, ◌≤◌, length};
ghost use Rattle.std.proofs.Common.{inl, inr};
ghost use Rattle.std.proofs.lemmas.List.Edits.{sets};
ghost use Rattle.lsh.specs.Tabulate.{at, tabulate};
ghost use Rattle.lsh.specs.WordSize.{WordSize, lsh256, lsh512, word_bytes, chain_bytes, block_bytes};
ghost use Rattle.lsh.specs.Word.{add, subtract, rotate_left, rotate_right, xor};
ghost use Rattle.lsh.specs.Bytes.{word_at, byte_at};
ghost use Rattle.loops.specs.Constants.{next_constant};
ghost use Rattle.word.specs.Numbers.{TakesEach};
ghost use Rattle.word.specs.Own.{own, bytes_32, bytes_64, block_32, block_64, chain_32, chain_64, steps_32, steps_64};

pub trait Word: Copy {
    // The word size, the number that a word is, and those of a list of words.
    ghost size: { WordSize };

    ghost number: { Self → ℕ };

    ghost numbers: { List Self → List ℕ };

    const ZERO: Self;

    ghost ZERO: { Self };

    // Bytes of a word.
    const BYTES: usize;

    ghost BYTES: { ℕ };

    // Bytes of a block, and of a chain.
    const BLOCK: usize;

    ghost BLOCK: { ℕ };

    const CHAIN: usize;

    ghost CHAIN: { ℕ };

    // Ns (5).
    const STEPS: usize;

    ghost STEPS: { ℕ };

    // The amounts of the even steps and of the odd, those of the lanes, and SC_0.
    const ALPHAS: [u32; 2];

    ghost ALPHAS: { List ℕ };

    const BETAS: [u32; 2];

    ghost BETAS: { List ℕ };

    const GAMMAS: [u32; 8];

    ghost GAMMAS: { List ℕ };

    const FIRST_CONSTANTS: [Self; 8];

    ghost FIRST_CONSTANTS: { List Self };

    fn add(self, y: Self) -> Self
        ensures { number result ≡ add size.bits (number self) (number y) };

    fn subtract(self, y: Self) -> Self
        ensures { number result ≡ subtract size.bits (number self) (number y) };

    fn exclusive_or(self, y: Self) -> Self
        ensures { number result ≡ xor size.bits (number self) (number y) };

    fn rotate_left(self, k: u32) -> Self
        requires { k < size.bits }
        ensures { number result ≡ rotate_left size.bits k (number self) };

    fn rotate_right(self, k: u32) -> Self
        requires { k < size.bits }
        ensures { number result ≡ rotate_right size.bits k (number self) };

    // The word of the bytes from place a on, lowest first.
    fn load(s: &[u8], a: usize) -> Self
        requires { a + word_bytes size ≤ length s.now }
        ensures { number result ≡ word_at (word_bytes size) s.now a };

    // Puts the bytes of the word into d from place a on, lowest first.
    fn store(self, d: &mut [u8], a: usize)
        requires { a + word_bytes size ≤ length d.old }
        ensures { d.new ≡ sets d.old a (tabulate (word_bytes size) (byte_at (number self))) };

    // A constant from the one before it in its lane (14).
    fn next_constant(self) -> Self
        ensures { number result ≡ next_constant size (number self) };

    ghost is_size: { (size ≡ lsh256) ⊎ (size ≡ lsh512) };

    ghost takes_each: { TakesEach number numbers };

    ghost bytes_is: { BYTES ≡ word_bytes size };

    ghost block_is: { BLOCK ≡ block_bytes size };

    ghost chain_is: { CHAIN ≡ chain_bytes size };

    ghost steps_is: { STEPS ≡ size.steps };

    ghost alphas_is: { ALPHAS ≡ size.alphas };

    ghost betas_is: { BETAS ≡ size.betas };

    ghost gammas_is: { GAMMAS ≡ size.gammas };

    ghost first_constants_is: { numbers FIRST_CONSTANTS ≡ size.first_constants };
}

impl Word for u32 {
    ghost size = { lsh256 };

    ghost number = { λ x. x };

    ghost numbers = { λ t. t };

    const ZERO: u32 = 0;

    ghost ZERO = { 0 };

    const BYTES: usize = 4;

    ghost BYTES = { 4 };

    const BLOCK: usize = 128;

    ghost BLOCK = { 128 };

    const CHAIN: usize = 64;

    ghost CHAIN = { 64 };

    const STEPS: usize = 26;

    ghost STEPS = { 26 };

    const ALPHAS: [u32; 2] = [29, 5];

    ghost ALPHAS = { lsh256.alphas };

    const BETAS: [u32; 2] = [1, 17];

    ghost BETAS = { lsh256.betas };

    const GAMMAS: [u32; 8] = [0, 8, 16, 24, 24, 16, 8, 0];

    ghost GAMMAS = { lsh256.gammas };

    const FIRST_CONSTANTS: [u32; 8] = [
        0x917caf90, 0x6c1b10a2, 0x6f352943, 0xcf778243, 0x2ceb7472, 0x29e96ff2, 0x8a9ba428,
        0x2eeb2642,
    ];

    ghost FIRST_CONSTANTS = { lsh256.first_constants };

    ghost is_size = { inl refl };

    ghost takes_each = { own };

    ghost bytes_is = { bytes_32 };

    ghost block_is = { block_32 };

    ghost chain_is = { chain_32 };

    ghost steps_is = { steps_32 };

    ghost alphas_is = { refl };

    ghost betas_is = { refl };

    ghost gammas_is = { refl };

    ghost first_constants_is = { refl };

    fn add(self, y: u32) -> u32 {
        self.wrapping_add(y)
    }

    fn subtract(self, y: u32) -> u32 {
        self.wrapping_sub(y)
    }

    fn exclusive_or(self, y: u32) -> u32 {
        self ^ y
    }

    // A shift by the whole width is no shift of the machine, so a rotation by 0 is taken apart. Where the amount is a constant the compiler
    // drops the test.
    fn rotate_left(self, k: u32) -> u32 {
        if k == 0 {
            return self;
        }
        self << k | self >> (32 - k)
    }

    fn rotate_right(self, k: u32) -> u32 {
        if k == 0 {
            return self;
        }
        self >> k | self << (32 - k)
    }

    fn load(s: &[u8], a: usize) -> u32 {
        let b = a + 1;
        let c = b + 1;
        let d = c + 1;
        wide32(s[a]) + 256 * (wide32(s[b]) + 256 * (wide32(s[c]) + 256 * wide32(s[d])))
    }

    fn store(self, d: &mut [u8], a: usize) {
        let b = a + 1;
        let c = b + 1;
        let e = c + 1;
        d[a] = byte32(self, 0);
        d[b] = byte32(self, 1);
        d[c] = byte32(self, 2);
        d[e] = byte32(self, 3);
    }

    // The two parts of the rotation are added one after the other: a rotation that the compiler sees it does word by word, and this on four words at once.
    fn next_constant(self) -> u32 {
        self.add(self >> 24).add(self << 8)
    }
}

fn wide32(x: u8) -> u32
    ensures { (result ≡ x) × (result < 256) }
{
    x as u32
}

// Byte i of a word.
pub fn byte32(x: u32, i: u32) -> u8
    requires { i < 4 }
    ensures { result ≡ byte_at x i }
{
    ((x >> (8 * i)) % 256) as u8
}

impl Word for u64 {
    ghost size = { lsh512 };

    ghost number = { λ x. x };

    ghost numbers = { λ t. t };

    const ZERO: u64 = 0;

    ghost ZERO = { 0 };

    const BYTES: usize = 8;

    ghost BYTES = { 8 };

    const BLOCK: usize = 256;

    ghost BLOCK = { 256 };

    const CHAIN: usize = 128;

    ghost CHAIN = { 128 };

    const STEPS: usize = 28;

    ghost STEPS = { 28 };

    const ALPHAS: [u32; 2] = [23, 7];

    ghost ALPHAS = { lsh512.alphas };

    const BETAS: [u32; 2] = [59, 3];

    ghost BETAS = { lsh512.betas };

    const GAMMAS: [u32; 8] = [0, 16, 32, 48, 8, 24, 40, 56];

    ghost GAMMAS = { lsh512.gammas };

    const FIRST_CONSTANTS: [u64; 8] = [
        0x97884283c938982a,
        0xba1fca93533e2355,
        0xc519a2e87aeb1c03,
        0x9a0fc95462af17b1,
        0xfc3dda8ab019a82b,
        0x02825d079a895407,
        0x79f2d0a7ee06a6f7,
        0xd76d15eed9fdf5fe,
    ];

    ghost FIRST_CONSTANTS = { lsh512.first_constants };

    ghost is_size = { inr refl };

    ghost takes_each = { own };

    ghost bytes_is = { bytes_64 };

    ghost block_is = { block_64 };

    ghost chain_is = { chain_64 };

    ghost steps_is = { steps_64 };

    ghost alphas_is = { refl };

    ghost betas_is = { refl };

    ghost gammas_is = { refl };

    ghost first_constants_is = { refl };

    fn add(self, y: u64) -> u64 {
        self.wrapping_add(y)
    }

    fn subtract(self, y: u64) -> u64 {
        self.wrapping_sub(y)
    }

    fn exclusive_or(self, y: u64) -> u64 {
        self ^ y
    }

    fn rotate_left(self, k: u32) -> u64 {
        if k == 0 {
            return self;
        }
        self << k | self >> (64 - k)
    }

    fn rotate_right(self, k: u32) -> u64 {
        if k == 0 {
            return self;
        }
        self >> k | self << (64 - k)
    }

    fn load(s: &[u8], a: usize) -> u64 {
        let b = a + 1;
        let c = b + 1;
        let d = c + 1;
        let e = d + 1;
        let f = e + 1;
        let g = f + 1;
        let h = g + 1;
        let high = wide64(s[e]) + 256 * (wide64(s[f]) + 256 * (wide64(s[g]) + 256 * wide64(s[h])));
        wide64(s[a])
            + 256 * (wide64(s[b]) + 256 * (wide64(s[c]) + 256 * (wide64(s[d]) + 256 * high)))
    }

    fn store(self, d: &mut [u8], a: usize) {
        let b = a + 1;
        let c = b + 1;
        let e = c + 1;
        let f = e + 1;
        let g = f + 1;
        let h = g + 1;
        let i = h + 1;
        d[a] = byte(self, 0);
        d[b] = byte(self, 1);
        d[c] = byte(self, 2);
        d[e] = byte(self, 3);
        d[f] = byte(self, 4);
        d[g] = byte(self, 5);
        d[h] = byte(self, 6);
        d[i] = byte(self, 7);
    }

    // As at 32 bits, x << 8 by differences: a rotation, or a product with 257, that the compiler sees it does word by word, and this on two words at once.
    fn next_constant(self) -> u64 {
        let low = self.add(self >> 56);
        (self << 8).subtract(u64::MAX - low).subtract(1)
    }
}

fn wide64(x: u8) -> u64
    ensures { (result ≡ x) × (result < 256) }
{
    x as u64
}

// Byte i of a word of 64 bits.
pub fn byte(x: u64, i: u32) -> u8
    requires { i < 8 }
    ensures { result ≡ byte_at x i }
{
    ((x >> (8 * i)) % 256) as u8
}

// N words from place a on. This loop and the next go by place, as those of crates/steps: see there.
pub fn part<W: Word, const N: usize>(m: &[W], a: usize) -> [W; N]
    requires { a + N ≤ length m.now }
    ensures { W.numbers result ≡ tabulate N (λ k. at (W.numbers m.now) (a + k)) }
{
    let mut r = [W::ZERO; N];
    for l in 0..N {
        r[l] = m[a + l];
    }
    r
}

// Puts words into m from place a on.
pub fn put<W: Word, const N: usize>(m: &mut [W], a: usize, r: [W; N])
    requires { a + N ≤ length m.old }
    ensures { W.numbers m.new ≡ sets (W.numbers m.old) a (W.numbers r) }
{
    for l in 0..N {
        m[a + l] = r[l];
    }
}
