// The two engines at each word size, as the crates below have them.
ghost use Rattle.std.specs.Prelude.{◌≡◌, ◌/◌, ◌≤◌, length};
ghost use Rattle.lsh.specs.WordSize.{lsh256, lsh512, block_bytes};
ghost use Rattle.lsh.specs.StepConstants.{constants};
ghost use Rattle.lsh.specs.Block.{forwards_steps, backwards_steps};
ghost use Rattle.lsh.specs.Padding.{blocks_of};

use mix512::ByGroups;
use word::Word;
use words::{ByWord, Run};

// Whole blocks run with a number of steps each, by the words and by the groups.
pub trait Engines: Word {
    fn words_forward(steps: usize, t: [Self; 16], s: &[u8]) -> Run<Self>
        requires { (1 ≤ steps) × (steps ≤ Self.size.steps) }
        ensures { (Self.numbers result.chain ≡ forwards_steps Self.size steps (blocks_of Self.size s.now) (Self.numbers t)) × (result.count ≡ length s.now / block_bytes Self.size) };

    fn words_backward(steps: usize, t: [Self; 16], s: &[u8]) -> Run<Self>
        requires { (1 ≤ steps) × (steps ≤ Self.size.steps) }
        ensures { (Self.numbers result.chain ≡ backwards_steps Self.size steps (blocks_of Self.size s.now) (Self.numbers t)) × (result.count ≡ length s.now / block_bytes Self.size) };

    fn groups_forward(steps: usize, t: [Self; 16], s: &[u8]) -> Run<Self>
        requires { (1 ≤ steps) × (steps ≤ Self.size.steps) }
        ensures { (Self.numbers result.chain ≡ forwards_steps Self.size steps (blocks_of Self.size s.now) (Self.numbers t)) × (result.count ≡ length s.now / block_bytes Self.size) };

    fn groups_backward(steps: usize, t: [Self; 16], s: &[u8]) -> Run<Self>
        requires { (1 ≤ steps) × (steps ≤ Self.size.steps) }
        ensures { (Self.numbers result.chain ≡ backwards_steps Self.size steps (blocks_of Self.size s.now) (Self.numbers t)) × (result.count ≡ length s.now / block_bytes Self.size) };
}

// Words of the step constants and of the sub-messages at each size. Rattle has no array whose length a type parameter gives, so a run by words is lent the two here.
pub const CONSTANTS_32: usize = 8 * <u32 as Word>::STEPS;

pub const EXPANDED_32: usize = 16 * (<u32 as Word>::STEPS + 1);

pub const CONSTANTS_64: usize = 8 * <u64 as Word>::STEPS;

pub const EXPANDED_64: usize = 16 * (<u64 as Word>::STEPS + 1);

// The step constants at w = 64, as an array; crate groups256 has those of w = 32.
pub fn step_constants() -> [u64; CONSTANTS_64]
    ensures { result ≡ constants lsh512 }
{
    let mut sc = [0u64; CONSTANTS_64];
    constants::write_constants(&mut sc, u64::FIRST_CONSTANTS);
    sc
}

// From so many bytes on the groups at w = 32 have a run backward of their own, which is faster over two blocks and more. A block call has one block, and chooses here too.
const MANY: usize = 2 * <u32 as Word>::BLOCK;

impl Engines for u32 {
    fn words_forward(steps: usize, t: [u32; 16], s: &[u8]) -> Run<u32>
        requires { (1 ≤ steps) × (steps ≤ lsh256.steps) }
        ensures { (result.chain ≡ forwards_steps lsh256 steps (blocks_of lsh256 s.now) t) × (result.count ≡ length s.now / block_bytes lsh256) }
    {
        let mut sc = [0u32; CONSTANTS_32];
        let mut m = [0u32; EXPANDED_32];
        words::forward::<u32, ByWord>(&mut sc, &mut m, steps, t, s)
    }

    fn words_backward(steps: usize, t: [u32; 16], s: &[u8]) -> Run<u32>
        requires { (1 ≤ steps) × (steps ≤ lsh256.steps) }
        ensures { (result.chain ≡ backwards_steps lsh256 steps (blocks_of lsh256 s.now) t) × (result.count ≡ length s.now / block_bytes lsh256) }
    {
        let mut sc = [0u32; CONSTANTS_32];
        let mut m = [0u32; EXPANDED_32];
        words::backward::<u32, ByWord>(&mut sc, &mut m, steps, t, s)
    }

    fn groups_forward(steps: usize, t: [u32; 16], s: &[u8]) -> Run<u32>
        requires { (1 ≤ steps) × (steps ≤ lsh256.steps) }
        ensures { (result.chain ≡ forwards_steps lsh256 steps (blocks_of lsh256 s.now) t) × (result.count ≡ length s.now / block_bytes lsh256) }
    {
        groups256::forward(steps, t, s)
    }

    fn groups_backward(steps: usize, t: [u32; 16], s: &[u8]) -> Run<u32>
        requires { (1 ≤ steps) × (steps ≤ lsh256.steps) }
        ensures { (result.chain ≡ backwards_steps lsh256 steps (blocks_of lsh256 s.now) t) × (result.count ≡ length s.now / block_bytes lsh256) }
    {
        if s.len() < MANY {
            return groups256::backward(steps, t, s);
        }
        ahead256::backward(steps, t, s)
    }
}

impl Engines for u64 {
    fn words_forward(steps: usize, t: [u64; 16], s: &[u8]) -> Run<u64>
        requires { (1 ≤ steps) × (steps ≤ lsh512.steps) }
        ensures { (result.chain ≡ forwards_steps lsh512 steps (blocks_of lsh512 s.now) t) × (result.count ≡ length s.now / block_bytes lsh512) }
    {
        let mut sc = [0u64; CONSTANTS_64];
        let mut m = [0u64; EXPANDED_64];
        words::forward::<u64, ByWord>(&mut sc, &mut m, steps, t, s)
    }

    fn words_backward(steps: usize, t: [u64; 16], s: &[u8]) -> Run<u64>
        requires { (1 ≤ steps) × (steps ≤ lsh512.steps) }
        ensures { (result.chain ≡ backwards_steps lsh512 steps (blocks_of lsh512 s.now) t) × (result.count ≡ length s.now / block_bytes lsh512) }
    {
        let mut sc = [0u64; CONSTANTS_64];
        let mut m = [0u64; EXPANDED_64];
        words::backward::<u64, ByWord>(&mut sc, &mut m, steps, t, s)
    }

    fn groups_forward(steps: usize, t: [u64; 16], s: &[u8]) -> Run<u64>
        requires { (1 ≤ steps) × (steps ≤ lsh512.steps) }
        ensures { (result.chain ≡ forwards_steps lsh512 steps (blocks_of lsh512 s.now) t) × (result.count ≡ length s.now / block_bytes lsh512) }
    {
        let mut sc = [0u64; CONSTANTS_64];
        let mut m = [0u64; EXPANDED_64];
        words::forward::<u64, ByGroups>(&mut sc, &mut m, steps, t, s)
    }

    fn groups_backward(steps: usize, t: [u64; 16], s: &[u8]) -> Run<u64>
        requires { (1 ≤ steps) × (steps ≤ lsh512.steps) }
        ensures { (result.chain ≡ backwards_steps lsh512 steps (blocks_of lsh512 s.now) t) × (result.count ≡ length s.now / block_bytes lsh512) }
    {
        let mut sc = [0u64; CONSTANTS_64];
        let mut m = [0u64; EXPANDED_64];
        words::backward::<u64, ByGroups>(&mut sc, &mut m, steps, t, s)
    }
}
