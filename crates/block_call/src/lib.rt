// Block forward and Block backward: one block on the bytes of a chain, for either word size.
#![tactic(auto)]

ghost use Rattle.std.specs.Prelude.{◌≡◌, length};
ghost use Rattle.answers.specs.Refusal.{answer_of};
ghost use Rattle.blocks.specs.BlockCall.{block_answer, forward_bytes, backward_bytes};

use answers::Refusal;
use runs::Engine;

// Runs the block forward, if the call is accepted.
pub fn forward(engine: Engine, w: u64, chain: &mut [u8], block: &[u8]) -> Result<(), Refusal>
    ensures { (answer_of result ≡ block_answer w (length chain.old) (length block.now)) × (chain.new ≡ forward_bytes w chain.old block.now) }
{
    answer(w, chain.len(), block.len())?;
    runs::forward_bytes(engine, w, chain, block);
    Ok(())
}

// Runs the block backward, if the call is accepted. It has its own three lines: with the run as a parameter they would be two calls of a function with a longer contract.
pub fn backward(engine: Engine, w: u64, chain: &mut [u8], block: &[u8]) -> Result<(), Refusal>
    ensures { (answer_of result ≡ block_answer w (length chain.old) (length block.now)) × (chain.new ≡ backward_bytes w chain.old block.now) }
{
    answer(w, chain.len(), block.len())?;
    runs::backward_bytes(engine, w, chain, block);
    Ok(())
}

// The tests of a call, by w and the lengths of chain and block.
#[tactic(auto, unfolding(blocks::specs::BlockCall::block_answer, blocks::specs::BlockCall::are_lengths))]
fn answer(w: u64, chain: usize, block: usize) -> Result<(), Refusal>
    ensures { answer_of result ≡ block_answer w chain block }
{
    if !runs::is_word_size(w) {
        return Err(Refusal::BadWordSize);
    }
    if chain != runs::chain_bytes(w) || block != runs::block_bytes(w) {
        return Err(Refusal::BadLength);
    }
    Ok(())
}
