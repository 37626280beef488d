// Rewind and the end of a split rewind with a roll: the end of an order is taken back, and the checkpoints past the new end are taken off its roll. The
// roll is written last, when the call is accepted.
#![tactic(auto)]

ghost use Rattle.std.specs.Prelude.{◌≡◌, true, length};
ghost use Rattle.lsh.specs.WordSize.{size_of};
ghost use Rattle.orders.specs.declared.Record.{Record};
ghost use Rattle.orders.specs.Step.{outcome};
ghost use Rattle.checkpoints.specs.Roll.{links, is_roll};
ghost use Rattle.checkpoints.specs.RewindRoll.{rewind_roll_call, rewound_roll, cut_roll};
ghost use Rattle.checkpoints.specs.EndRoll.{end_roll_call, ended_roll};

use answers::Refusal;
use orders::{Record, Step};
use runs::Engine;

// The record after its last bytes h were handed back and the first keep of them remain.
pub fn rewind_roll(
    engine: Engine,
    r: Record,
    keep: u64,
    h: &[u8],
    roll: &mut [u8],
) -> Result<Step, Refusal>
    ensures { (outcome r result ≡ rewind_roll_call r keep h.now roll.old) × (roll.new ≡ rewound_roll r keep h.now roll.old) }
{
    let known = roll::turn(r, record::is_begun(r), roll)?;
    let rewound = rewind::in_turn(engine, r, keep, h);
    cut(r.w, roll, known.count, &rewound);
    rewound
}

// The record of what remains, where the first keep of the bytes handed back in steps are kept.
pub fn end_roll(engine: Engine, r: Record, keep: u64, roll: &mut [u8]) -> Result<Step, Refusal>
    ensures { (outcome r result ≡ end_roll_call r keep roll.old) × (roll.new ≡ ended_roll r keep roll.old) }
{
    let known = roll::turn(r, !record::is_begun(r), roll)?;
    let ended = split_rewind::in_turn(engine, r, keep);
    cut(r.w, roll, known.count, &ended);
    ended
}

// Takes the checkpoints past the new end off the roll, of which count are linked. A refused call leaves them all.
fn cut(w: u64, roll: &mut [u8], count: usize, given: &Result<Step, Refusal>)
    requires { (is_roll (size_of w) roll.old ≡ true) × (count ≡ length (links (size_of w) roll.old)) }
    ensures { (r : Record) → roll.new ≡ cut_roll w (outcome r given.now) roll.old }
{
    let left = match given {
        Ok(step) => roll::checkpoints(w, step.next.total) as usize,
        Err(_) => count,
    };
    roll::unlink(w, roll, count, left);
}
