// The step constants. The first row is stored, and the others are worked out by their rule (14).
#![tactic(auto)]

ghost use Rattle.std.specs.Prelude.{◌≡◌, ◌*◌, length};
ghost use Rattle.lsh.specs.StepConstants.{constants};
ghost use Rattle.loops.specs.Constants.{next_row};

use word::Word;

// By place, as the loops of crates/steps: see there.
fn next_row<W: Word>(p: [W; 8]) -> [W; 8]
    ensures { W.numbers result ≡ next_row W.size (W.numbers p) }
{
    let mut r = [W::ZERO; 8];
    for l in 0..8 {
        r[l] = p[l].next_constant();
    }
    r
}

// Writes them all into their room, SC_j[l] at 8j + l, row after row from the first; the row at hand stays in registers. A loop over whole rows is too long for the compiler to write
// out: one over a single lane it worked out itself, and stored what it found. A run of blocks works them out once, and lends them on.
pub fn write_constants<W: Word>(sc: &mut [W], first: [W; 8])
    requires { (length sc.old ≡ W.size.steps * 8) × (W.numbers first ≡ W.size.first_constants) }
    ensures { W.numbers sc.new ≡ constants W.size }
{
    let mut p = first;
    for j in 0..W::STEPS {
        word::put(sc, j * 8, p);
        let q = next_row(p);
        p = q;
    }
}
