// A number's decimal digits, put into a buffer.
#![tactic(auto)]

ghost use Rattle.std.specs.Prelude.{◌≡◌, ◌+◌, ◌-◌, ◌≤◌, length};
ghost use Rattle.std.proofs.lemmas.List.Edits.{sets};
ghost use Rattle.io.specs.Digits.{last_digits, IsDigitCount};
ghost use Rattle.decimal.specs.Number.{most_digits};

// The most digits of a number of 64 bits, for which io::decimal wants room.
pub const DIGITS: usize = 20;

// Writes the digits of a number into the output from a place on, and returns the place after them.
#[tactic(auto, using(crate::proofs::Digits::few_digits))]
pub fn put_number(output: &mut [u8], from: usize, x: u64) -> usize
    requires { from + most_digits ≤ length output.old }
    ensures { (result ≤ from + most_digits) × IsDigitCount 10 1 x (result - from) × (output.new ≡ sets output.old from (last_digits 10 (result - from) x)) }
{
    let mut number = [0u8; DIGITS];
    let k = io::decimal(x, &mut number);
    buffers::put(output, from, &number[..k])
}
