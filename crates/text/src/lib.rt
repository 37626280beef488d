// Bytes as they are printed, put into a buffer.
#![tactic(auto)]

ghost use Rattle.std.specs.Prelude.{◌≡◌, ◌+◌, ◌*◌, ◌<◌, ◌≤◌, length};
ghost use Rattle.std.proofs.lemmas.List.Edits.{sets};
ghost use Rattle.text.specs.Printed.{hex_digit, digits_of, printed};

// Writes bytes as they are printed into the output from a place on, and returns the place after them.
#[tactic(auto, using(crate::proofs::Printing::length_digits), unfolding(crate::specs::Printed::printed))]
pub fn put_bytes(output: &mut [u8], from: usize, bytes: &[u8]) -> usize
    requires { from + 2 * length bytes.now + 1 ≤ length output.old }
    ensures { (result ≡ from + length (printed bytes.now)) × (result ≤ from + 2 * length bytes.now + 1) × (output.new ≡ sets output.old from (printed bytes.now)) }
{
    if bytes.is_empty() {
        return buffers::put(output, from, b"-");
    }
    put_digits(output, from, bytes)
}

fn put_digits(output: &mut [u8], from: usize, bytes: &[u8]) -> usize
    requires { from + 2 * length bytes.now ≤ length output.old }
    ensures { (result ≡ from + 2 * length bytes.now) × (output.new ≡ sets output.old from (digits_of bytes.now)) }
{
    for (i, byte) in bytes.iter().enumerate() {
        let high = from + 2 * i;
        let low = high + 1;
        output[high] = hex_digit(*byte / 16);
        output[low] = hex_digit(*byte % 16);
    }
    from + 2 * bytes.len()
}

// The library's from_digit gives a char, and an Option of it.
#[tactic(auto, unfolding(crate::specs::Printed::hex_digit))]
fn hex_digit(d: u8) -> u8
    requires { d < 16 }
    ensures { result ≡ hex_digit d }
{
    if d < 10 { b'0' + d } else { 87 + d }
}
