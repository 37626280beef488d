// Bytes as two lower-case hexadecimal digits each, read from a word.
#![tactic(auto)]

ghost use Rattle.std.specs.Prelude.{◌≡◌, true, ◌*◌, ◌/◌, ◌<◌, ◌≤◌, length, IfSome, None};
ghost use Rattle.std.proofs.lemmas.List.Edits.{sets};
ghost use Rattle.lsh.specs.Tabulate.{tabulate};
ghost use Rattle.hexadecimal.specs.Hex.{is_digit, is_hex_digit, all_hex, hex_value, byte_of, is_dash, is_hex_bytes, word_length, written};

// How many bytes a word says, if it is BYTES of which the output has room for all. They are written at its front.
pub fn read_bytes(word: &[u8], output: &mut [u8]) -> Option<usize>
    ensures says { result ≡ word_length word.now (length output.old) }
    ensures within { IfSome result (λ n. n ≤ length output.old) }
    ensures writes { output.new ≡ written word.now output.old }
{
    if is_dash(word) {
        return Some(0);
    }
    if !is_hex_bytes(word) {
        return None;
    }
    let n = word.len() / 2;
    if output.len() < n {
        return None;
    }
    decode(word, output);
    Some(n)
}

pub fn is_dash(word: &[u8]) -> bool
    ensures { result ≡ is_dash word.now }
{
    if word.len() != 1 {
        return false;
    }
    word[0] == b'-'
}

pub fn is_hex_bytes(word: &[u8]) -> bool
    ensures { result ≡ is_hex_bytes word.now }
{
    if word.len() == 0 {
        return false;
    }
    if word.len() % 2 != 0 {
        return false;
    }
    all_hex(word)
}

pub fn all_hex(s: &[u8]) -> bool
    ensures { result ≡ all_hex s.now }
{
    let mut i: usize = 0;
    while i < s.len() {
        if !is_hex_digit(s[i]) {
            return false;
        }
        i += 1;
    }
    true
}

fn is_hex_digit(c: u8) -> bool
    ensures { result ≡ is_hex_digit c }
{
    if c < b'a' {
        return is_digit(c);
    }
    c <= b'f'
}

fn hex_value(c: u8) -> u8
    requires { is_hex_digit c ≡ true }
    ensures { (result ≡ hex_value c) × (result < 16) }
{
    if c < b'a' {
        return c - b'0';
    }
    c - b'a' + 10
}

fn decode(word: &[u8], output: &mut [u8])
    requires { (all_hex word.now ≡ true) × (length word.now / 2 ≤ length output.old) }
    ensures { output.new ≡ sets output.old 0 (tabulate (length word.now / 2) (byte_of word.now)) }
{
    let n = word.len() / 2;
    for i in 0..n {
        output[i] = decode_byte(word, i);
    }
}

fn decode_byte(word: &[u8], i: usize) -> u8
    requires { (all_hex word.now ≡ true) × (i < length word.now / 2) }
    ensures { result ≡ byte_of word.now i }
{
    let high = 2 * i;
    let low = high + 1;
    16 * hex_value(word[high]) + hex_value(word[low])
}

pub fn is_digit(c: u8) -> bool
    ensures { result ≡ is_digit c }
{
    if c < b'0' {
        return false;
    }
    c <= b'9'
}
