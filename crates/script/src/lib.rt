// The words of a replay script: a line taken apart into words, and what a word says.
#![tactic(auto)]

ghost use Rattle.std.specs.Prelude.{◌≡◌, ◌+◌, ◌*◌, ◌≤◌, length};
ghost use Rattle.lsh.specs.Tabulate.{tabulate};
ghost use Rattle.script.specs.Words.{before, word_at, place_of};
ghost use Rattle.script.specs.Numbers.{word_number, wide_chain, highest_first};

// The bytes of a chain in a script, where each of the 16 words has eight at either word size.
pub const WIDE_CHAIN: usize = 16 * 8;

// The most bytes of an output whose SIZE a line says, and of a roll.
pub const OUTPUT: u64 = 4096;

pub const ROLL: usize = 65536;

// The engines that a line can choose have the numbers from 1 to this.
pub const ENGINES: u64 = 2;

// How many bytes stand before the first that is the mark.
pub fn until(s: &[u8], mark: u8) -> usize
    ensures { (result ≡ length (before mark s.now)) × (result ≤ length s.now) }
{
    s.iter().position(|c| *c == mark).unwrap_or(s.len())
}

// Word i of a line, counted from 0; an empty one where the line has fewer.
pub fn word(line: &[u8], i: usize) -> &[u8]
    ensures { result.now ≡ word_at i line.now }
{
    match line.split(|c| *c == b' ').nth(i) {
        Some(word) => word,
        None => &[],
    }
}

// The place of a name among names with one space between two, counted from 0, if it is one of them.
pub fn place(names: &[u8], name: &[u8]) -> Option<usize>
    ensures { result ≡ place_of names.now name.now }
{
    names
        .split(|c| *c == b' ')
        .position(|word| buffers::equal_bytes(word, name))
}

// The number that a word says, if it is one.
pub fn read_number(word: &[u8]) -> Option<u64>
    ensures { result ≡ word_number word.now }
{
    if word.is_empty() {
        return None;
    }
    let mut x: u64 = 0;
    for c in word {
        if !c.is_ascii_digit() {
            return None;
        }
        x = x.checked_mul(10)?.checked_add(u64::from(*c - b'0'))?;
    }
    Some(x)
}

// The words of a chain, each of eight bytes, the highest first.
pub fn chain_of(bytes: &[u8]) -> [u64; 16]
    requires { length bytes.now ≡ wide_chain }
    ensures { result ≡ tabulate 16 (λ l. highest_first 8 bytes.now (8 * l)) }
{
    let mut chain = [0u64; 16];
    let (words, _) = bytes.as_chunks::<8>();
    for (l, word) in words.iter().enumerate() {
        chain[l] = u64::from_be_bytes(*word);
    }
    chain
}
