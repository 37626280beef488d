// Names of files as they are printed and read back: a backslash, a newline and a carriage return are escaped, each by a backslash and a letter.
ghost use Rattle.std.specs.Prelude.{◌+◌, ◌*◌, ◌≤◌, length, IfSome};

// The longest name of a file, for which io::buffer has room.
pub const NAME: usize = 4096;

// Whether no byte of a name is escaped.
pub fn is_plain(name: &[u8]) -> bool {
    name.iter().all(|c| letter(*c).is_none())
}

// Writes the name into the output from a place on, with its escaped bytes, and answers the place after it.
pub fn put(output: &mut [u8], from: usize, name: &[u8]) -> usize
    requires { from + 2 * length name.now ≤ length output.old }
    ensures { (from ≤ result) × (result ≤ from + 2 * length name.now) }
{
    let mut at = from;
    for c in name {
        at = put_byte(output, at, *c);
    }
    at
}

// A byte of the name, or a backslash and its letter.
fn put_byte(output: &mut [u8], at: usize, c: u8) -> usize
    requires { at + 2 ≤ length output.old }
    ensures { (at ≤ result) × (result ≤ at + 2) }
{
    match letter(c) {
        Some(escaped) => {
            output[at] = b'\\';
            output[at + 1] = escaped;
            at + 2
        }
        None => {
            output[at] = c;
            at + 1
        }
    }
}

// What a byte is written as after a backslash, if it is escaped.
fn letter(c: u8) -> Option<u8> {
    match c {
        b'\\' => Some(b'\\'),
        b'\n' => Some(b'n'),
        b'\r' => Some(b'r'),
        _ => None,
    }
}

// The byte that is written as a letter after a backslash, if there is one.
fn escaped_by(letter: u8) -> Option<u8> {
    match letter {
        b'\\' => Some(b'\\'),
        b'n' => Some(b'\n'),
        b'r' => Some(b'\r'),
        _ => None,
    }
}

// Reads an escaped name, writes it at the output's front, and answers how many bytes it has; nothing if it is none, since a letter is missing after a
// backslash or a byte is zero.
pub fn read(text: &[u8], output: &mut [u8]) -> Option<usize>
    requires { length text.now ≤ length output.old }
    ensures { IfSome result (λ n. n ≤ length text.now) }
{
    let mut size = 0;
    let mut after = false;
    for c in text {
        if !after && *c == b'\\' {
            after = true;
        } else {
            output[size] = byte(after, *c)?;
            size += 1;
            after = false;
        }
    }
    if after { None } else { Some(size) }
}

// The byte that stands there: itself, or after a backslash the one of which it is the letter. No name has a zero byte.
fn byte(after: bool, c: u8) -> Option<u8> {
    match (after, c) {
        (true, c) => escaped_by(c),
        (false, 0) => None,
        (false, c) => Some(c),
    }
}
