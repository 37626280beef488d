// A line of a list taken apart: what was printed of a file, its length if that was printed, and its name.
ghost use Rattle.std.specs.Prelude.{◌≤◌, length, IfSome};
ghost use Rattle.receipt.specs.declared.line.TheConstants.{LINE};

use crate::line::LINE;
use crate::name::Name;
use program::names;

// The parts of a line.
#[derive(Clone, Copy)]
pub struct Entry<'a> {
    // The hexadecimal digits.
    pub digits: &'a [u8],
    // The length in bits, if there is one.
    pub bits: Option<u64>,
    // The name as it is printed, and whether it is escaped.
    text: &'a [u8],
    escaped: bool,
}

// The parts of a line: a backslash if the name is escaped, digits, a space and the length if there is one, two spaces, and the name.
pub fn parts(line: &[u8]) -> Option<Entry>
    ensures { IfSome result (λ e. (length e.digits.now ≤ length line.now) × (length e.text.now ≤ length line.now)) }
{
    let (escaped, rest) = match line {
        [b'\\', rest @ ..] => (true, rest),
        _ => (false, line),
    };
    let (digits, rest) = cut_at_space(rest);
    let (bits, rest) = cut_length(rest)?;
    let text = rest.strip_prefix(b"  ")?;
    if text.is_empty() {
        return None;
    }
    Some(Entry {
        digits,
        bits,
        text,
        escaped,
    })
}

// The word at the front, and what follows it: nothing, or a space and more.
fn cut_at_space(text: &[u8]) -> (&[u8], &[u8])
    ensures { (length result.0.now ≤ length text.now) × (length result.1.now ≤ length text.now) }
{
    text.split_at(script::until(text, b' '))
}

// The length behind a space, if there is one, and what follows it. What stands there and is no number is none of a line.
fn cut_length(rest: &[u8]) -> Option<(Option<u64>, &[u8])>
    ensures { IfSome result (λ p. length p.1.now ≤ length rest.now) }
{
    match rest {
        [b' ', word @ ..] => {
            let (word, after) = cut_at_space(word);
            if word.is_empty() {
                return Some((None, rest));
            }
            Some((Some(script::read_number(word)?), after))
        }
        _ => Some((None, rest)),
    }
}

impl<'a> Entry<'a> {
    // The name; nothing where it is none, or has more bytes than a name can have. One that is escaped is read into the room.
    pub fn name(&self, room: &'a mut [u8; LINE]) -> Option<Name<'a>>
        requires { length self.now.text.now ≤ LINE }
    {
        if !self.escaped {
            return Name::new(self.text);
        }
        let size = names::read(self.text, room)?;
        Name::new(&room[..size])
    }
}
