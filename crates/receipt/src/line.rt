// The lines that are printed: what was made of a file, or what a check found of it, and its name.
ghost use Rattle.std.specs.Prelude.{◌≡◌, ◌+◌, ◌<◌, ◌≤◌, length};
ghost use Rattle.receipts.specs.Receipt.{receipt_bytes};
ghost use Rattle.decimal.specs.Number.{most_digits};
ghost use Rattle.receipt.specs.Sizes.{line_bytes, verdict_bytes};

use crate::name::Name;
use decimal::DIGITS;
use finalization::RECEIPT;
use program::names::NAME;
use program::output::Unwritten;
use program::{Program, names};

// Room for the longest line (line_bytes in specs/Sizes.antt).
pub const LINE: usize = 1 + (2 * RECEIPT + 1) + (1 + DIGITS) + 2 + 2 * NAME + 1;

// What a check finds of a file.
#[derive(Clone, Copy, Debug, PartialEq, Eq)]
pub enum Verdict {
    // It is as listed.
    Right,
    Wrong,
    // It cannot be read.
    Unread,
}

impl Verdict {
    // What is printed of it, behind the file's name.
    fn words(self) -> &'static [u8]
        ensures { length result.now ≤ verdict_bytes }
    {
        match self {
            Verdict::Right => b": OK",
            Verdict::Wrong => b": FAILED",
            Verdict::Unread => b": FAILED open or read",
        }
    }
}

#[tactic(auto, unfolding(crate::specs::Sizes::line_bytes, receipts::specs::Receipt::receipt_bytes))]
pub fn buffer() -> [u8; LINE]
    ensures { line_bytes ≡ length result }
{
    [0; LINE]
}

// Prints bytes of a receipt or of a tag, the length of a file in bits if it is asked for, and its name.
pub fn print(
    program: &Program,
    shown: &[u8],
    bits: Option<u64>,
    name: Name,
) -> Result<(), Unwritten>
    requires { length shown.now ≤ receipt_bytes }
{
    let mut line = buffer();
    let end = put(&mut line, shown, bits, name);
    print_ended(program, &mut line, end, name)
}

// Prints a name and what a check found of it.
pub fn print_verdict(program: &Program, name: Name, verdict: Verdict) -> Result<(), Unwritten> {
    let mut line = buffer();
    let end = put_verdict(&mut line, name, verdict);
    print_ended(program, &mut line, end, name)
}

// Puts what a line shows into its room, after the place of a backslash, and answers where the newline comes.
#[tactic(auto, unfolding(receipts::specs::Receipt::receipt_bytes))]
fn put(line: &mut [u8; LINE], shown: &[u8], bits: Option<u64>, name: Name) -> usize
    requires { length shown.now ≤ receipt_bytes }
    ensures { (1 ≤ result) × (result < LINE) }
{
    let a = text::put_bytes(line, 1, shown);
    let b = put_length(line, a, bits);
    let c = buffers::put(line, b, b"  ");
    names::put(line, c, name.bytes)
}

// The same for a name and a verdict.
fn put_verdict(line: &mut [u8; LINE], name: Name, verdict: Verdict) -> usize
    ensures { (1 ≤ result) × (result < LINE) }
{
    let a = names::put(line, 1, name.bytes);
    buffers::put(line, a, verdict.words())
}

// A space and the length, if it is asked for.
fn put_length(line: &mut [u8], from: usize, bits: Option<u64>) -> usize
    requires { from + 1 + most_digits ≤ length line.old }
    ensures { (from ≤ result) × (result ≤ from + 1 + most_digits) }
{
    match bits {
        Some(bits) => {
            let after = buffers::put(line, from, b" ");
            decimal::put_number(line, after, bits)
        }
        None => from,
    }
}

// Ends a line of a name, and prints it. As sha256sum does, a line whose name has an escaped byte begins with a backslash.
fn print_ended(
    program: &Program,
    line: &mut [u8; LINE],
    end: usize,
    name: Name,
) -> Result<(), Unwritten>
    requires { (1 ≤ end) × (end < LINE) }
{
    line[0] = b'\\';
    line[end] = b'\n';
    let begin = names::is_plain(name.bytes) as usize;
    program.write(&line[begin..=end])
}
