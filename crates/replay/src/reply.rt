// What a line prints.
ghost use Rattle.std.specs.Prelude.{◌+◌, ◌*◌, ◌<◌, ◌≤◌, length};
ghost use Rattle.limits.specs.Limits.{longest_block};
ghost use Rattle.script.specs.Numbers.{wide_chain};
ghost use Rattle.decimal.specs.Number.{most_digits};

use crate::buffer::Buffer;
use crate::{BYTES, LINE, ROOM, State};
use answers::Refusal;
use limits::LONGEST_BLOCK;
use orders::Record;
use program::Program;
use program::output::Unwritten;
use receipts::{Kinds, TallyRefusal};

// What is printed behind the name of a line.
#[derive(Clone, Copy)]
pub enum Reply {
    // Nothing.
    Name,
    // The number of the answer: 0, or the refusal's.
    Number(Result<(), Refusal>),
    // The number, and how many blocks were run.
    Count(Result<u64, Refusal>),
    // The number, and behind 0 a yes or a no.
    Truth(Result<bool, Refusal>),
    // The number, and the output.
    Output(Result<(), Refusal>),
    // What Tally counted.
    Tally(Result<Kinds, TallyRefusal>),
    Roll,
    Record,
}

// Prints what a call answered behind the name of its line, which stands at the front of the buffer and has so many bytes.
pub fn print(
    program: &Program,
    name: usize,
    line: &mut [u8; ROOM],
    reply: Reply,
    s: &State,
    outputs: &Buffer<BYTES>,
) -> Result<(), Unwritten>
    requires { name ≤ LINE }
{
    let end = put_reply(line, name, reply, s, outputs);
    write(program, line, end)
}

// Prints why line k is no call.
pub fn print_fault(
    program: &Program,
    k: u64,
    line: &mut [u8; ROOM],
    fault: &[u8],
) -> Result<(), Unwritten>
    requires { length fault.now ≤ LINE }
{
    let a = buffers::put(line, 0, b"line ");
    let b = decimal::put_number(line, a, k);
    let c = buffers::put(line, b, b": ");
    let end = buffers::put(line, c, fault);
    write(program, line, end)
}

// Writes the first n bytes of line and a newline, in one call where the system takes them all.
fn write(program: &Program, line: &mut [u8; ROOM], n: usize) -> Result<(), Unwritten>
    requires { n < ROOM }
{
    let end = buffers::put(line, n, b"\n");
    program.write(&line[..end])
}

// Puts what a call answered into the buffer from a place on, and answers the place after it, as the following do.
fn put_reply(
    line: &mut [u8; ROOM],
    from: usize,
    reply: Reply,
    s: &State,
    outputs: &Buffer<BYTES>,
) -> usize
    requires { from ≤ LINE }
    ensures { result < ROOM }
{
    match reply {
        Reply::Name => from,
        Reply::Number(answer) => put_number(line, from, number_of(answer)),
        Reply::Count(Ok(count)) => put_numbers(line, from, &[0, count]),
        Reply::Count(Err(refusal)) => put_numbers(line, from, &[refusal as u64, 0]),
        Reply::Truth(Ok(true)) => buffers::put(line, from, b" 0 yes"),
        Reply::Truth(Ok(false)) => buffers::put(line, from, b" 0 no"),
        Reply::Truth(Err(refusal)) => put_number(line, from, refusal as u64),
        Reply::Output(answer) => put_output(line, from, number_of(answer), outputs.bytes()),
        Reply::Tally(answer) => put_tally(line, from, answer),
        Reply::Roll => put_bytes(line, from, s.roll.bytes()),
        Reply::Record => put_record(line, from, s.record),
    }
}

// The number of an answer.
fn number_of(answer: Result<(), Refusal>) -> u64 {
    match answer {
        Ok(()) => 0,
        Err(refusal) => refusal as u64,
    }
}

// The number, the place of a malformed receipt if there is one, and the three counts, which are 0 where the list is refused.
fn put_tally(line: &mut [u8; ROOM], from: usize, answer: Result<Kinds, TallyRefusal>) -> usize
    requires { from ≤ LINE }
    ensures { result < ROOM }
{
    match answer {
        Ok(k) => put_numbers(line, from, &[0, k.firsts, k.reprints, k.blanks]),
        Err(TallyRefusal::NoReceipts) => put_numbers(
            line,
            from,
            &[Refusal::NoReceipts as u64, 0, 0, 0],
        ),
        Err(TallyRefusal::Malformed { place }) => put_numbers(
            line,
            from,
            &[Refusal::Malformed as u64, place, 0, 0, 0],
        ),
    }
}

// Numbers, a space before each.
fn put_numbers(line: &mut [u8], from: usize, numbers: &[u64]) -> usize
    requires { from + (1 + most_digits) * length numbers.now ≤ length line.old }
    ensures { result ≤ from + (1 + most_digits) * length numbers.now }
{
    let mut at = from;
    for x in numbers {
        at = put_number(line, at, *x);
    }
    at
}

// A space and a number.
fn put_number(line: &mut [u8], from: usize, x: u64) -> usize
    requires { from + 1 + most_digits ≤ length line.old }
    ensures { result ≤ from + 1 + most_digits }
{
    let a = buffers::put(line, from, b" ");
    decimal::put_number(line, a, x)
}

// The number of an answer, and an output.
fn put_output(line: &mut [u8], from: usize, number: u64, output: &[u8]) -> usize
    requires { from + 1 + most_digits + 2 + 2 * length output.now ≤ length line.old }
    ensures { result ≤ from + 1 + most_digits + 2 + 2 * length output.now }
{
    let a = put_number(line, from, number);
    put_bytes(line, a, output)
}

// A space and bytes.
fn put_bytes(line: &mut [u8], from: usize, s: &[u8]) -> usize
    requires { from + 2 + 2 * length s.now ≤ length line.old }
    ensures { result ≤ from + 2 + 2 * length s.now }
{
    let a = buffers::put(line, from, b" ");
    text::put_bytes(line, a, s)
}

// The words of the record: its numbers, the chain and the held bytes, and how far a split rewind is.
fn put_record(line: &mut [u8; ROOM], from: usize, r: Record) -> usize
    requires { from ≤ LINE }
    ensures { result < ROOM }
{
    let s = r.split;
    let a = put_numbers(line, from, &[r.w, r.n, r.total]);
    let b = put_state(line, a, r.chain, r.held);
    let c = put_number(line, b, s.mark);
    let d = put_state(line, c, s.second, s.back);
    put_number(line, d, s.blocks)
}

// A chain and the places for a block's bytes.
fn put_state(line: &mut [u8], from: usize, chain: [u64; 16], bytes: [u8; LONGEST_BLOCK]) -> usize
    requires { from + 20 + 2 * wide_chain + 2 * longest_block ≤ length line.old }
    ensures { result ≤ from + 20 + 2 * wide_chain + 2 * longest_block }
{
    let a = put_chain(line, from, chain);
    put_bytes(line, a, &bytes)
}

// A space and the words of a chain, sixteen digits each.
fn put_chain(line: &mut [u8], from: usize, chain: [u64; 16]) -> usize
    requires { from + 18 + 2 * wide_chain ≤ length line.old }
    ensures { result ≤ from + 18 + 2 * wide_chain }
{
    let mut at = buffers::put(line, from, b" ");
    for x in &chain {
        at = text::put_bytes(line, at, &x.to_be_bytes());
    }
    at
}
