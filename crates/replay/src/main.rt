// Replays an order: reads calls from a file, one to a line, makes each, and prints its answer before it waits for the next line.
#![tactic(auto)]

mod buffer;
mod calls;
mod checks;
mod line_words;
mod options;
mod order;
mod outputs;
mod records;
mod reply;
mod rolls;

ghost use Rattle.std.specs.Prelude.{◌≡◌, length};
ghost use Rattle.replay.specs.Sizes.{string_bytes, roll_bytes, room_bytes};

use answers::Refusal;
use buffer::Buffer;
use orders::{Record, Step};
use program::lines::Lines;
use program::output::Unwritten;
use program::status::Status;
use program::{Program, arguments, lines};
use runs::Engine;
use script::ROLL;
use std::io::Error;

// The most bytes of a line, without its newline.
const LINE: usize = 262144;

// The most bytes that the words of a line can say, two digits each.
const BYTES: usize = 131072;

// Room for a line, and behind its name for what it prints.
const ROOM: usize = 2 * LINE + 1024;

// What is kept from line to line.
#[derive(Drop)]
struct State {
    record: Record,
    // It runs the blocks.
    engine: Engine,
    roll: Buffer<ROLL>,
    // How many lines were no call.
    faults: u64,
}

impl State {
    // Takes the record that a call gives, if it gives one, and answers how many blocks were run.
    fn take(&mut self, answer: Result<Step, Refusal>) -> Result<u64, Refusal> {
        let step = answer?;
        self.record = step.next;
        Ok(step.count)
    }
}

// Why the lines are not replayed to their end.
#[derive(Clone, Copy)]
enum Stop {
    // The next one could not be read.
    Unread(Error),
    Unwritten,
}

impl From<Error> for Stop {
    fn from(error: Error) -> Stop {
        Stop::Unread(error)
    }
}

impl From<Unwritten> for Stop {
    fn from(_: Unwritten) -> Stop {
        Stop::Unwritten
    }
}

fn main(rt: HostRuntime) {
    let program = Program::new(&rt, b"replay");
    let status = match options::read(&program) {
        Ok(Some(i)) => named(&program, i),
        Ok(None) => file(&program, b"-"),
        Err(status) => status,
    };
    program.end(status);
}

// Replays the file that argument i names.
fn named(program: &Program, i: usize) -> Status {
    let mut text = io::buffer();
    match arguments::get(program.rt, i, &mut text) {
        Some(name) => file(program, name),
        None => {
            program.say_alone(b"the file's name is too long");
            Status::Failed
        }
    }
}

// Replays the file of a name.
fn file(program: &Program, name: &[u8]) -> Status {
    let Some(source) = program.open(name) else {
        return Status::Failed;
    };
    match replay(program, lines::of(source)) {
        Ok(()) => Status::Done,
        Err(Stop::Unwritten) => Status::Failed,
        Err(Stop::Unread(error)) => {
            program.fail(name, error);
            Status::Failed
        }
    }
}

// Replays the lines.
// A proved loop has to end, and nothing says that the input does, so the lines are counted up to a number that no run comes to.
fn replay(program: &Program, mut lines: Lines) -> Result<(), Stop> {
    let mut line = line_buffer();
    let mut given = bytes_buffer();
    let mut outputs = bytes_buffer();
    let mut s = start();
    for k in 1..u64::MAX {
        let Some(n) = next(&mut lines, &mut line)? else {
            return Ok(());
        };
        answer(program, k, n, &mut line, &mut s, &mut given, &mut outputs)?;
    }
    Ok(())
}

// Reads a line into the front of its room, as `Lines` does.
fn next(lines: &mut Lines, line: &mut [u8; ROOM]) -> Result<Option<usize>, Error> {
    lines.next(line, LINE)
}

// Room for a line. Its bytes are not counted out where it is made in a function of its own.
fn line_buffer() -> [u8; ROOM]
    ensures { room_bytes ≡ length result }
{
    [0; ROOM]
}

fn bytes_buffer() -> Buffer<BYTES>
    ensures { string_bytes ≡ length result.room }
{
    Buffer::new()
}

// The record is all zeros at first, as a refused Open gives it, and the engine is the first.
fn start() -> State
    ensures { roll_bytes ≡ length result.roll.room }
{
    State {
        record: record::no_record(),
        engine: Engine::Words,
        roll: Buffer::new(),
        faults: 0,
    }
}

// Answers line k, of n bytes, and prints the answer; nothing of an empty line, and of one that begins with #.
fn answer(
    program: &Program,
    k: u64,
    n: usize,
    line: &mut [u8; ROOM],
    s: &mut State,
    given: &mut Buffer<BYTES>,
    outputs: &mut Buffer<BYTES>,
) -> Result<(), Unwritten> {
    if LINE < n {
        return reply::print_fault(program, k, line, b"too long");
    }
    let text = &line[..n];
    if matches!(text.first(), None | Some(b'#')) {
        return Ok(());
    }
    match calls::answer(text, s, given, outputs) {
        Some(reply) => reply::print(program, script::until(text, b' '), line, reply, s, outputs),
        None => {
            s.faults = calls::explain(program.rt, s.faults, k, text);
            reply::print_fault(program, k, line, b"not a call")
        }
    }
}
