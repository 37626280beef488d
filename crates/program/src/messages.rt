// What is said on standard error, where names are escaped.
ghost use Rattle.std.specs.Prelude.{◌≡◌, ◌≤◌, length};
ghost use Rattle.program.specs.Sizes.{escaped_bytes};

use crate::names::NAME;
use crate::{Program, names};
use std::io::{Error, Write};

// Room for a name each of whose bytes is escaped.
const ESCAPED: usize = 2 * NAME;

// Room for what the system says of an error.
const CAUSE: usize = 256;

impl<'a> Program<'a> {
    // Says what is wrong with a name.
    pub fn say(&self, name: &[u8], fault: &[u8]) {
        tell(self.rt, self.name, b"");
        end_with(self.rt, name, fault);
    }

    // Says what is wrong without a name.
    pub fn say_alone(&self, fault: &[u8]) {
        tell(self.rt, self.name, fault);
        write(self.rt, b"\n");
    }

    // Says what is wrong with the value of an option.
    pub fn say_value(&self, option: &[u8], value: &[u8], fault: &[u8]) {
        tell(self.rt, self.name, option);
        write(self.rt, b" ");
        end_with(self.rt, value, fault);
    }

    // Says how many there are of something that is wrong with a name.
    pub fn say_count(&self, name: &[u8], count: u64, fault: &[u8]) {
        tell(self.rt, self.name, b"");
        write_name(self.rt, name);
        write(self.rt, b": ");
        write_number(self.rt, count);
        write(self.rt, b" ");
        write(self.rt, fault);
        write(self.rt, b"\n");
    }

    // Says why the system refused a call on a file.
    pub fn fail(&self, name: &[u8], error: Error) {
        tell(self.rt, self.name, b"");
        write_name(self.rt, name);
        write_cause(self.rt, b"", error);
    }
}

// The name and the fault that a message ends with.
fn end_with(rt: &HostRuntime, name: &[u8], fault: &[u8]) {
    write_name(rt, name);
    tell(rt, b"", fault);
    write(rt, b"\n");
}

// Writes a name, of which as much is taken as a name can have.
fn write_name(rt: &HostRuntime, name: &[u8]) {
    let mut text = buffer();
    let n = escape(name, &mut text);
    write(rt, &text[..n]);
}

// A line that ends with what failed, a colon, and what the system says of the error.
pub fn write_cause(rt: &HostRuntime, what: &[u8], error: Error) {
    let mut room = [0u8; CAUSE];
    let n = put_cause(error, &mut room);
    write(rt, what);
    write(rt, b": ");
    write(rt, system_words(&room[..n]));
    write(rt, b"\n");
}

// Puts an error as std shows it at the front of the room, as much of it as the room takes.
fn put_cause(error: Error, room: &mut [u8]) -> usize
    ensures { result ≤ length room.new }
{
    let all = room.len();
    let mut rest: &mut [u8] = &mut room[..];
    let _ = write!(rest, "{error}");
    let left = rest.len();
    all.saturating_sub(left)
}

// The system's own words of an error, without the number that std shows behind them.
fn system_words(shown: &[u8]) -> &[u8] {
    match std::str::from_utf8(shown) {
        Ok(text) => match text.split_once(" (os error ") {
            Some((words, _)) => words.as_bytes(),
            None => shown,
        },
        Err(_) => shown,
    }
}

// Writes to standard error. Where that fails there is nowhere to say so.
pub fn write(rt: &HostRuntime, text: &[u8]) {
    let _ = Print::write_all(&rt.stderr(), text);
}

// The same for a number, in decimal digits.
pub fn write_number(rt: &HostRuntime, x: u64) {
    let _ = rt.eprint(x);
}

// Two parts of a message, with a colon between them.
fn tell(rt: &HostRuntime, a: &[u8], b: &[u8]) {
    write(rt, a);
    write(rt, b": ");
    write(rt, b);
}

// Puts the part of a name that is written, escaped, at the front of its room.
fn escape(name: &[u8], room: &mut [u8]) -> usize
    requires { escaped_bytes ≡ length room.old }
    ensures { result ≤ escaped_bytes }
{
    let n = name.len().min(NAME);
    names::put(room, 0, &name[..n])
}

fn buffer() -> [u8; ESCAPED]
    ensures { escaped_bytes ≡ length result }
{
    [0; ESCAPED]
}
