// The key, read from its file.
ghost use Rattle.std.specs.Prelude.{◌≡◌, ◌≤◌, length, IfOk};
ghost use Rattle.receipt.specs.Sizes.{key_room};

use program::arguments::Start;
use program::files::Source;
use program::{Program, arguments, files};
use std::io::{Read, Result};

// The most bytes of a key. There is room for one more, by which a longer key is found out.
const KEY: usize = 65536;

pub const ROOM: usize = KEY + 1;

// A key that was read.
#[derive(Clone, Copy)]
pub struct Key<'a> {
    pub bytes: &'a [u8],
    // Whether it came from standard input.
    pub is_input: bool,
    ghost in_room: { length bytes.now ≤ key_room },
}

pub fn buffer() -> [u8; ROOM]
    ensures { key_room ≡ length result }
{
    [0; ROOM]
}

// Reads the key into the room from the file that an option names; nothing where that makes no key, which is said.
pub fn read<'a>(program: &Program, file: Start, room: &'a mut [u8; ROOM]) -> Option<Key<'a>> {
    let mut text = io::buffer();
    match arguments::get(program.rt, file.argument, &mut text) {
        Some(path) => named(program, arguments::from(path, file.byte), room),
        None => {
            program.say(b"--key", b"the file's name is too long");
            None
        }
    }
}

// The same for a file of a name.
fn named<'a>(program: &Program, name: &[u8], room: &'a mut [u8; ROOM]) -> Option<Key<'a>> {
    let mut source = program.open(name)?;
    let filled = fill(&mut source, room);
    files::close(source);
    match filled {
        Ok(size) if is_right(program, name, size) => Some(Key {
            bytes: &room[..size],
            is_input: files::is_standard_input(name),
        }),
        Ok(_) => None,
        Err(e) => {
            program.fail(name, e);
            None
        }
    }
}

// Whether so many bytes make a key; says what is wrong if not.
fn is_right(program: &Program, name: &[u8], size: usize) -> bool {
    if size == 0 {
        program.say(name, b"the key is empty");
        return false;
    }
    if KEY < size {
        program.say(name, b"the key has more than 65536 bytes");
        return false;
    }
    true
}

// Reads until the room is full or the file ends, and answers how many bytes came. A full room takes no more. The reads are counted as in crates/fingerprint.
fn fill(source: &mut Source, room: &mut [u8]) -> Result<usize>
    ensures { IfOk result (λ size. size ≤ length room.new) }
{
    let mut size = 0;
    for _ in 0..u64::MAX {
        let n = source.read(&mut room[size..])?;
        if n == 0 {
            break;
        }
        size += n;
    }
    Ok(size)
}
