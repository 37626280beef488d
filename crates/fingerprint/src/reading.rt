// Files read in chunks, and what they hold appended to a record.
use orders::Record;
use program::files::Source;
use program::{Program, files};
use runs::Engine;
use std::io::{Error, Read};

// Why a file makes no record.
#[derive(Clone, Copy)]
enum Fault {
    Unread(Error),
    // It has more bytes than an order can have.
    TooLong,
}

impl From<Error> for Fault {
    fn from(error: Error) -> Fault {
        Fault::Unread(error)
    }
}

// The record of a file's bytes; nothing where it makes none, which is said.
pub fn read_file(
    program: &Program,
    engine: Engine,
    name: &[u8],
    input_taken: bool,
    opened: Record,
) -> Option<Record> {
    let source = open_file(program, name, input_taken)?;
    match read_all(engine, source, opened) {
        Ok(r) => Some(r),
        Err(fault) => {
            say(program, name, fault);
            None
        }
    }
}

// What a name names, or nothing where it cannot be read, which is said. Standard input that is read for something else is no file.
pub fn open_file(program: &Program, name: &[u8], input_taken: bool) -> Option<Source> {
    if input_taken && files::is_standard_input(name) {
        program.say(
            name,
            b"standard input is read for the key or the list already",
        );
        return None;
    }
    program.open(name)
}

// A proved loop has to end, and nothing says that a file does, so the reads are counted up to a number that no run comes to.
fn read_all(engine: Engine, mut source: Source, opened: Record) -> Result<Record, Fault> {
    let mut chunk = io::large_buffer();
    let mut r = opened;
    for _ in 0..u64::MAX {
        let n = source.read(&mut chunk)?;
        if n == 0 {
            break;
        }
        r = append(engine, r, &chunk[..n])?;
    }
    Ok(r)
}

// Appends the bytes of a read.
fn append(engine: Engine, r: Record, piece: &[u8]) -> Result<Record, Fault> {
    match append::append(engine, r, piece) {
        Ok(step) => Ok(step.next),
        Err(_) => Err(Fault::TooLong),
    }
}

// Says why a file makes no record.
fn say(program: &Program, name: &[u8], fault: Fault) {
    match fault {
        Fault::Unread(e) => program.fail(name, e),
        Fault::TooLong => program.say(
            name,
            b"it has more than 2^40 bytes, the key's block counted if there is a key",
        ),
    }
}
