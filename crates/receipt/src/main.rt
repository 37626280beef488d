// Prints a receipt of each file that it is given, or its tag with a key, one to a line with the file's name, as sha256sum prints a digest; or checks such
// lines, as sha256sum --check does.
#![tactic(auto)]

mod arguments;
mod check;
mod entry;
mod files;
mod job;
mod key;
mod line;
mod list;
mod name;
mod options;

use job::Job;
use options::Asked;
use program::Program;
use program::arguments::Start;
use program::status::Status;

fn main(rt: HostRuntime) {
    let program = Program::new(&rt, b"receipt");
    let s = match options::read(&program) {
        Ok(asked) => run(&program, asked),
        Err(s) => s,
    };
    program.end(s);
}

// Does what is asked for, and answers how it ended.
fn run(program: &Program, asked: Asked) -> Status {
    match asked.key {
        Some(file) => with_key(program, asked, file),
        None => files::all(&Job::without_key(*program, asked)),
    }
}

// Reads the key from the file that an option names, and goes on if that went well.
fn with_key(program: &Program, asked: Asked, file: Start) -> Status {
    let mut room = key::buffer();
    match key::read(program, file, &mut room) {
        Some(key) => files::all(&Job::with_key(*program, asked, key.bytes, key.is_input)),
        None => Status::Failed,
    }
}
