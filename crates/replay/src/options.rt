// What is asked for: a script's file, help or the version.
use program::arguments::{Argument, Named};
use program::status::Status;
use program::{Program, arguments};
use std::convert::Infallible;

// The options, of which none takes a value.
#[derive(Clone, Copy, Debug, PartialEq, Eq)]
enum Flag {
    Help,
    Version,
}

impl Named for Flag {
    fn of_name(name: &[u8]) -> Option<Flag> {
        match name {
            b"-h" | b"--help" => Some(Flag::Help),
            b"--version" => Some(Flag::Version),
            _ => None,
        }
    }
}

// The argument that names the script's file, if one does; or the status to end with, since an argument is wrong, or help or the version is asked for.
pub fn read(program: &Program) -> Result<Option<usize>, Status> {
    let mut file = None;
    for argument in arguments::all::<Flag, Infallible>(program.rt) {
        match argument {
            Argument::Flag(Flag::Help) => return Err(Status::Help),
            Argument::Flag(Flag::Version) => return Err(Status::Version),
            Argument::File(i) => file = Some(only(program, file, i)?),
            Argument::Wrong(i, why) => {
                program.say_wrong(i, why);
                return Err(Status::Misused);
            }
            Argument::Valued(..) | Argument::Value | Argument::End => {}
        }
    }
    Ok(file)
}

// Argument i, which names the script's file, if none before it does.
fn only(program: &Program, before: Option<usize>, i: usize) -> Result<usize, Status> {
    if before.is_none() {
        return Ok(i);
    }
    program.say_argument(i, b"one script is replayed, and this is a second");
    Err(Status::Misused)
}
