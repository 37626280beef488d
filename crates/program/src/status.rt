// How a program ended. It writes a word to a descriptor of its own, and kiosk makes the status of it, since two of the words ask kiosk for more than a
// status. A program that died has written none.
use crate::{Program, messages};
use std::fs::OpenOptions;
use std::io::Write;

// How a program ended.
#[derive(Clone, Copy, Debug, PartialEq, Eq)]
pub enum Status {
    // All is well.
    Done,
    // A file could not be read, a check failed, or the output could not be written.
    Failed,
    // The command line is wrong.
    Misused,
    // Help or the version is asked for. kiosk has them, so that each is written once and nothing has to be built for them.
    Help,
    Version,
}

impl From<bool> for Status {
    // The status of what went well, or did not.
    fn from(good: bool) -> Status {
        if good { Status::Done } else { Status::Failed }
    }
}

// The descriptor of the word, a number that a caller hardly has in use. The system shows each descriptor of a process as a file.
const WORD: &str = "/proc/self/fd/99";

impl<'a> Program<'a> {
    // Says how the program ended.
    pub fn end(&self, status: Status) {
        match status {
            Status::Done => write(self.rt, b"0\n"),
            Status::Failed => write(self.rt, b"1\n"),
            Status::Misused => write(self.rt, b"2\n"),
            Status::Help => self.ask(b"help\n"),
            Status::Version => self.ask(b"version\n"),
        }
    }

    // Asks kiosk. Where the program was started without it, that is said.
    fn ask(&self, word: &[u8]) {
        if write_word(self.rt, word).is_err() {
            messages::write(self.rt, self.name);
            messages::write(
                self.rt,
                b": run it by kiosk, which has the help and the version\n",
            );
        }
    }
}

// Where the program was started without kiosk, nobody reads the word.
fn write(rt: &HostRuntime, word: &[u8]) {
    let _ = write_word(rt, word);
}

fn write_word(rt: &HostRuntime, word: &[u8]) -> std::io::Result<()> {
    let mut file = OpenOptions::new().append(true).open(rt, WORD)?;
    file.write_all(word)
}
