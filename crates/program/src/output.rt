// Standard output.
use crate::{Program, messages};
use std::io::{Error, ErrorKind};

// What is printed could not be written, which was said.
#[derive(Clone, Copy, Debug, PartialEq, Eq)]
pub struct Unwritten;

impl<'a> Program<'a> {
    // Writes all of the bytes. Where that fails the cause is said, and the program has to end.
    pub fn write(&self, bytes: &[u8]) -> Result<(), Unwritten> {
        self.rt.write_all(bytes).map_err(|e| {
            self.say_unwritten(e);
            Unwritten
        })
    }

    // Says why. Nothing is said where nobody reads the output any more.
    fn say_unwritten(&self, error: Error) {
        if error.kind() == ErrorKind::BrokenPipe {
            return;
        }
        messages::write(self.rt, self.name);
        messages::write_cause(self.rt, b": the output cannot be written", error);
    }
}
