// Files by name; a dash names standard input.
use crate::Program;
use crate::names::NAME;
use std::fs;
use std::fs::File;
use std::io::{Error, Read};
use std::rt::Stdin;

// What the system calls an argument that is not right: a name that has a zero byte.
const INVALID: i32 = 22;

// What it calls a name that is too long.
const TOO_LONG: i32 = 36;

// What it calls bytes that are no text: std takes names that are UTF-8 alone.
const NO_TEXT: i32 = 84;

// What is read from: standard input, or a file that was opened.
#[derive(Drop)]
pub enum Source {
    Input(Stdin),
    File(File),
}

impl Read for Source {
    fn read(&mut self, chunk: &mut [u8]) -> std::io::Result<usize> {
        match self {
            Source::Input(input) => input.read(chunk),
            Source::File(file) => file.read(chunk),
        }
    }
}

// Whether a name is that of standard input.
pub fn is_standard_input(name: &[u8]) -> bool {
    matches!(name, b"-")
}

impl<'a> Program<'a> {
    // What a name names, or nothing where it cannot be opened, which is said.
    pub fn open(&self, name: &[u8]) -> Option<Source> {
        if is_standard_input(name) {
            return Some(Source::Input(self.rt.stdin()));
        }
        match open_file(self.rt, name) {
            Ok(file) => Some(Source::File(file)),
            Err(e) => {
                self.fail(name, e);
                None
            }
        }
    }
}

// The file of a name, opened to be read.
fn open_file(rt: &HostRuntime, name: &[u8]) -> std::io::Result<File> {
    if NAME <= name.len() {
        return Err(Error::from_raw_os_error(TOO_LONG));
    }
    if name.contains(&0) {
        return Err(Error::from_raw_os_error(INVALID));
    }
    match std::str::from_utf8(name) {
        Ok(path) => fs::open(rt, path),
        Err(_) => Err(Error::from_raw_os_error(NO_TEXT)),
    }
}

// Closes the file. Standard input stays as it is.
pub fn close(source: Source) {
    drop(source);
}
