// What the options ask for, and whether they suit each other.
use crate::arguments;
use crate::arguments::{Flag, Is, Valued};
use decimal::DIGITS;
use program::Program;
use program::arguments::{Argument, Start, from};
use program::status::Status;

#[derive(Clone, Copy)]
pub struct Asked {
    pub w: u64,
    // The digest length; where none is asked for the longest of the word size.
    n: Option<u64>,
    // Where the name of the key's file begins, if there is a key.
    pub key: Option<Start>,
    pub check: bool,
    pub digest: bool,
    pub length: bool,
    pub tally: bool,
    // How many files are named.
    files: usize,
}

// What is asked for; or, where an option is wrong or asks for something else, how the program ends.
pub fn read(program: &Program) -> Result<Asked, Status> {
    let asked = read_all(program)?;
    if is_right(program, &asked) {
        Ok(asked)
    } else {
        Err(Status::Misused)
    }
}

fn read_all(program: &Program) -> Result<Asked, Status> {
    let mut asked = Asked::nothing();
    for argument in arguments::all(program.rt) {
        asked.take(program, argument)?;
    }
    Ok(asked)
}

impl Asked {
    fn nothing() -> Asked {
        Asked {
            w: 32,
            n: None,
            key: None,
            check: false,
            digest: false,
            length: false,
            tally: false,
            files: 0,
        }
    }

    // Takes one argument in.
    fn take(&mut self, program: &Program, argument: Is) -> Result<(), Status> {
        match argument {
            Argument::Flag(flag) => self.set(flag)?,
            Argument::Valued(Valued::WordSize, start) => self.w = word_size(program, start)?,
            Argument::Valued(Valued::Bits, start) => self.n = Some(bits(program, start)?),
            Argument::Valued(Valued::Key, start) => self.key = Some(key_file(program, start)?),
            Argument::Wrong(i, why) => {
                program.say_wrong(i, why);
                return Err(Status::Misused);
            }
            Argument::File(_) => self.files = self.files.saturating_add(1),
            Argument::Value | Argument::End => {}
        }
        Ok(())
    }

    // Takes in an option without a value. Help and the version end the program.
    fn set(&mut self, flag: Flag) -> Result<(), Status> {
        match flag {
            Flag::Check => self.check = true,
            Flag::Digest => self.digest = true,
            Flag::Length => self.length = true,
            Flag::Tally => self.tally = true,
            Flag::Help => return Err(Status::Help),
            Flag::Version => return Err(Status::Version),
        }
        Ok(())
    }

    // The digest length.
    pub fn digest_length(&self) -> u64 {
        match self.n {
            Some(n) => n,
            None => runs::longest_digest(self.w),
        }
    }
}

// The option -w.
fn word_size(program: &Program, start: Start) -> Result<u64, Status> {
    let w = number(program, b"-w", start)?;
    if !runs::is_word_size(w) {
        number_wrong(program, b"-w", w, b"the word size is 32 or 64");
        return Err(Status::Misused);
    }
    Ok(w)
}

// The option -n. Whether its value suits the word size is known after all options.
fn bits(program: &Program, start: Start) -> Result<u64, Status> {
    let n = number(program, b"-n", start)?;
    if n == 0 {
        number_wrong(program, b"-n", 0, b"a digest has 1 bit at least");
        return Err(Status::Misused);
    }
    Ok(n)
}

// The value of an option as a number; says what is wrong if it is none.
fn number(program: &Program, option: &[u8], start: Start) -> Result<u64, Status> {
    let mut room = io::buffer();
    let Some(text) = program::arguments::get(program.rt, start.argument, &mut room) else {
        program.say(option, b"a number is missing after it");
        return Err(Status::Misused);
    };
    let value = from(text, start.byte);
    script::read_number(value).ok_or_else(|| {
        program.say_value(option, value, b"this is no number, or is too large");
        Status::Misused
    })
}

// Says what is wrong with a number that is the value of an option.
fn number_wrong(program: &Program, option: &[u8], value: u64, fault: &[u8]) {
    let mut digits = [0u8; DIGITS];
    let n = io::decimal(value, &mut digits);
    program.say_value(option, &digits[..n], fault);
}

// The option --key. Its file is read after all options.
fn key_file(program: &Program, start: Start) -> Result<Start, Status> {
    if program::arguments::is_missing(program.rt, start.argument) {
        program.say(b"--key", b"a file is missing after it");
        return Err(Status::Misused);
    }
    Ok(start)
}

// Whether a file is named and the options suit each other; says what is wrong if not.
fn is_right(program: &Program, asked: &Asked) -> bool {
    let n = asked.digest_length();
    if runs::longest_digest(asked.w) < n {
        number_wrong(
            program,
            b"-n",
            n,
            b"a digest has 1 bit at least and 8 times the word size at most",
        );
        return false;
    }
    if asked.files == 0 {
        program.say_alone(b"no file is named; --help says what there is");
        return false;
    }
    if asked.key.is_some() && n % 8 != 0 {
        number_wrong(
            program,
            b"-n",
            n,
            b"with --key a digest has a multiple of 8 bits",
        );
        return false;
    }
    !asked.tally || suits_tally(program, asked)
}

fn suits_tally(program: &Program, asked: &Asked) -> bool {
    if asked.key.is_some() {
        program.say_alone(b"--tally counts receipts, and with --key none are made");
        return false;
    }
    if asked.check {
        program.say_alone(b"--tally counts receipts, and with --check none are printed");
        return false;
    }
    if tally::MOST_RECEIPTS < asked.files {
        program.say_alone(b"--tally takes 960 files at most");
        return false;
    }
    true
}
