// The options of this program, by their names.
use program::arguments::{Argument, Arguments, Named};

// Those that take no value.
#[derive(Clone, Copy, Debug, PartialEq, Eq)]
pub enum Flag {
    Check,
    Digest,
    Length,
    Tally,
    Help,
    Version,
}

impl Named for Flag {
    fn of_name(name: &[u8]) -> Option<Flag> {
        match name {
            b"-c" | b"--check" => Some(Flag::Check),
            b"--digest" => Some(Flag::Digest),
            b"--length" => Some(Flag::Length),
            b"--tally" => Some(Flag::Tally),
            b"-h" | b"--help" => Some(Flag::Help),
            b"--version" => Some(Flag::Version),
            _ => None,
        }
    }
}

// Those that take a value.
#[derive(Clone, Copy, Debug, PartialEq, Eq)]
pub enum Valued {
    WordSize,
    Bits,
    Key,
}

impl Named for Valued {
    fn of_name(name: &[u8]) -> Option<Valued> {
        match name {
            b"-w" => Some(Valued::WordSize),
            b"-n" => Some(Valued::Bits),
            b"--key" => Some(Valued::Key),
            _ => None,
        }
    }
}

// What an argument is.
pub type Is = Argument<Flag, Valued>;

// The arguments, one after another.
pub fn all(rt: &HostRuntime) -> Arguments<'_, Flag, Valued> {
    program::arguments::all(rt)
}
