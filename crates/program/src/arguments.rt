// The arguments: which are options, which are the values of options, and which name files. Options may stand anywhere before --.
ghost use Rattle.std.specs.Prelude.{◌-◌, ◌≤◌, length, IfSome};
ghost use Rattle.std.specs.Iterator.{at_most};

use crate::Program;
use std::convert::Infallible;
use std::env::FillError;
use std::marker::PhantomData;
use std::rt::Env;

// Options of a program, by their names.
pub trait Named: Copy {
    fn of_name(name: &[u8]) -> Option<Self>;
}

// What a program has for the options that take a value, where it has none such.
impl Named for Infallible {
    fn of_name(_name: &[u8]) -> Option<Infallible> {
        None
    }
}

// What an argument is. F has the program's options that take no value, and V those that take one.
#[derive(Clone, Copy, Debug, PartialEq, Eq, Drop)]
pub enum Argument<F, V> {
    Flag(F),
    // An option, and where its value begins.
    Valued(V, Start),
    // An argument that begins as an option does and is none, and why.
    Wrong(usize, Wrong),
    // The value of the option before it.
    Value,
    // An argument that names a file.
    File(usize),
    // The end of the options.
    End,
}

// Where the value of an option begins: the argument, and the byte there. There may be no such argument.
#[derive(Clone, Copy, Debug, PartialEq, Eq)]
pub struct Start {
    pub argument: usize,
    pub byte: usize,
}

// Why an argument is no option.
#[derive(Clone, Copy, Debug, PartialEq, Eq)]
pub enum Wrong {
    // There is none of its name.
    Unknown,
    // It takes no value, and has one.
    Valued,
}

// What the arguments so far say of the next one.
#[derive(Clone, Copy, Debug, PartialEq, Eq)]
enum Next {
    // It may be an option.
    Any,
    // It is the value of the option before it.
    Value,
    // The options have ended.
    File,
}

// The arguments after the program's name, one after another.
#[derive(Drop)]
pub struct Arguments<'a, F, V> {
    rt: &'a HostRuntime,
    // The next argument, and how many there are, the program's name counted.
    i: usize,
    end: usize,
    next: Next,
    options: PhantomData<(F, V)>,
}

// The arguments of the program.
pub fn all<F: Named, V: Named>(rt: &HostRuntime) -> Arguments<'_, F, V> {
    Arguments {
        rt,
        i: 1,
        end: count(rt),
        next: Next::Any,
        options: PhantomData,
    }
}

// How many arguments there are, the program's name counted.
pub fn count(rt: &HostRuntime) -> usize {
    for i in 0..usize::MAX {
        if is_missing(rt, i) {
            return i;
        }
    }
    usize::MAX
}

// Whether there is no argument i.
pub fn is_missing(rt: &HostRuntime, i: usize) -> bool {
    let mut room = [0u8; 1];
    matches!(rt.arg(i, &mut room), Err(FillError::NotPresent))
}

impl<'a, F: Named, V: Named> Iterator for Arguments<'a, F, V> {
    type Item = Argument<F, V>;

    ghost remaining = { λ s. at_most (s.end - s.i) };

    fn next(&mut self) -> Option<Argument<F, V>> {
        let i = self.i;
        if self.end <= i {
            return None;
        }
        self.i = i + 1;
        match self.next {
            Next::File => Some(Argument::File(i)),
            Next::Value => {
                self.next = Next::Any;
                Some(Argument::Value)
            }
            Next::Any => {
                let argument = read(self.rt, i, i + 1);
                self.next = after(&argument, i);
                Some(argument)
            }
        }
    }
}

// What argument i says of the one after it.
fn after<F, V>(argument: &Argument<F, V>, i: usize) -> Next {
    match argument {
        Argument::Valued(_, start) if start.argument != i => Next::Value,
        Argument::End => Next::File,
        _ => Next::Any,
    }
}

// Argument i, which may be an option; next is the one after it. One that is too long is read as an empty one, which is no option.
fn read<F: Named, V: Named>(rt: &HostRuntime, i: usize, next: usize) -> Argument<F, V> {
    let mut text = io::buffer();
    of_text(i, get_or_empty(rt, i, &mut text), next)
}

fn of_text<F: Named, V: Named>(i: usize, text: &[u8], next: usize) -> Argument<F, V> {
    match text {
        b"--" => Argument::End,
        [b'-', _, ..] => of_option(i, text, next),
        _ => Argument::File(i),
    }
}

// An argument that begins as an option does.
fn of_option<F: Named, V: Named>(i: usize, text: &[u8], next: usize) -> Argument<F, V> {
    let (name, value) = split(text);
    if let Some(option) = V::of_name(name) {
        return Argument::Valued(option, value_start(i, value, next));
    }
    match F::of_name(name) {
        None => Argument::Wrong(i, Wrong::Unknown),
        Some(_) if value.is_some() => Argument::Wrong(i, Wrong::Valued),
        Some(flag) => Argument::Flag(flag),
    }
}

// The name of an option, and where its value begins behind it if it stands in the same argument: -w32, --key=FILE.
fn split(text: &[u8]) -> (&[u8], Option<usize>) {
    if text.starts_with(b"--") {
        return match text.iter().position(|c| *c == b'=') {
            Some(n) => (&text[..n], Some(n + 1)),
            None => (text, None),
        };
    }
    match text.split_at_checked(2) {
        Some((name, [_, ..])) => (name, Some(2)),
        _ => (text, None),
    }
}

// Where the value of an option begins: at a byte of argument i, or else in the next argument.
fn value_start(i: usize, value: Option<usize>, next: usize) -> Start {
    match value {
        Some(byte) => Start { argument: i, byte },
        None => Start {
            argument: next,
            byte: 0,
        },
    }
}

// Argument i, put at the front of the room; nothing where it is missing or longer than the room.
pub fn get<'a>(rt: &HostRuntime, i: usize, room: &'a mut [u8]) -> Option<&'a [u8]>
    ensures { IfSome result (λ s. length s.now ≤ length room.old) }
{
    match rt.arg(i, room) {
        Ok(n) => Some(&room[..n]),
        Err(_) => None,
    }
}

// The same, where one that is missing or too long is as an empty one.
pub fn get_or_empty<'a>(rt: &HostRuntime, i: usize, room: &'a mut [u8]) -> &'a [u8]
    ensures { length result.now ≤ length room.old }
{
    get(rt, i, room).unwrap_or_default()
}

// The text from a place on.
pub fn from(text: &[u8], place: usize) -> &[u8]
    ensures { length result.now ≤ length text.now }
{
    text.get(place..).unwrap_or_default()
}

impl<'a> Program<'a> {
    // Says what is wrong with argument i.
    pub fn say_argument(&self, i: usize, fault: &[u8]) {
        let mut text = io::buffer();
        self.say(get_or_empty(self.rt, i, &mut text), fault);
    }

    // Says why argument i is no option.
    pub fn say_wrong(&self, i: usize, why: Wrong) {
        match why {
            Wrong::Unknown => {
                self.say_argument(i, b"there is no such option; --help says what there is")
            }
            Wrong::Valued => self.say_argument(i, b"this option takes no value"),
        }
    }
}
