// The words of a line behind its name, read by the form of its call.
use crate::BYTES;
use crate::buffer::Buffer;
use faults::Wanted;
use script::{ENGINES, OUTPUT, ROLL};
use std::ops::RangeInclusive;

// The most words of a line behind its name.
pub const WORDS: usize = 12;

// What each place of an output holds before the call, where the line says its SIZE alone.
const UNTOUCHED: u8 = 0xa5;

// What a word says.
#[derive(Clone, Copy, Debug)]
pub enum Value {
    // A number, a SIZE or the number of an engine.
    Number(u64),
    // LAST.
    Byte(u8),
    // BYTES or an output: where they begin and end in their buffer.
    Part(usize, usize),
}

// Reads the words of a line, whose name comes first: one value for each. BYTES stand end to end in one buffer, and the outputs that a call is lent in the
// other. The answer is nothing where the words are not those of the form.
pub fn read(
    line: &[u8],
    form: &[Wanted],
    given: &mut Buffer<BYTES>,
    outputs: &mut Buffer<BYTES>,
) -> Option<[Value; WORDS]> {
    given.clear();
    outputs.clear();
    let mut values = [Value::Number(0); WORDS];
    let mut words = line.split(|c| *c == b' ').skip(1);
    for (i, wanted) in form.iter().enumerate() {
        let value = read_word(words.next()?, *wanted, given, outputs)?;
        *values.get_mut(i)? = value;
    }
    if words.next().is_some() {
        return None;
    }
    Some(values)
}

// What a word says, if it is what it has to be.
fn read_word(
    word: &[u8],
    wanted: Wanted,
    given: &mut Buffer<BYTES>,
    outputs: &mut Buffer<BYTES>,
) -> Option<Value> {
    match wanted {
        Wanted::Number => Some(Value::Number(script::read_number(word)?)),
        Wanted::RollSize => Some(Value::Number(number(word, 0..=ROLL as u64)?)),
        Wanted::Engine => Some(Value::Number(number(word, 1..=ENGINES)?)),
        Wanted::Last => last(word),
        Wanted::Size => output(word, outputs),
        Wanted::Lent => bytes(word, outputs),
        Wanted::Bytes => bytes(word, given),
        Wanted::RollBytes => roll_bytes(word, given),
    }
}

// A number of a range.
fn number(word: &[u8], range: RangeInclusive<u64>) -> Option<u64> {
    script::read_number(word).filter(|x| range.contains(x))
}

fn last(word: &[u8]) -> Option<Value> {
    let mut byte = [0u8; 1];
    if hexadecimal::read_bytes(word, &mut byte)? != 1 {
        return None;
    }
    Some(Value::Byte(byte[0]))
}

// SIZE of an output.
fn output(word: &[u8], outputs: &mut Buffer<BYTES>) -> Option<Value> {
    let size = number(word, 0..=OUTPUT)?;
    let (from, to) = outputs.add(size as usize, UNTOUCHED)?;
    Some(Value::Part(from, to))
}

fn bytes(word: &[u8], buffer: &mut Buffer<BYTES>) -> Option<Value> {
    let (from, to) = buffer.read(word)?;
    Some(Value::Part(from, to))
}

// BYTES of a roll. Each byte has two digits.
fn roll_bytes(word: &[u8], given: &mut Buffer<BYTES>) -> Option<Value> {
    if 2 * ROLL < word.len() {
        return None;
    }
    bytes(word, given)
}

// The words of a call, by their places behind the name. A word of another kind is read as 0 or as no bytes.
#[derive(Clone, Copy, Debug)]
pub struct Words<'a> {
    values: [Value; WORDS],
    // BYTES, end to end.
    given: &'a [u8],
}

impl<'a> Words<'a> {
    pub fn new(values: [Value; WORDS], given: &'a [u8]) -> Words<'a> {
        Words { values, given }
    }

    pub fn number(&self, i: usize) -> u64 {
        match self.values.get(i) {
            Some(Value::Number(x)) => *x,
            _ => 0,
        }
    }

    pub fn byte(&self, i: usize) -> u8 {
        match self.values.get(i) {
            Some(Value::Byte(x)) => *x,
            _ => 0,
        }
    }

    pub fn bytes(&self, i: usize) -> &'a [u8] {
        match self.values.get(i) {
            Some(Value::Part(from, to)) => self.given.get(*from..*to).unwrap_or_default(),
            _ => b"",
        }
    }
}
