// What a word of a script's line has to be, and why a line is no call, which is said on standard error for the one who wrote the script.
#![tactic(auto)]

use script::{ENGINES, OUTPUT, ROLL};
use std::fmt;
use std::ops::RangeInclusive;

// The most lines of which it is said.
const MOST: u64 = 100;

// What a word of a line has to be. The form of a call has one for each word behind the name.
#[derive(Clone, Copy, Debug, PartialEq, Eq)]
pub enum Wanted {
    Number,
    // A byte.
    Last,
    Bytes,
    // SIZE of an output.
    Size,
    // BYTES that are lent as an output.
    Lent,
    // SIZE of a roll.
    RollSize,
    // BYTES of a roll.
    RollBytes,
    // The number of an engine.
    Engine,
}

// Why a line is no call.
#[derive(Clone, Copy, Debug, PartialEq, Eq)]
enum Fault {
    Return,
    Spaces,
    Name,
    // It has not as many words as this, the name counted.
    Count(usize),
    // Word n, counted from 1, is not what it has to be.
    Word(usize, WordFault),
    Lengths,
}

// Why a word is not what it has to be.
#[derive(Clone, Copy, Debug, PartialEq, Eq)]
enum WordFault {
    NoNumber,
    Large,
    LargeOutput,
    LargeRoll,
    NoEngine,
    Upper,
    NoDigit,
    Half,
    NoByte,
}

// Says why line k is no call, unless that was said of many before, and answers of how many lines it has been asked. The form is that of the call that the
// line's first word names, if it names one.
pub fn explain(rt: &HostRuntime, before: u64, k: u64, line: &[u8], form: Option<&[Wanted]>) -> u64 {
    if before < MOST {
        let fault = fault_of(line, form);
        let _ = eprintln!(rt; "replay: line {k}: {fault}");
    }
    if before == MOST {
        let _ = eprintln!(rt;
            "replay: there are more lines that are no call; why is said of the first {MOST}"
        );
    }
    before.wrapping_add(1)
}

// The first fault of a line. If it has no other, the arrays of a record do not have their lengths.
fn fault_of(line: &[u8], form: Option<&[Wanted]>) -> Fault {
    match check_line(line, form) {
        Err(fault) => fault,
        Ok(()) => Fault::Lengths,
    }
}

fn check_line(line: &[u8], form: Option<&[Wanted]>) -> Result<(), Fault> {
    if line.last() == Some(&b'\r') {
        return Err(Fault::Return);
    }
    if line.split(|c| *c == b' ').any(|word| word.is_empty()) {
        return Err(Fault::Spaces);
    }
    let form = form.ok_or(Fault::Name)?;
    let words = form.len().wrapping_add(1);
    if line.split(|c| *c == b' ').count() != words {
        return Err(Fault::Count(words));
    }
    check_words(line, form)
}

// Whether each word behind the name is what it has to be.
fn check_words(line: &[u8], form: &[Wanted]) -> Result<(), Fault> {
    let words = line.split(|c| *c == b' ').skip(1);
    for (n, (word, wanted)) in (2..usize::MAX).zip(words.zip(form)) {
        check_word(word, *wanted).map_err(|why| Fault::Word(n, why))?;
    }
    Ok(())
}

fn check_word(word: &[u8], wanted: Wanted) -> Result<(), WordFault> {
    match wanted {
        Wanted::Number => check_number(word, 0..=u64::MAX, WordFault::Large),
        Wanted::Size => check_number(word, 0..=OUTPUT, WordFault::LargeOutput),
        Wanted::RollSize => check_number(word, 0..=ROLL as u64, WordFault::LargeRoll),
        Wanted::Engine => check_number(word, 1..=ENGINES, WordFault::NoEngine),
        Wanted::Last => check_last(word),
        Wanted::RollBytes => check_roll(word),
        Wanted::Bytes | Wanted::Lent => check_bytes(word),
    }
}

// A number of a range; why is what is wrong with any other.
fn check_number(word: &[u8], range: RangeInclusive<u64>, why: WordFault) -> Result<(), WordFault> {
    if !word.iter().all(|c| c.is_ascii_digit()) {
        return Err(WordFault::NoNumber);
    }
    let x = script::read_number(word).ok_or(WordFault::Large)?;
    if !range.contains(&x) {
        return Err(why);
    }
    Ok(())
}

// A byte.
fn check_last(word: &[u8]) -> Result<(), WordFault> {
    check_bytes(word)?;
    if word.len() != 2 {
        return Err(WordFault::NoByte);
    }
    Ok(())
}

// The bytes of a roll.
fn check_roll(word: &[u8]) -> Result<(), WordFault> {
    if 2 * ROLL < word.len() {
        return Err(WordFault::LargeRoll);
    }
    check_bytes(word)
}

fn check_bytes(word: &[u8]) -> Result<(), WordFault> {
    if hexadecimal::is_dash(word) || hexadecimal::is_hex_bytes(word) {
        return Ok(());
    }
    if word.iter().any(|c| (b'A'..=b'F').contains(c)) {
        return Err(WordFault::Upper);
    }
    if hexadecimal::all_hex(word) {
        return Err(WordFault::Half);
    }
    Err(WordFault::NoDigit)
}

impl fmt::Display for Fault {
    fn fmt<W: fmt::Write>(&self, f: &mut fmt::Formatter<W>) -> fmt::Result {
        match self {
            Fault::Return => f.write_str("it ends in a carriage return"),
            Fault::Spaces => f.write_str(
                "there is a space too many: words have one between two of them, and no other",
            ),
            Fault::Name => f.write_str("its first word is no call"),
            Fault::Count(1) => f.write_str("a line of this call is one word"),
            Fault::Count(n) => write!(f, "a line of this call has {n} words"),
            Fault::Word(n, why) => write!(f, "word {n}: {why}"),
            Fault::Lengths => {
                f.write_str("CHAIN and SECOND have 256 digits each, HELD and BACK 512")
            }
        }
    }
}

impl fmt::Display for WordFault {
    fn fmt<W: fmt::Write>(&self, f: &mut fmt::Formatter<W>) -> fmt::Result {
        f.write_str(match self {
            WordFault::NoNumber => "a number has decimal digits only",
            WordFault::Large => "the number is above 18446744073709551615",
            WordFault::LargeOutput => "an output has 4096 bytes at most",
            WordFault::LargeRoll => "a roll has 65536 bytes at most",
            WordFault::NoEngine => "an engine is 1 or 2",
            WordFault::Upper => "there is an upper-case digit: hexadecimal digits are lower-case",
            WordFault::NoDigit => {
                "bytes have hexadecimal digits only, and are a dash if there are none"
            }
            WordFault::Half => "a byte has two digits, and here is one too few",
            WordFault::NoByte => "LAST is one byte",
        })
    }
}
