// The lines on the roll.
use crate::State;
use crate::line_words::Words;
use crate::reply::Reply;
use answers::Refusal;
use faults::Wanted;
use orders::{Record, Step};
use runs::Engine;

#[derive(Clone, Copy, Debug, PartialEq, Eq)]
pub enum Line {
    Clear,
    Set,
    Show,
    Changed(Change),
}

// The calls that change an order and its roll.
#[derive(Clone, Copy, Debug, PartialEq, Eq)]
pub enum Change {
    Append,
    Rewind,
    End,
}

impl Line {
    pub fn of_name(name: &[u8]) -> Option<Line> {
        match name {
            b"roll" => Some(Line::Clear),
            b"rollset" => Some(Line::Set),
            b"showroll" => Some(Line::Show),
            b"appendroll" => Some(Line::Changed(Change::Append)),
            b"rewindroll" => Some(Line::Changed(Change::Rewind)),
            b"endroll" => Some(Line::Changed(Change::End)),
            _ => None,
        }
    }

    pub fn form(self) -> &'static [Wanted] {
        match self {
            Line::Clear => &[Wanted::RollSize],
            Line::Set => &[Wanted::RollBytes],
            Line::Show => &[],
            Line::Changed(Change::Append) => &[Wanted::Bytes],
            Line::Changed(Change::Rewind) => &[Wanted::Number, Wanted::Bytes],
            Line::Changed(Change::End) => &[Wanted::Number],
        }
    }
}

// Answers a line.
pub fn answer(line: Line, w: Words, s: &mut State) -> Reply {
    match line {
        // roll SIZE
        Line::Clear => {
            s.roll.clear();
            let _ = s.roll.add(w.number(0) as usize, 0);
            Reply::Name
        }
        // rollset BYTES
        Line::Set => {
            s.roll.set(w.bytes(0));
            Reply::Name
        }
        // showroll
        Line::Show => Reply::Roll,
        Line::Changed(change) => changed(change, w, s),
    }
}

// Makes a call on the record and the roll.
fn changed(change: Change, w: Words, s: &mut State) -> Reply {
    let answer = call(s.engine, change, w, s.record, s.roll.bytes_mut());
    Reply::Count(s.take(answer))
}

fn call(
    engine: Engine,
    change: Change,
    w: Words,
    r: Record,
    roll: &mut [u8],
) -> Result<Step, Refusal> {
    match change {
        // appendroll BYTES
        Change::Append => append_roll::append_roll(engine, r, w.bytes(0), roll),
        // rewindroll KEEP BYTES
        Change::Rewind => rewind_roll::rewind_roll(engine, r, w.number(0), w.bytes(1), roll),
        // endroll KEEP
        Change::End => rewind_roll::end_roll(engine, r, w.number(0), roll),
    }
}
