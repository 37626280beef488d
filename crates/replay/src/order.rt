// The lines whose call returns the record of an order, but for those with the roll.
use crate::State;
use crate::line_words::Words;
use crate::reply::Reply;
use answers::Refusal;
use faults::Wanted;
use orders::{Record, Step};
use runs::Engine;

#[derive(Clone, Copy, Debug, PartialEq, Eq)]
pub enum Line {
    Open,
    Append,
    Rewind,
    Begin,
    HandBack,
    End,
    Abandon,
    TagStart,
}

impl Line {
    pub fn of_name(name: &[u8]) -> Option<Line> {
        match name {
            b"open" => Some(Line::Open),
            b"append" => Some(Line::Append),
            b"rewind" => Some(Line::Rewind),
            b"begin" => Some(Line::Begin),
            b"handback" => Some(Line::HandBack),
            b"end" => Some(Line::End),
            b"abandon" => Some(Line::Abandon),
            b"tagstart" => Some(Line::TagStart),
            _ => None,
        }
    }

    pub fn form(self) -> &'static [Wanted] {
        match self {
            Line::Open => &[Wanted::Number, Wanted::Number],
            Line::Append | Line::Begin | Line::HandBack => &[Wanted::Bytes],
            Line::Rewind => &[Wanted::Number, Wanted::Bytes],
            Line::End => &[Wanted::Number],
            Line::Abandon => &[],
            Line::TagStart => &[Wanted::Number, Wanted::Number, Wanted::Bytes],
        }
    }
}

// Answers a line. A new order has no count, and is all zeros where it is refused.
pub fn answer(line: Line, w: Words, s: &mut State) -> Reply {
    if matches!(line, Line::Open | Line::TagStart) {
        s.record = record::no_record();
        return Reply::Number(s.take(call(s.engine, line, w, s.record)).map(|_| ()));
    }
    Reply::Count(s.take(call(s.engine, line, w, s.record)))
}

fn call(engine: Engine, line: Line, w: Words, r: Record) -> Result<Step, Refusal> {
    match line {
        // open W N
        Line::Open => record::open(engine, w.number(0), w.number(1)),
        // append BYTES
        Line::Append => append::append(engine, r, w.bytes(0)),
        // rewind KEEP BYTES
        Line::Rewind => rewind::rewind(engine, r, w.number(0), w.bytes(1)),
        // begin BYTES
        Line::Begin => split_rewind::begin(r, w.bytes(0)),
        // handback BYTES
        Line::HandBack => split_rewind::hand_back(engine, r, w.bytes(0)),
        // end KEEP
        Line::End => split_rewind::end(engine, r, w.number(0)),
        // abandon
        Line::Abandon => split_rewind::abandon(r),
        // tagstart W N KEY
        Line::TagStart => tag::start(engine, w.number(0), w.number(1), w.bytes(2)),
    }
}
