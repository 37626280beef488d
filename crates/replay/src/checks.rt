// The lines whose call only answers: it writes nothing, and returns no record.
use crate::line_words::Words;
use crate::reply::Reply;
use faults::Wanted;
use runs::Engine;

#[derive(Clone, Copy, Debug, PartialEq, Eq)]
pub enum Line {
    Same,
    Tally,
    TagCheck,
}

impl Line {
    pub fn of_name(name: &[u8]) -> Option<Line> {
        match name {
            b"same" => Some(Line::Same),
            b"tally" => Some(Line::Tally),
            b"tagcheck" => Some(Line::TagCheck),
            _ => None,
        }
    }

    pub fn form(self) -> &'static [Wanted] {
        match self {
            Line::Same => &[Wanted::Bytes, Wanted::Bytes],
            Line::Tally => &[Wanted::Bytes],
            Line::TagCheck => &[
                Wanted::Number,
                Wanted::Number,
                Wanted::Bytes,
                Wanted::Bytes,
                Wanted::Bytes,
            ],
        }
    }
}

// Answers a line.
pub fn answer(engine: Engine, line: Line, w: Words) -> Reply {
    match line {
        // same BYTES BYTES
        Line::Same => Reply::Truth(same::same(w.bytes(0), w.bytes(1))),
        // tally BYTES
        Line::Tally => Reply::Tally(tally::tally(w.bytes(0))),
        // tagcheck W N KEY MESSAGE TAG
        Line::TagCheck => Reply::Truth(tag::check(
            engine,
            w.number(0),
            w.number(1),
            w.bytes(2),
            w.bytes(3),
            w.bytes(4),
        )),
    }
}
