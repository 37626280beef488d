// The lines whose call writes an output.
use crate::State;
use crate::line_words::Words;
use crate::reply::Reply;
use answers::Refusal;
use faults::Wanted;
use orders::Record;
use runs::Engine;

#[derive(Clone, Copy, Debug, PartialEq, Eq)]
pub enum Line {
    Close,
    Whole,
    Forward,
    Backward,
    Tag,
    TagFinish,
}

impl Line {
    pub fn of_name(name: &[u8]) -> Option<Line> {
        match name {
            b"close" => Some(Line::Close),
            b"whole" => Some(Line::Whole),
            b"forward" => Some(Line::Forward),
            b"backward" => Some(Line::Backward),
            b"tag" => Some(Line::Tag),
            b"tagfinish" => Some(Line::TagFinish),
            _ => None,
        }
    }

    pub fn form(self) -> &'static [Wanted] {
        match self {
            Line::Close => &[Wanted::Last, Wanted::Number, Wanted::Size],
            Line::Whole => &[
                Wanted::Number,
                Wanted::Number,
                Wanted::Bytes,
                Wanted::Last,
                Wanted::Number,
                Wanted::Size,
            ],
            Line::Forward | Line::Backward => &[Wanted::Number, Wanted::Lent, Wanted::Bytes],
            Line::Tag => &[
                Wanted::Number,
                Wanted::Number,
                Wanted::Bytes,
                Wanted::Bytes,
                Wanted::Size,
            ],
            Line::TagFinish => &[Wanted::Bytes, Wanted::Size],
        }
    }
}

// Answers a line. The call is lent its output alone, cut to its size.
pub fn answer(line: Line, w: Words, s: &State, output: &mut [u8]) -> Reply {
    Reply::Output(call(s.engine, line, w, s.record, output))
}

fn call(engine: Engine, line: Line, w: Words, r: Record, output: &mut [u8]) -> Result<(), Refusal> {
    match line {
        // close LAST E SIZE
        Line::Close => close::close(engine, r, w.byte(0), w.number(1), output),
        // whole W N BYTES LAST E SIZE
        Line::Whole => whole::whole(
            engine,
            w.number(0),
            w.number(1),
            w.bytes(2),
            w.byte(3),
            w.number(4),
            output,
        ),
        // forward W BYTES BYTES
        Line::Forward => block_call::forward(engine, w.number(0), output, w.bytes(2)),
        // backward W BYTES BYTES
        Line::Backward => block_call::backward(engine, w.number(0), output, w.bytes(2)),
        // tag W N KEY MESSAGE SIZE
        Line::Tag => tag::tag(
            engine,
            w.number(0),
            w.number(1),
            w.bytes(2),
            w.bytes(3),
            output,
        ),
        // tagfinish KEY SIZE
        Line::TagFinish => tag::finish(engine, r, w.bytes(0), output),
    }
}
