// The lines, by the file that answers each.
use crate::buffer::Buffer;
use crate::line_words::Words;
use crate::reply::Reply;
use crate::{BYTES, State, checks, line_words, order, outputs, records, rolls};
use faults::Wanted;

// A line that is a call.
#[derive(Clone, Copy, Debug, PartialEq, Eq)]
enum Line {
    Order(order::Line),
    Output(outputs::Line),
    Roll(rolls::Line),
    Check(checks::Line),
    Kept(records::Line),
}

impl Line {
    // The line whose first word this is, if there is one.
    fn of_name(name: &[u8]) -> Option<Line> {
        if let Some(line) = order::Line::of_name(name) {
            return Some(Line::Order(line));
        }
        if let Some(line) = outputs::Line::of_name(name) {
            return Some(Line::Output(line));
        }
        if let Some(line) = rolls::Line::of_name(name) {
            return Some(Line::Roll(line));
        }
        if let Some(line) = checks::Line::of_name(name) {
            return Some(Line::Check(line));
        }
        Some(Line::Kept(records::Line::of_name(name)?))
    }

    // What the words behind the name have to be.
    fn form(self) -> &'static [Wanted] {
        match self {
            Line::Order(line) => line.form(),
            Line::Output(line) => line.form(),
            Line::Roll(line) => line.form(),
            Line::Check(line) => line.form(),
            Line::Kept(line) => line.form(),
        }
    }
}

// Makes the call that a line says, if it says one. Its BYTES and its outputs are put into the two buffers.
pub fn answer(
    line: &[u8],
    s: &mut State,
    given: &mut Buffer<BYTES>,
    outputs: &mut Buffer<BYTES>,
) -> Option<Reply> {
    let kind = Line::of_name(script::word(line, 0))?;
    let values = line_words::read(line, kind.form(), given, outputs)?;
    in_file(
        kind,
        Words::new(values, given.bytes()),
        s,
        outputs.bytes_mut(),
    )
}

// Answers a line with its words. The call is lent the outputs.
fn in_file(line: Line, w: Words, s: &mut State, lent: &mut [u8]) -> Option<Reply> {
    match line {
        Line::Order(line) => Some(order::answer(line, w, s)),
        Line::Output(line) => Some(outputs::answer(line, w, s, lent)),
        Line::Roll(line) => Some(rolls::answer(line, w, s)),
        Line::Check(line) => Some(checks::answer(s.engine, line, w)),
        Line::Kept(line) => records::answer(line, w, s),
    }
}

// Says why line k is no call, and answers of how many lines it has been asked.
pub fn explain(rt: &HostRuntime, before: u64, k: u64, line: &[u8]) -> u64 {
    let form = Line::of_name(script::word(line, 0)).map(|kind| kind.form());
    faults::explain(rt, before, k, line, form)
}
