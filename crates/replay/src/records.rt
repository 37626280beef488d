// The lines that show and set what is kept: the record, and the engine.
use crate::State;
use crate::line_words::Words;
use crate::reply::Reply;
use faults::Wanted;
use limits::LONGEST_BLOCK;
use orders::{Record, Split};
use runs::Engine;
use script::WIDE_CHAIN;

#[derive(Clone, Copy, Debug, PartialEq, Eq)]
pub enum Line {
    Record,
    Set,
    Engine,
}

impl Line {
    pub fn of_name(name: &[u8]) -> Option<Line> {
        match name {
            b"record" => Some(Line::Record),
            b"set" => Some(Line::Set),
            b"engine" => Some(Line::Engine),
            _ => None,
        }
    }

    pub fn form(self) -> &'static [Wanted] {
        match self {
            Line::Record => &[],
            Line::Set => &[
                Wanted::Number,
                Wanted::Number,
                Wanted::Number,
                Wanted::Bytes,
                Wanted::Bytes,
                Wanted::Number,
                Wanted::Bytes,
                Wanted::Bytes,
                Wanted::Number,
            ],
            Line::Engine => &[Wanted::Engine],
        }
    }
}

// Answers a line; nothing where the arrays of a record do not have their lengths.
pub fn answer(line: Line, w: Words, s: &mut State) -> Option<Reply> {
    match line {
        // record
        Line::Record => return Some(Reply::Record),
        // set W N TOTAL CHAIN HELD MARK SECOND BACK BLOCKS
        Line::Set => s.record = record_of(w)?,
        // engine K
        Line::Engine => s.engine = Engine::from(w.number(0)),
    }
    Some(Reply::Name)
}

// The record that a line says, if its arrays have their lengths.
fn record_of(w: Words) -> Option<Record> {
    let chain = chain_of(w.bytes(3))?;
    let held = block_of(w.bytes(4))?;
    let split = split_of(w)?;
    Some(Record {
        w: w.number(0),
        n: w.number(1),
        total: w.number(2),
        chain,
        held,
        split,
    })
}

fn split_of(w: Words) -> Option<Split> {
    let second = chain_of(w.bytes(6))?;
    let back = block_of(w.bytes(7))?;
    Some(Split {
        mark: w.number(5),
        second,
        back,
        blocks: w.number(8),
    })
}

// The words of a chain, if the bytes are as many.
fn chain_of(bytes: &[u8]) -> Option<[u64; 16]> {
    if bytes.len() != WIDE_CHAIN {
        return None;
    }
    Some(script::chain_of(bytes))
}

// The places for a block's bytes, if the bytes are as many.
fn block_of(bytes: &[u8]) -> Option<[u8; LONGEST_BLOCK]> {
    if bytes.len() != LONGEST_BLOCK {
        return None;
    }
    Some(runs::zero_filled(bytes))
}
