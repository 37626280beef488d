// The lines of a file, which is read in chunks.
ghost use Rattle.std.specs.Prelude.{◌≤◌, length};

use crate::files::Source;
use std::io::{Read, Result};

// The most bytes of a chunk.
const CHUNK: usize = 65536;

// A file of which the lines are read.
#[derive(Drop)]
pub struct Lines {
    source: Source,
    chunk: [u8; CHUNK],
    // The part of the chunk that is still to be taken in, by places and not as a slice, since a struct cannot borrow from itself.
    from: usize,
    to: usize,
    // Whether the file has ended.
    at_end: bool,
    ghost in_chunk: { (from ≤ to) × (to ≤ 65536) },
}

// The lines of a file, from where it is read on.
pub fn of(source: Source) -> Lines {
    Lines {
        source,
        chunk: io::large_buffer(),
        from: 0,
        to: 0,
        at_end: false,
    }
}

impl Lines {
    // Reads a line into the room, and answers how many bytes it has; nothing where the file has ended. Of a line of more than the most bytes the answer is
    // more than the most. The line that the file ends in may lack the newline.
    // A proved loop has to end, and nothing says that a line does, so the turns are counted up to a number that no run comes to.
    pub fn next(&mut self, room: &mut [u8], most: usize) -> Result<Option<usize>>
        requires { most ≤ length room.old }
    {
        let mut size = 0;
        for _ in 0..u64::MAX {
            if self.from == self.to && !self.read()? {
                break;
            }
            size = self.take_in(size, room, most);
            if self.take_newline() {
                return Ok(Some(size));
            }
        }
        Ok(if size == 0 { None } else { Some(size) })
    }

    // Reads once, and answers whether something came. What is at its end is not read again.
    fn read(&mut self) -> Result<bool> {
        if self.at_end {
            return Ok(false);
        }
        let n = self.source.read(&mut self.chunk)?;
        self.from = 0;
        self.to = n;
        self.at_end = n == 0;
        Ok(n != 0)
    }

    // Takes in the chunk up to the first newline or to its end, behind the bytes that the line has so far, and answers how many it has then.
    fn take_in(&mut self, size: usize, room: &mut [u8], most: usize) -> usize
        requires { most ≤ length room.old }
    {
        let rest = &self.chunk[self.from..self.to];
        let n = rest.iter().position(|c| *c == b'\n').unwrap_or(rest.len());
        let joined = join(size, &rest[..n], room, most);
        self.from += n;
        joined
    }

    // Takes the newline, if the chunk is not used up.
    fn take_newline(&mut self) -> bool {
        if self.from == self.to {
            return false;
        }
        self.from += 1;
        true
    }
}

// Puts a piece behind the bytes that the line has so far, and answers how many it has with it. Of a line that is too long nothing more is kept.
fn join(size: usize, piece: &[u8], room: &mut [u8], most: usize) -> usize
    requires { most ≤ length room.old }
{
    if most < size {
        return size;
    }
    if most - size < piece.len() {
        return most + 1;
    }
    let end = size + piece.len();
    room[size..end].copy_from_slice(piece);
    end
}
