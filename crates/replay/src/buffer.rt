// Bytes at the front of a room.
ghost use Rattle.std.specs.Prelude.{◌≤◌, length};

// That the size is never above the room's is no ghost field: with one the check does not cover yet that the room is lent as &mut, so each use cuts the size
// to the room.
#[derive(Drop)]
pub struct Buffer<const N: usize> {
    room: [u8; N],
    size: usize,
}

impl<const N: usize> Buffer<N> {
    // A buffer without bytes.
    pub fn new() -> Buffer<N> {
        Buffer {
            room: [0; N],
            size: 0,
        }
    }

    pub fn bytes(&self) -> &[u8]
        ensures { length result.now ≤ N }
    {
        &self.room[..self.size.min(N)]
    }

    pub fn bytes_mut(&mut self) -> &mut [u8] {
        let n = self.size.min(N);
        &mut self.room[..n]
    }

    pub fn clear(&mut self) {
        self.size = 0;
    }

    // Adds so many bytes of a value, and answers where they begin and end; nothing where they have no room.
    pub fn add(&mut self, count: usize, value: u8) -> Option<(usize, usize)> {
        let from = self.size;
        let to = from.checked_add(count)?;
        self.room.get_mut(from..to)?.fill(value);
        self.size = to;
        Some((from, to))
    }

    // Adds the BYTES of a word, and answers where they begin and end; nothing where it is none, or they have no room.
    pub fn read(&mut self, word: &[u8]) -> Option<(usize, usize)> {
        let from = self.size;
        let n = hexadecimal::read_bytes(word, self.room.get_mut(from..)?)?;
        let to = from.checked_add(n)?;
        self.size = to;
        Some((from, to))
    }

    // Takes the bytes of another in place of its own, as many as have room.
    pub fn set(&mut self, bytes: &[u8]) {
        let n = bytes.len().min(N);
        self.room[..n].copy_from_slice(&bytes[..n]);
        self.size = n;
    }
}
