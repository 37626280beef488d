// Lines that were printed before, checked: whether each is what would be printed of its file now.
ghost use Rattle.std.specs.Prelude.{◌≡◌, ◌+◌, ◌<◌, ◌≤◌, length};
ghost use Rattle.receipt.specs.Found.{counted};

use crate::job::Job;
use crate::line::{LINE, Verdict};
use crate::name::Name;
use crate::{entry, line};
use finalization::RECEIPT;
use fingerprint::{Fingerprint, Kind, reading};
use program::files::Source;
use program::output::Unwritten;
use program::{Program, files, lines};
use std::io::Error;

// What is found of a line.
#[derive(Clone, Copy, Debug, PartialEq, Eq)]
enum Finding {
    // It was printed of a file, which was checked.
    Checked(Verdict),
    // It is no line that was printed.
    NoLine,
    // It is empty or a comment.
    Nothing,
}

// How many lines of each kind were found.
#[derive(Clone, Copy)]
struct Found {
    right: u64,
    wrong: u64,
    unread: u64,
    no_line: u64,
    // Why the list could not be read to its end, if so.
    failed: Option<Error>,
}

// What a line has of a file.
#[derive(Clone, Copy)]
enum Listed<'a> {
    // A receipt that could have been written.
    Receipt([u8; RECEIPT]),
    // As many bytes as the digests or the tags that are asked for.
    Part(&'a [u8]),
}

// Checks the lines of the list of a name, and answers whether all are right.
pub fn list(job: &Job, name: Name) -> Result<bool, Unwritten> {
    let Some(source) = reading::open_file(&job.program, name.bytes, job.input_taken) else {
        return Ok(false);
    };
    let mut job = *job;
    job.input_taken |= files::is_standard_input(name.bytes);
    let found = each(&job, source)?;
    Ok(verdict(&job.program, name.bytes, found))
}

fn each(job: &Job, source: Source) -> Result<Found, Unwritten> {
    let mut lines = lines::of(source);
    let mut room = line::buffer();
    let mut found = Found::nothing();
    for _ in 0..u64::MAX {
        match lines.next(&mut room, LINE) {
            Ok(Some(n)) => found.add(line_of(job, &room, n)?),
            Ok(None) => break,
            Err(e) => {
                found.failed = Some(e);
                break;
            }
        }
    }
    Ok(found)
}

impl Found {
    fn nothing() -> Found
        ensures { counted result ≡ 0 }
    {
        Found {
            right: 0,
            wrong: 0,
            unread: 0,
            no_line: 0,
            failed: None,
        }
    }

    // Counts one line more.
    fn add(&mut self, finding: Finding)
        requires { counted self.old < u64.MAX }
        ensures { counted self.new ≤ counted self.old + 1 }
    {
        match finding {
            Finding::Checked(Verdict::Right) => self.right += 1,
            Finding::Checked(Verdict::Wrong) => self.wrong += 1,
            Finding::Checked(Verdict::Unread) => self.unread += 1,
            Finding::NoLine => self.no_line += 1,
            Finding::Nothing => {}
        }
    }

    // Whether all lines are right and there is one.
    fn is_right(&self) -> bool {
        self.failed.is_none()
            && self.right != 0
            && self.wrong == 0
            && self.unread == 0
            && self.no_line == 0
    }

    // Whether there was no line to check.
    fn is_empty(&self) -> bool {
        self.right == 0 && self.wrong == 0 && self.unread == 0
    }
}

// What is found of the line of n bytes at the front of its room; one that is longer than the room was never printed. A list may come from a system whose
// lines end in a carriage return; elsewhere in a line none was printed.
fn line_of(job: &Job, room: &[u8; LINE], n: usize) -> Result<Finding, Unwritten> {
    let Some(line) = room.get(..n) else {
        return Ok(Finding::NoLine);
    };
    let text = match line {
        [] | [b'#', ..] | b"\r" => return Ok(Finding::Nothing),
        [text @ .., b'\r'] => text,
        text => text,
    };
    if text.contains(&b'\r') {
        return Ok(Finding::NoLine);
    }
    entry_of(job, text)
}

// What is found of a line that is neither empty nor a comment.
fn entry_of(job: &Job, line: &[u8]) -> Result<Finding, Unwritten>
    requires { length line.now ≤ LINE }
{
    let Some(entry) = entry::parts(line) else {
        return Ok(Finding::NoLine);
    };
    let mut bytes = [0u8; RECEIPT];
    let Some(listed) = Listed::read(job, entry.digits, &mut bytes) else {
        return Ok(Finding::NoLine);
    };
    let mut room = line::buffer();
    let Some(name) = entry.name(&mut room) else {
        return Ok(Finding::NoLine);
    };
    let verdict = file(job, listed, entry.bits, name);
    line::print_verdict(&job.program, name, verdict)?;
    Ok(Finding::Checked(verdict))
}

// Whether the file of a name is as listed. A receipt is that of the file with its own w and n.
fn file(job: &Job, listed: Listed, bits: Option<u64>, name: Name) -> Verdict {
    match fingerprint::of_file(&job.program, listed.kind(job), job.key, name.bytes) {
        Some(f) if bits.unwrap_or(f.bits) == f.bits && listed.agrees(f) => Verdict::Right,
        Some(_) => Verdict::Wrong,
        None => Verdict::Unread,
    }
}

impl<'a> Listed<'a> {
    // What digits say, if that is what is asked for. The bytes are put into the room.
    fn read(job: &Job, digits: &[u8], room: &'a mut [u8; RECEIPT]) -> Option<Listed<'a>> {
        let n = hexadecimal::read_bytes(digits, room)?;
        Listed::of(job, &room[..n])
    }

    fn of(job: &Job, bytes: &'a [u8]) -> Option<Listed<'a>> {
        if job.has_receipts() {
            let receipt = bytes.try_into().ok()?;
            return is_receipt(&receipt).then_some(Listed::Receipt(receipt));
        }
        let is_part = bytes.len() == fingerprint::digest_bytes(job.asked.digest_length());
        is_part.then_some(Listed::Part(bytes))
    }

    // What is asked for of the file.
    #[tactic(auto, unfolding(receipts::specs::Receipt::receipt_bytes))]
    fn kind(&self, job: &Job) -> Kind {
        match self {
            Listed::Receipt(receipt) => Kind {
                w: u64::from(receipt[0]),
                n: same::digest_length_of(receipt),
                digest: false,
                input_taken: job.input_taken,
            },
            Listed::Part(_) => job.kind(),
        }
    }

    // Whether that is listed which is made of the file now. Receipts are compared by Same; of a digest or a tag every byte is compared, as in the check of a tag.
    fn agrees(&self, f: Fingerprint) -> bool {
        match self {
            Listed::Receipt(receipt) => same::same(receipt, &f.receipt()) == Ok(true),
            Listed::Part(bytes) => buffers::equal_bytes(bytes, f.shown()),
        }
    }
}

// Whether these bytes are a receipt that could have been written: such a one is the same as itself.
fn is_receipt(bytes: &[u8; RECEIPT]) -> bool {
    same::same(bytes, bytes).is_ok()
}

// Says what was found in the list of a name, and answers whether all of it is right.
fn verdict(program: &Program, name: &[u8], found: Found) -> bool {
    if let Some(e) = found.failed {
        program.fail(name, e);
    }
    say_count(program, name, found.wrong, b"file failed", b"files failed");
    say_count(
        program,
        name,
        found.unread,
        b"file could not be read",
        b"files could not be read",
    );
    say_count(
        program,
        name,
        found.no_line,
        b"line is not as it is printed without --check",
        b"lines are not as they are printed without --check",
    );
    if found.is_empty() && found.failed.is_none() {
        program.say(name, b"there is no line to check in it");
    }
    found.is_right()
}

// Says how many lines there are of a kind, if there are any.
fn say_count(program: &Program, name: &[u8], count: u64, one: &[u8], more: &[u8]) {
    match count {
        0 => {}
        1 => program.say_count(name, count, one),
        _ => program.say_count(name, count, more),
    }
}
