// The list of the receipts that were made, and its tally.
ghost use Rattle.std.specs.Prelude.{◌+◌, ◌≤◌, length};
ghost use Rattle.decimal.specs.Number.{most_digits};
ghost use Rattle.receipts.specs.Tally.{most_receipts};

use decimal::DIGITS;
use finalization::RECEIPT;
use program::Program;
use program::output::Unwritten;
use receipts::Kinds;
use tally::MOST_RECEIPTS;

// Room for the line of the counts: three, each with a word of at most 10 bytes, and the newline.
const COUNTS: usize = 3 * (10 + DIGITS) + 1;

// The receipts that were made, as many of them as a tally takes.
#[derive(Drop)]
pub struct List {
    receipts: [[u8; RECEIPT]; MOST_RECEIPTS],
    count: usize,
    ghost in_room: { count ≤ most_receipts },
}

impl List {
    #[tactic(auto, unfolding(receipts::specs::Tally::most_receipts))]
    pub fn new() -> List {
        List {
            receipts: [[0; RECEIPT]; MOST_RECEIPTS],
            count: 0,
        }
    }

    // Puts a receipt behind the others, if there is room.
    #[tactic(auto, unfolding(receipts::specs::Tally::most_receipts))]
    pub fn keep(&mut self, receipt: [u8; RECEIPT]) {
        if self.count < MOST_RECEIPTS {
            self.receipts[self.count] = receipt;
            self.count += 1;
        }
    }

    // Prints the last line: the tally of the receipts; zeros where the call is refused.
    #[tactic(auto, unfolding(receipts::specs::Tally::most_receipts))]
    pub fn print_tally(&self, program: &Program) -> Result<(), Unwritten> {
        let answer = tally::tally(self.receipts[..self.count].as_flattened());
        print_counts(
            program,
            answer.unwrap_or(Kinds {
                firsts: 0,
                reprints: 0,
                blanks: 0,
            }),
        )
    }
}

fn print_counts(program: &Program, kinds: Kinds) -> Result<(), Unwritten> {
    let mut line = [0u8; COUNTS];
    let firsts = put_count(&mut line, 0, b"firsts ", kinds.firsts);
    let reprints = put_count(&mut line, firsts, b" reprints ", kinds.reprints);
    let blanks = put_count(&mut line, reprints, b" blanks ", kinds.blanks);
    let end = buffers::put(&mut line, blanks, b"\n");
    program.write(&line[..end])
}

// Words and a count, from a place on.
fn put_count(line: &mut [u8], from: usize, words: &[u8], x: u64) -> usize
    requires { from + length words.now + most_digits ≤ length line.old }
    ensures { result ≤ from + length words.now + most_digits }
{
    let after = buffers::put(line, from, words);
    decimal::put_number(line, after, x)
}
