// What C gets of what a call gives: numbers in place of refusals. The definitions stand in crates/answers, crates/orders and crates/receipts, which have no
// code.
#![tactic(auto)]

ghost use Rattle.std.specs.Prelude.{◌≡◌};
ghost use Rattle.answers.specs.Refusal.{number, answer_of};
ghost use Rattle.orders.specs.Step.{outcome};
ghost use Rattle.receipts.specs.Numbered.{sameness, counts};
ghost use Rattle.receipts.specs.Tally.{refused_tally};

use answers::Refusal;
use orders::{Outcome, Record, Step};
use receipts::{Counts, Kinds, Sameness, TallyRefusal};

// The number of a refusal.
pub fn number(refusal: Refusal) -> u32
    ensures { result ≡ number refusal }
{
    refusal as u32
}

// Of a call that gives nothing: 0 where it is accepted.
pub fn answer(given: Result<(), Refusal>) -> u32
    ensures { result ≡ answer_of given }
{
    match given {
        Ok(()) => 0,
        Err(refusal) => number(refusal),
    }
}

// Of a call on the record r that changes an order.
#[tactic(auto, unfolding(orders::specs::Record::refused))]
pub fn outcome(r: Record, given: Result<Step, Refusal>) -> Outcome
    ensures { result ≡ outcome r given }
{
    match given {
        Ok(step) => Outcome {
            number: 0,
            count: step.count,
            next: step.next,
        },
        Err(refusal) => Outcome {
            number: number(refusal),
            count: 0,
            next: r,
        },
    }
}

// Of a call that says whether two are the same.
pub fn sameness(given: Result<bool, Refusal>) -> Sameness
    ensures { result ≡ sameness given }
{
    match given {
        Ok(same) => Sameness { number: 0, same },
        Err(refusal) => Sameness {
            number: number(refusal),
            same: false,
        },
    }
}

// Of Tally.
pub fn counts(given: Result<Kinds, TallyRefusal>) -> Counts
    ensures { result ≡ counts given }
{
    match given {
        Ok(kinds) => Counts {
            number: 0,
            place: 0,
            firsts: kinds.firsts,
            reprints: kinds.reprints,
            blanks: kinds.blanks,
        },
        Err(TallyRefusal::NoReceipts) => not_counted(Refusal::NoReceipts, 0),
        Err(TallyRefusal::Malformed { place }) => not_counted(Refusal::Malformed, place),
    }
}

#[tactic(auto, unfolding(receipts::specs::Tally::refused_tally))]
fn not_counted(refusal: Refusal, place: u64) -> Counts
    ensures { result ≡ refused_tally (number refusal) place }
{
    Counts {
        number: number(refusal),
        place,
        firsts: 0,
        reprints: 0,
        blanks: 0,
    }
}
