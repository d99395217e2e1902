// The numbers of a replay's answer.
ghost use Rattle.std.specs.Prelude.{[], ◌∷◌};
ghost use Rattle.ledger_replay.specs.Replay.{answered_words, replayed_words};
ghost use Rattle.answers.specs.Numbers.{plain, with_none};
ghost use Rattle.answers.specs.inner.Numbers.{Few};

use answers::{FEW, NONE, places};
use ledger_replay::Difference;
use refusals::Refusal;

// If every call answers as the trace says, the entry is a none.
pub fn replayed(answer: Result<Option<Difference>, Refusal>) -> [u64; FEW]
    ensures { Few result (with_none 4 (replayed_words answer)) }
{
    match answer {
        Ok(None) => numbers(NONE, NONE, NONE),
        Ok(Some(found)) => differing(found),
        Err(why) => answers::refused(why),
    }
}

// The entry that differs, and what its call answered.
fn differing(found: Difference) -> [u64; FEW]
    ensures { Few result (with_none 4 (0 ∷ found.entry ∷ answered_words found.answer)) }
{
    let entry = found.entry as u64;
    match found.answer {
        Ok(row) => numbers(entry, 0, row as u64),
        Err(why) => numbers(entry, refusals::number(why) as u64, 0),
    }
}

fn numbers(entry: u64, number: u64, row: u64) -> [u64; FEW]
    ensures { Few result (plain (0 ∷ entry ∷ number ∷ row ∷ [])) }
{
    let mut numbers = [0u64; FEW];
    numbers[places::ENTRY] = entry;
    numbers[places::ENTRY_NUMBER] = number;
    numbers[places::ENTRY_ROW] = row;
    numbers
}
