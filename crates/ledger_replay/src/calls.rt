// Makes the call of an entry on a right sheet, and compares its answer with the entry's. Each call leaves the sheet right, so the sheet is not
// checked again for each call.
ghost use Rattle.std.specs.Prelude.{◌≡◌, true};
ghost use Rattle.ledger_sheet.specs.Sheet.{right};
ghost use Rattle.ledger_sheet.specs.Words.{answer_words, row_words};
ghost use Rattle.ledger_replay.specs.Trace.{call_in};
ghost use Rattle.ledger_replay.specs.Replay.{call_answer, same_call_answer};
ghost use Rattle.ledger_replay.specs.inner.Making.{made, written};
ghost use Rattle.ledger_replay.specs.inner.Numbered.{numbers_of};

use crate::{Call, Line};
use refusals::Refusal;

// Makes the call of an entry. An enrolment answers its row; any other accepted call answers 0.
pub(crate) fn make(s: &mut [u8], x: Line) -> Result<u32, Refusal>
    requires { right s.old ≡ true }
    ensures { (call_answer (row_words result), s.new) ≡ made (call_in (numbers_of x)) s.old }
{
    let desk = x.desk as u32;
    let row = x.row as u32;
    match x.call {
        Call::Enrol => ledger_judged::enrol(s, true, x.key, x.number),
        Call::Open => no_row(ledger_judged::open(s, true, desk, row)),
        Call::Tick => no_row(ledger_judged::mark(s, true, desk, x.number, true)),
        Call::Untick => no_row(ledger_judged::mark(s, true, desk, x.number, false)),
        Call::Save => no_row(ledger_judged::save(s, true, desk)),
        Call::Drop => no_row(ledger_judged::drop(s, true, desk)),
        Call::Strike => no_row(ledger_judged::strike(s, true, row)),
    }
}

// The answer of a call that gives no row.
fn no_row(answer: Result<(), Refusal>) -> Result<u32, Refusal>
    ensures { call_answer (row_words result) ≡ call_answer (answer_words answer) }
{
    answer?;
    Ok(0)
}

// Whether a call answered what the entry says.
pub(crate) fn is_written(x: Line, answer: Result<u32, Refusal>) -> bool
    ensures { result ≡ same_call_answer (call_answer (row_words answer)) (written (numbers_of x)) }
{
    match answer {
        Ok(row) => (x.answer == 0) & (row == written_row(x) as u32),
        Err(why) => refusals::number(why) == x.answer as u32,
    }
}

// The row in the entry of an accepted call: that of an enrolment; 0 of any other.
fn written_row(x: Line) -> u8
    ensures { x.answer ≡ 0 → result ≡ (written (numbers_of x)).row }
{
    match x.call {
        Call::Enrol => x.row,
        _ => 0,
    }
}
