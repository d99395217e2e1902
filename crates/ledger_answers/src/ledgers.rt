// The numbers of the ledger's answers.
ghost use Rattle.std.specs.Prelude.{[], ◌∷◌};
ghost use Rattle.ledger_sheet.specs.Words.{row_words, report_values, report_answer_words, gap_words, stream_words, desk_words, unsaved_words};
ghost use Rattle.answers.specs.Numbers.{plain, with_none, flagged};
ghost use Rattle.answers.specs.inner.Numbers.{Few};

use answers::{FEW, NONE, places};
use ledger_sheet::{Gap, Report, Stream, Unsaved, Working};
use refusals::Refusal;

// The row that was enrolled or found.
pub fn row(answer: Result<u32, Refusal>) -> [u64; FEW]
    ensures { Few result (plain (row_words answer)) }
{
    match answer {
        Ok(row) => answers::one(places::ROW, u64::from(row)),
        Err(why) => answers::refused(why),
    }
}

// The answer of a call that gives one number: how many numbers are missing.
pub fn number(answer: Result<u32, Refusal>) -> [u64; FEW]
    ensures { Few result (plain (row_words answer)) }
{
    match answer {
        Ok(n) => answers::count(n as u64),
        Err(why) => answers::refused(why),
    }
}

// A row without a gap has no lowest missing number.
pub fn report(answer: Result<Report, Refusal>) -> [u64; FEW]
    ensures { Few result (with_none 4 (report_answer_words answer)) }
{
    match answer {
        Ok(report) => reported(report),
        Err(why) => answers::refused(why),
    }
}

fn reported(report: Report) -> [u64; FEW]
    ensures { Few result (with_none 4 (0 ∷ report_values report)) }
{
    let mut numbers = [0u64; FEW];
    numbers[places::TICKED] = report.ticked as u64;
    match report.gaps {
        None => numbers[places::LOWEST] = NONE,
        Some(gaps) => {
            numbers[places::MISSING] = gaps.missing as u64;
            numbers[places::LOWEST] = gaps.lowest as u64;
        }
    }
    numbers
}

pub fn gap(answer: Result<Option<Gap>, Refusal>) -> [u64; FEW]
    ensures { Few result (with_none 3 (gap_words answer)) }
{
    match answer {
        Ok(None) => two(NONE, NONE),
        Ok(Some(gap)) => two(gap.number as u64, gap.row as u64),
        Err(why) => answers::refused(why),
    }
}

// 0 and two numbers.
fn two(first: u64, second: u64) -> [u64; FEW]
    ensures { Few result (plain (0 ∷ first ∷ second ∷ [])) }
{
    let mut numbers = [0u64; FEW];
    numbers[1] = first;
    numbers[2] = second;
    numbers
}

pub fn stream(answer: Result<Stream, Refusal>) -> [u64; FEW]
    ensures { Few result (plain (stream_words answer)) }
{
    match answer {
        Ok(stream) => two(stream.key, stream.first as u64),
        Err(why) => answers::refused(why),
    }
}

// The row and the stale flag of a closed desk are nones.
pub fn desk(answer: Result<Option<Working>, Refusal>) -> [u64; FEW]
    ensures { Few result (with_none 3 (desk_words answer)) }
{
    match answer {
        Ok(None) => two(NONE, NONE),
        Ok(Some(desk)) => two(desk.row as u64, answers::flag(desk.stale)),
        Err(why) => answers::refused(why),
    }
}

pub fn unsaved(answer: Result<Unsaved, Refusal>) -> [u64; FEW]
    ensures { Few result (plain (unsaved_words answer)) }
{
    match answer {
        Ok(unsaved) => two(unsaved.ticks as u64, unsaved.unticks as u64),
        Err(why) => answers::refused(why),
    }
}

// Whether a slice is a sheet: 1 or 0.
pub fn is_sheet(holds: bool) -> [u64; FEW]
    ensures { Few result (flagged holds) }
{
    answers::one(places::IS_SHEET, answers::flag(holds))
}
