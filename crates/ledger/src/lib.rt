// The receipt ledger: the public calls on a lent sheet (document 01, "The ledger sheet"; document 02, requests 03 and 10). Each contract has the same
// shape: the words of the answer and the sheet after the call are those of the model's call on the book in the sheet. A call refuses a sheet that is
// not right with 20, and leaves it unchanged.

#![tactic(auto)]

ghost use Rattle.std.specs.Prelude.{◌≡◌};
ghost use Rattle.ledger_model.specs.Step.{Find, RowReport, FirstGap, RowStream, DeskState, Unsaved};
ghost use Rattle.ledger_model.specs.Step.{Enrol, Ask, Open, Mark, Tick, Untick, Save, Drop, Strike};
ghost use Rattle.ledger_sheet.specs.Words.{answer_words, row_words, report_answer_words, gap_words, stream_words, desk_words, unsaved_words};
ghost use Rattle.ledger_sheet.specs.Sheet.{right};
ghost use Rattle.ledger_layout.specs.Layout.{call, on_sheet, fresh_on};

use ledger_changes::desks;
use ledger_judged as judged;
use ledger_judged::verdicts;
use ledger_layout::lookup;
use ledger_sheet as sheet;
use ledger_sheet::{Gap, Report, Stream, Working, right};
use refusals::Refusal;

// Makes the slice a fresh sheet. Tests only its length.
pub fn fresh(s: &mut [u8]) -> Result<(), Refusal>
    ensures { (answer_words result, s.new) ≡ fresh_on s.old }
{
    if s.len() != sheet::SHEET {
        return Err(Refusal::NotSheet);
    }
    desks::make_fresh(s);
    Ok(())
}

// Enrols a stream in the lowest free row, with no ticks. Answers the row.
pub fn enrol(s: &mut [u8], key: u64, first: u32) -> Result<u32, Refusal>
    ensures { (row_words result, s.new) ≡ on_sheet (call (Enrol key first)) s.old }
{
    let fine = right::is_sheet(s);
    judged::enrol(s, fine, key, first)
}

// Finds a stream. Answers its row.
pub fn find(s: &[u8], key: u64) -> Result<u32, Refusal>
    ensures { (row_words result, s.now) ≡ on_sheet (call (Ask (Find key))) s.now }
{
    judged::find(s, right::is_sheet(s), key)
}

// Opens a row at a desk: the desk gets two copies of it.
pub fn open(s: &mut [u8], desk: u32, row: u32) -> Result<(), Refusal>
    ensures { (answer_words result, s.new) ≡ on_sheet (call (Open desk row)) s.old }
{
    let fine = right::is_sheet(s);
    judged::open(s, fine, desk, row)
}

// Ticks a number in the desk's worked copy.
pub fn tick(s: &mut [u8], desk: u32, number: u32) -> Result<(), Refusal>
    ensures { (answer_words result, s.new) ≡ on_sheet (call (Tick desk number)) s.old }
{
    mark(s, desk, number, true)
}

// Unticks a number in the desk's worked copy. Twice, since the papers name both calls; `mark` has what they share.
pub fn untick(s: &mut [u8], desk: u32, number: u32) -> Result<(), Refusal>
    ensures { (answer_words result, s.new) ≡ on_sheet (call (Untick desk number)) s.old }
{
    mark(s, desk, number, false)
}

// Ticks a number if `on` is true, else unticks it.
fn mark(s: &mut [u8], desk: u32, number: u32, on: bool) -> Result<(), Refusal>
    ensures { (answer_words result, s.new) ≡ on_sheet (call (Mark on desk number)) s.old }
{
    let fine = right::is_sheet(s);
    judged::mark(s, fine, desk, number, on)
}

// Drops what the desk has open: the desk is closed, and nothing is saved. Drop, save and strike stand apart, since each has a promise of its own.
pub fn drop(s: &mut [u8], desk: u32) -> Result<(), Refusal>
    ensures { (answer_words result, s.new) ≡ on_sheet (call (Drop desk)) s.old }
{
    let fine = right::is_sheet(s);
    judged::drop(s, fine, desk)
}

// Saves the desk's worked copy into its row, if the row is still as the desk opened it. (Apart from drop and strike, since its promise is its own.)
pub fn save(s: &mut [u8], desk: u32) -> Result<(), Refusal>
    ensures { (answer_words result, s.new) ≡ on_sheet (call (Save desk)) s.old }
{
    let fine = right::is_sheet(s);
    judged::save(s, fine, desk)
}

// Strikes a row that no desk has open. Its place is free again.
pub fn strike(s: &mut [u8], row: u32) -> Result<(), Refusal>
    ensures { (answer_words result, s.new) ≡ on_sheet (call (Strike row)) s.old }
{
    let fine = right::is_sheet(s);
    judged::strike(s, fine, row)
}

// Answers how many numbers of a row are ticked, how many are missing, and the lowest missing one.
pub fn row_report(s: &[u8], row: u32) -> Result<Report, Refusal>
    ensures { (report_answer_words result, s.now) ≡ on_sheet (call (Ask (RowReport row))) s.now }
{
    verdicts::row_verdict(s, right::is_sheet(s), row)?;
    Ok(ledger_counts::row_report(s, row as usize))
}

// Answers the first missing number and its row.
pub fn first_gap(s: &[u8]) -> Result<Option<Gap>, Refusal>
    ensures { (gap_words result, s.now) ≡ on_sheet (call (Ask FirstGap)) s.now }
{
    if right::is_sheet(s) {
        return Ok(ledger_counts::first_gap(s));
    }
    Err(Refusal::NotSheet)
}

// Whether the slice is a right sheet.
pub fn is_sheet(s: &[u8]) -> bool
    ensures { result ≡ right s.now }
{
    right::is_sheet(s)
}

// Answers a row's stream: its key and its first number.
pub fn row(s: &[u8], row: u32) -> Result<Stream, Refusal>
    ensures { (stream_words result, s.now) ≡ on_sheet (call (Ask (RowStream row))) s.now }
{
    verdicts::row_verdict(s, right::is_sheet(s), row)?;
    let a = sheet::row_at(row as usize);
    Ok(Stream {
        key: right::key_at(s, a),
        first: right::first_at(s, a),
    })
}

// Answers whether a desk is closed, or else its row and whether a save would be stale now.
pub fn desk(s: &[u8], desk: u32) -> Result<Option<Working>, Refusal>
    ensures { (desk_words result, s.now) ≡ on_sheet (call (Ask (DeskState desk))) s.now }
{
    verdicts::desk_number_verdict(right::is_sheet(s), desk)?;
    let d = desk as usize;
    let Some(row) = lookup::open_row(s, d) else {
        return Ok(None);
    };
    Ok(Some(Working {
        row: row as u32,
        stale: !desks::is_current(s, d),
    }))
}

// Answers how many ticks and unticks a desk has not saved.
pub fn unsaved(s: &[u8], desk: u32) -> Result<sheet::Unsaved, Refusal>
    ensures { (unsaved_words result, s.now) ≡ on_sheet (call (Ask (Unsaved desk))) s.now }
{
    verdicts::desk_verdict(s, right::is_sheet(s), desk)?;
    let a = sheet::desk_at(desk as usize);
    let opened = a + sheet::OPENED_AT;
    let worked = a + sheet::WORKED_AT;
    Ok(sheet::Unsaved {
        ticks: ledger_counts::ticked_beyond(s, worked, opened),
        unticks: ledger_counts::ticked_beyond(s, opened, worked),
    })
}
