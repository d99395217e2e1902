// A desk receives a stream of records. Each whole record makes one visit of the desk: the desk finds and opens its row, ticks its number, and saves;
// if the tick is refused, it drops the row. A receive is a list of the ledger's calls; the sheet is checked once.

#![tactic(auto)]

ghost use Rattle.std.specs.Prelude.{◌≡◌, true, cond, ◌∷◌, ◌+◌, ◌<◌, ◌^◌, eqb};
ghost use Rattle.refusals.specs.Judge.{verdict, none_applies};
ghost use Rattle.keys.specs.Key.{valid_key};
ghost use Rattle.sfdu.specs.Nesting.{kind_number};
ghost use Rattle.sfdu.specs.Read.{kind_of, read_rules};
ghost use Rattle.sfdu_headers.specs.Fields.{record_number};
ghost use Rattle.ledger_sheet.specs.Sheet.{right};
ghost use Rattle.ledger_layout.specs.Layout.{book_of};
ghost use Rattle.ledger_layout.specs.Demand3.{answer_of};
ghost use Rattle.ledger_judged.specs.inner.Verdicts.{verdict_number};
ghost use Rattle.ledger_receive.specs.Visits.{arrived};
ghost use Rattle.ledger_receive.specs.Receive.{received_values, received_words, arrival_in, receive_rules, receiving, receive_on};
ghost use Rattle.ledger_receive.specs.inner.Calls.{brought_by, outcome_of, Ready, leave, at_row, visiting};

use ledger_judged as judged;
use ledger_layout::lookup;
use ledger_sheet as sheet;
use ledger_sheet::right;
use refusals::Refusal;
use sfdu::Kind;
use sfdu_stream as stream;

// What a record says: its stream's key and its number. (Public because the prover needs it.)
#[derive(Clone, Copy)]
pub struct Arrival {
    pub key: u64,
    pub number: u32,
}

// How many whole records were handled, where the walk stopped and why; and how many records were ticked.
#[derive(Clone, Copy)]
pub struct Received {
    pub walked: stream::Walked,
    pub ticked: usize,
}

// The last call of a visit: a save if the tick is accepted, else a drop. Gives the outcome.
// Said in each, since the sheet is a lent slice that each of the ledger's calls takes as it is: a type around it would be opened at every call.
fn leave_desk(s: &mut [u8], desk: u32, ticked: Result<(), Refusal>) -> Result<(), Refusal>
    requires { right s.old ≡ true }
    ensures { (outcome_of result, s.new) ≡ leave desk (answer_of ticked) (book_of s.old) }
{
    if let Err(why) = ticked {
        // The visit opened the row at this desk, so the ledger accepts the drop.
        let _ = judged::drop(s, true, desk);
        return Err(why);
    }
    // The visit opened the row at this desk, and nobody changed it since, so the ledger accepts the save.
    let _ = judged::save(s, true, desk);
    Ok(())
}

// Opens the row, ticks the number, and saves or drops. Gives the outcome.
fn visit_row(s: &mut [u8], desk: u32, row: u32, number: u32) -> Result<(), Refusal>
    requires { right s.old ≡ true }
    ensures { (outcome_of result, s.new) ≡ at_row desk row number (book_of s.old) }
{
    // The row was just found, and the desk exists and is closed, so the ledger accepts the open.
    let _ = judged::open(s, true, desk, row);
    let ticked = judged::mark(s, true, desk, number, true);
    leave_desk(s, desk, ticked)
}

// The visit of a record with this key and number.
fn visit_stream(s: &mut [u8], desk: u32, key: u64, number: u32) -> Result<(), Refusal>
    requires { (right s.old ≡ true) × (valid_key key ≡ true) }
    ensures { (outcome_of result, s.new) ≡ visiting desk (arrived key number) (book_of s.old) }
{
    let row = judged::find(s, true, key)?;
    visit_row(s, desk, row, number)
}

// What the whole record at the start of a slice says; nothing if a field of its header is out of range. Its kind and number are known, so its label
// is not read again.
fn read_arrival(slice: &[u8], kind: u32, number: u32) -> Option<Arrival>
    requires { (none_applies (read_rules slice.now) ≡ true) × (kind ≡ kind_number (kind_of slice.now))
        × (number ≡ record_number (kind_of slice.now) slice.now) }
    ensures { brought_by result ≡ arrival_in slice.now }
{
    let kind = Kind::try_from(kind).unwrap();
    let key = sfdu_headers::stream_key(slice, kind)?;
    Some(Arrival { key, number })
}

// The visit of the whole record at the start of a slice. Gives the outcome.
fn visit_record(
    s: &mut [u8],
    desk: u32,
    slice: &[u8],
    kind: u32,
    number: u32,
) -> Result<(), Refusal>
    requires { (right s.old ≡ true) × (none_applies (read_rules slice.now) ≡ true) × (kind ≡ kind_number (kind_of slice.now))
        × (number ≡ record_number (kind_of slice.now) slice.now) }
    ensures { (outcome_of result, s.new) ≡ visiting desk (arrival_in slice.now) (book_of s.old) }
{
    match read_arrival(slice, kind, number) {
        Some(brought) => visit_stream(s, desk, brought.key, brought.number),
        None => Err(Refusal::FieldRange),
    }
}

// A number, since the caller lends a list of numbers for the outcomes, as C does.
// The outcome as the list has it: 0 if the record is ticked and saved, else the refusal's number.
fn outcome_number(outcome: Result<(), Refusal>) -> u32
    ensures { result ≡ outcome_of outcome }
{
    match outcome {
        Ok(()) => 0,
        Err(why) => refusals::number(why),
    }
}

// The count of ticked records, with one more if this one is ticked.
fn tally(ticked: usize, outcome: Result<(), Refusal>) -> usize
    requires { ticked + 1 < 2 ^ 64 }
    ensures { result ≡ ticked + cond (eqb (outcome_of outcome) 0) 1 0 }
{
    match outcome {
        Ok(()) => ticked + 1,
        Err(_) => ticked,
    }
}

// Makes the visits of a stream's records. The sheet is right, and the desk has no row open.
fn receive_all(s: &mut [u8], desk: u32, stream: &[u8], list: &mut [u32]) -> Received
    requires { Ready desk s.old }
    ensures { (0 ∷ received_values result, list.new, s.new)
        ≡ receiving desk stream.now list.old (book_of s.old) }
{
    let size = list.len();
    let mut at = 0;
    let mut i = 0;
    let mut ticked = 0;
    // By index, since a turn begins where the record before it ends, and its number is its place in the list.
    loop {
        match sfdu_lists::turn_at(stream, at, i, size) {
            Ok(turn) => {
                let e = turn.entry;
                let outcome = visit_record(s, desk, &stream[at..], e.kind, e.number);
                list[i] = outcome_number(outcome);
                ticked = tally(ticked, outcome);
                at = turn.next;
                i += 1;
            }
            Err(walked) => return Received { walked, ticked },
        }
    }
}

// The refusals of a receive: 20, 21, 26.
fn receive_verdict(s: &[u8], desk: u32) -> Result<(), Refusal>
    ensures { verdict_number result ≡ verdict (receive_rules desk s.now) }
{
    if !right::is_sheet(s) {
        return Err(Refusal::NotSheet);
    }
    if desk as usize >= sheet::DESKS {
        return Err(Refusal::NoDesk);
    }
    if !lookup::is_closed(s, desk as usize) {
        return Err(Refusal::DeskOpen);
    }
    Ok(())
}

// Receives a stream at a desk. Each whole record makes a visit, and its outcome is written into the list.
pub fn receive(
    s: &mut [u8],
    desk: u32,
    stream: &[u8],
    list: &mut [u32],
) -> Result<Received, Refusal>
    ensures { (received_words result, list.new, s.new)
        ≡ receive_on desk stream.now list.old s.old }
{
    receive_verdict(s, desk)?;
    Ok(receive_all(s, desk, stream, list))
}
