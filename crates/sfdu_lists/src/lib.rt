// Lists of a stream's records, in two layouts: four lists of numbers, or a table of entries.

#![tactic(auto)]

ghost use Rattle.std.specs.Prelude.{◌≡◌, ℕ, map, min as least};
ghost use Rattle.sfdu_stream.specs.Walk.{words_of};
ghost use Rattle.sfdu_stream.specs.Listing.{entry_at, list_numbers, list_entries};
ghost use Rattle.sfdu_stream.specs.inner.Record.{RecordAt};
ghost use Rattle.sfdu_lists.specs.inner.Turn.{TurnAt};

use refusals::Refusal;
use sfdu::{Fault, Kind};
use sfdu_stream as stream;
use std::cmp::min;

// One turn of a list's loop: the entry of the next record, and the place behind it. (Public because the prover needs it.)
#[derive(Clone, Copy)]
pub struct Turn {
    pub entry: stream::Entry,
    pub next: usize,
}

// Why a list stops at a whole record: no entry is free.
const LIST_FULL: Fault = Fault {
    refusal: Refusal::ListFull,
    at: 0,
};

// The entry of the record at a place.
fn entry_at(s: &[u8], at: usize, kind: Kind, size: usize) -> stream::Entry
    requires { RecordAt s.now at kind size }
    ensures { result ≡ entry_at s.now at }
{
    stream::Entry {
        place: at as u64,
        length: size as u64,
        kind: u32::from(kind),
        number: sfdu_headers::record_number(&s[at..], kind),
    }
}

// The turn at a place of a list of `size` entries, of which `count` are filled; or, where the list stops, its answer.
pub fn turn_at(s: &[u8], at: usize, count: usize, size: usize) -> Result<Turn, stream::Walked>
    ensures { TurnAt s.now at count size result }
{
    let step = stream::Cursor { at }.step(s);
    match step.found {
        Ok(Some(found)) => {
            if size <= count {
                return Err(stopped(count, at, Err(LIST_FULL)));
            }
            Ok(Turn {
                entry: entry_at(s, at, found.kind, found.size),
                next: step.next.at,
            })
        }
        Ok(None) => Err(stopped(count, at, Ok(()))),
        Err(fault) => Err(stopped(count, at, Err(stream::in_stream(s, at, fault)))),
    }
}

fn stopped(count: usize, place: usize, stop: Result<(), Fault>) -> stream::Walked
    ensures { result ≡ record { count = count; place = place; stop = stop } }
{
    stream::Walked { count, place, stop }
}

// A number of the lists of kinds and of record numbers: of 32 bits, or of 64 as a C program lends them. By hand, since `From<u32>` does not say which
// value a number in a list has, and the contract of `fill` speaks of it.
trait Number: Copy {
    ghost value: { Self → ℕ };

    fn of(n: u32) -> Self
        ensures { value result ≡ n };
}

impl Number for u32 {
    ghost value = { λ n. n };

    fn of(n: u32) -> u32 {
        n
    }
}

impl Number for u64 {
    ghost value = { λ n. n };

    fn of(n: u32) -> u64 {
        u64::from(n)
    }
}

// The least of the four lists' lengths.
fn shortest(places: usize, lengths: usize, kinds: usize, numbers: usize) -> usize
    ensures { result ≡ least (least places lengths) (least kinds numbers) }
{
    min(min(places, lengths), min(kinds, numbers))
}

// Fills four lists of numbers from a stream, one number in each for each record. The shortest list limits how many. Numbers behind the last record
// are unchanged. By index, since the index is also how many records are listed, which a turn and the answer need, and it is the place in four lists.
fn fill<N: Number>(
    s: &[u8],
    places: &mut [u64],
    lengths: &mut [u64],
    kinds: &mut [N],
    numbers: &mut [N],
) -> stream::Walked
    ensures { (
      words_of result,
      record { places = places.exit.now; lengths = lengths.new; kinds = map N.value kinds.new; numbers = map N.value numbers.new },
    )
        ≡ list_numbers s.now
        (record { places = places.entry.now; lengths = lengths.old; kinds = map N.value kinds.old; numbers = map N.value numbers.old }) }
{
    let size = shortest(places.len(), lengths.len(), kinds.len(), numbers.len());
    let mut at = 0;
    let mut i = 0;
    loop {
        match turn_at(s, at, i, size) {
            Ok(turn) => {
                let e = turn.entry;
                places[i] = e.place;
                lengths[i] = e.length;
                kinds[i] = N::of(e.kind);
                numbers[i] = N::of(e.number);
                at = turn.next;
                i += 1;
            }
            Err(walked) => return walked,
        }
    }
}

// Fills four lists of numbers, as `fill` does. Twice, since this contract and the next speak of the lists as they are lent, and `fill` of the values in
// them.
pub fn list_numbers(
    s: &[u8],
    places: &mut [u64],
    lengths: &mut [u64],
    kinds: &mut [u32],
    numbers: &mut [u32],
) -> stream::Walked
    ensures { (
      words_of result,
      record { places = places.exit.now; lengths = lengths.new; kinds = kinds.new; numbers = numbers.new },
    )
        ≡ list_numbers s.now
        (record { places = places.entry.now; lengths = lengths.old; kinds = kinds.old; numbers = numbers.old }) }
{
    fill(s, places, lengths, kinds, numbers)
}

// The same with four lists of 64-bit numbers, as a C program lends them.
pub fn list_wide_numbers(
    s: &[u8],
    places: &mut [u64],
    lengths: &mut [u64],
    kinds: &mut [u64],
    numbers: &mut [u64],
) -> stream::Walked
    ensures { (
      words_of result,
      record { places = places.exit.now; lengths = lengths.new; kinds = kinds.new; numbers = numbers.new },
    )
        ≡ list_numbers s.now
        (record { places = places.entry.now; lengths = lengths.old; kinds = kinds.old; numbers = numbers.old }) }
{
    fill(s, places, lengths, kinds, numbers)
}

// Fills a table of entries from a stream, one entry for each record. Entries behind the last record are unchanged. By index, since the index is also how
// many records are listed, which a turn and the answer need.
pub fn list_entries(s: &[u8], table: &mut [stream::Entry]) -> stream::Walked
    ensures { (words_of result, table.new) ≡ list_entries s.now table.old }
{
    let size = table.len();
    let mut at = 0;
    let mut i = 0;
    loop {
        match turn_at(s, at, i, size) {
            Ok(turn) => {
                table[i] = turn.entry;
                at = turn.next;
                i += 1;
            }
            Err(walked) => return walked,
        }
    }
}
