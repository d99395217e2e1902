// Calls that scripts do not have, exported with answers in numbers: the walk, the number lists, the table of entries, how long lists must be, and the
// table of new years. `reference/table` compares them with the reference.

#![tactic(auto)]

ghost use Rattle.std.specs.Prelude.{◌≡◌};
ghost use Rattle.sfdu_stream.specs.Walk.{words_of};
ghost use Rattle.sfdu_stream.specs.Listing.{walked, list_numbers, list_entries};
ghost use Rattle.sfdu_stream.specs.Room.{most_records};
ghost use Rattle.sfdu.specs.declared.Kind.TheVariants.{Telemetry, Rsr};
ghost use Rattle.sfdu_exported.specs.Numbers.{numbers_of};
ghost use Rattle.sfdu_exported.specs.Tables.{new_year_at};

use sfdu::Kind;
use sfdu_stream::{Entry, Walked};

// How many entries the table of new years has.
const YEARS: usize = 1101;

// How many records, the stop place, the stop number and its second number.
#[repr(C)]
#[derive(Clone, Copy)]
pub struct Answer {
    pub count: usize,
    pub place: usize,
    pub number: u32,
    pub detail: usize,
}

fn in_numbers(w: Walked) -> Answer
    ensures { numbers_of result ≡ words_of w }
{
    let stop = w.stop;
    match stop {
        Ok(()) => told(w.count, w.place, 0, 0),
        Err(fault) => {
            let refusal = fault.refusal;
            told(w.count, w.place, refusals::number(refusal), fault.at)
        }
    }
}

fn told(count: usize, place: usize, number: u32, detail: usize) -> Answer
    ensures { result ≡ record { count = count; place = place; number = number; detail = detail } }
{
    Answer {
        count,
        place,
        number,
        detail,
    }
}

#[unsafe(no_mangle)]
pub extern "C" fn rt_walk(s: &[u8]) -> Answer
    ensures { numbers_of result ≡ walked s.now }
{
    in_numbers(sfdu_stream::walk(s))
}

#[unsafe(no_mangle)]
pub extern "C" fn rt_list_numbers(
    s: &[u8],
    places: &mut [u64],
    lengths: &mut [u64],
    kinds: &mut [u32],
    numbers: &mut [u32],
) -> Answer
    ensures { (
      numbers_of result,
      record { places = places.new; lengths = lengths.new; kinds = kinds.new; numbers = numbers.new },
    )
        ≡ list_numbers s.now
        (record { places = places.old; lengths = lengths.old; kinds = kinds.old; numbers = numbers.old }) }
{
    in_numbers(sfdu_lists::list_numbers(s, places, lengths, kinds, numbers))
}

#[unsafe(no_mangle)]
pub extern "C" fn rt_list_entries(s: &[u8], table: &mut [Entry]) -> Answer
    ensures { (numbers_of result, table.new) ≡ list_entries s.now table.old }
{
    in_numbers(sfdu_lists::list_entries(s, table))
}

#[unsafe(no_mangle)]
pub extern "C" fn rt_most_records(bytes: usize) -> usize
    ensures { result ≡ most_records Telemetry bytes }
{
    sfdu_stream::most_records(Kind::Telemetry, bytes)
}

#[unsafe(no_mangle)]
pub extern "C" fn rt_most_rsr_records(bytes: usize) -> usize
    ensures { result ≡ most_records Rsr bytes }
{
    sfdu_stream::most_records(Kind::Rsr, bytes)
}

// Entry i of the table of new years; 0 past its end.
#[unsafe(no_mangle)]
pub extern "C" fn rt_new_year(i: usize) -> u32
    ensures { result ≡ new_year_at i }
{
    let table = dates::new_years();
    if YEARS <= i {
        return 0;
    }
    table[i]
}
