// The numbers of the answers of read one, write one, walks, lists and steps.
ghost use Rattle.std.specs.Prelude.{◌≡◌, [], ◌∷◌, replicate};
ghost use Rattle.std.proofs.lemmas.List.Edits.{sets};
ghost use Rattle.sfdu.specs.Read as Reading;
ghost use Rattle.sfdu_write.specs.Write as Writing;
ghost use Rattle.sfdu_stream.specs.Walk as Walking;
ghost use Rattle.answers.specs.Numbers.{plain, given};
ghost use Rattle.answers.specs.Streams.{stepped};
ghost use Rattle.answers.specs.inner.Numbers.{Few, Numbers};

use crate::{FEW, NONE, NUMBERS, places, records};
use refusals::Refusal;
use sfdu::{Fault, Record};
use sfdu_stream::{Step, Walked};

pub fn read(found: Result<Record, Fault>) -> [u64; NUMBERS]
    ensures { Numbers result (plain (Reading.words_of found)) }
{
    match found {
        Ok(found) => records::record(found),
        Err(fault) => crate::all(crate::wrong(fault)),
    }
}

pub fn written(answer: Result<usize, Refusal>) -> [u64; FEW]
    ensures { Few result (plain (Writing.words_of answer)) }
{
    match answer {
        Ok(size) => crate::count(size as u64),
        Err(why) => crate::refused(why),
    }
}

// A walk or a list: how many records, the stop place, the stop number and its second number.
pub fn walked(found: Walked) -> [u64; NUMBERS]
    ensures { Numbers result (given (Walking.words_of found)) }
{
    let count = found.count as u64;
    let place = found.place as u64;
    let stop = found.stop;
    match stop {
        Ok(()) => stopped(count, place, 0, 0),
        Err(fault) => {
            let why = fault.refusal;
            stopped(count, place, refusals::number(why) as u64, fault.at as u64)
        }
    }
}

fn stopped(count: u64, place: u64, stop: u64, second: u64) -> [u64; NUMBERS]
    ensures { Numbers result (given (count ∷ place ∷ stop ∷ second ∷ [])) }
{
    let mut numbers = [0u64; NUMBERS];
    numbers[places::WALK_COUNT] = count;
    numbers[places::WALK_PLACE] = place;
    numbers[places::WALK_STOP] = stop;
    numbers[places::WALK_SECOND] = second;
    numbers
}

// A step: the numbers of read one, and the place of the cursor after it.
pub fn step(step: Step) -> [u64; NUMBERS]
    ensures { Numbers result (stepped (Walking.step_words step)) }
{
    let place = step.next.at as u64;
    match step.found {
        Ok(Some(found)) => with_place(records::record(found), place),
        Ok(None) => with_place(no_record(), place),
        Err(fault) => with_place(crate::all(crate::wrong(fault)), place),
    }
}

// The numbers of a step at the stream's end, where there is no record.
fn no_record() -> [u64; NUMBERS]
    ensures { result ≡ sets (replicate 32 0) 1 (replicate 6 18446744073709551615) }
{
    let mut numbers = [0u64; NUMBERS];
    numbers[places::KIND] = NONE;
    numbers[places::SIZE] = NONE;
    numbers[places::MAJOR] = NONE;
    numbers[places::MINOR] = NONE;
    numbers[places::MISSION] = NONE;
    numbers[places::FORMAT] = NONE;
    numbers
}

fn with_place(begun: [u64; NUMBERS], place: u64) -> [u64; NUMBERS]
    ensures { result ≡ sets begun 7 (place ∷ []) }
{
    let mut numbers = begun;
    numbers[places::STEP_NEXT] = place;
    numbers
}
