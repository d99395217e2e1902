// The numbers of the part calls: the offset and length of a record's part in the lent slice.
ghost use Rattle.std.specs.Prelude.{◌≡◌, cond, [], ◌∷◌, ◌-◌, eqb};
ghost use Rattle.sfdu.specs.Nesting.{data_value_at};
ghost use Rattle.idr.specs.Words.{samples_at};
ghost use Rattle.answers.specs.Numbers.{given};
ghost use Rattle.answers.specs.inner.Numbers.{Few};
ghost use Rattle.answers.specs.inner.Parts.{secondary_place, data_place, samples_place};

use crate::{FEW, places};
use sfdu::{Fault, Kind, Record, nesting};

fn placed(start: u64, size: u64) -> [u64; FEW]
    ensures { Few result (given (start ∷ size ∷ [])) }
{
    let mut numbers = [0u64; FEW];
    numbers[places::PART_OFFSET] = start;
    numbers[places::PART_LENGTH] = size;
    numbers
}

pub fn secondary(found: Result<Record, Fault>) -> [u64; FEW]
    ensures { Few result (given (secondary_place found)) }
{
    match found {
        Ok(found) => placed(
            nesting::SECONDARY_VALUE_AT as u64,
            nesting::secondary_length(found.kind) as u64,
        ),
        Err(_) => placed(0, 0),
    }
}

pub fn data(found: Result<Record, Fault>) -> [u64; FEW]
    ensures { Few result (given (data_place found)) }
{
    match found {
        Ok(found) => placed(
            nesting::data_value_at(found.kind) as u64,
            data_length(found.kind, found.size) as u64,
        ),
        Err(_) => placed(0, 0),
    }
}

fn data_length(kind: Kind, size: usize) -> usize
    ensures { result ≡ size - data_value_at kind }
{
    let at = nesting::data_value_at(kind);
    if size < at {
        return 0;
    }
    size - at
}

// The offset of a medium band record's samples, and their length.
pub fn samples(size: usize) -> [u64; FEW]
    ensures { Few result (given (samples_place size)) }
{
    placed(samples_start(size), size as u64)
}

fn samples_start(size: usize) -> u64
    ensures { result ≡ cond (eqb size 0) 0 samples_at }
{
    if size == 0 {
        return 0;
    }
    idr::SAMPLES_AT as u64
}
