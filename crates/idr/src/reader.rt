// The reader's calls on a record.
ghost use Rattle.std.specs.Prelude.{[], ◌∷◌, ◌≡◌, ◌+◌};
ghost use Rattle.idr.specs.Rules.{outcome_number};
ghost use Rattle.idr.specs.Read.{words_of, read_record, samples_start, samples_part, read_words};
ghost use Rattle.idr.specs.inner.Accepted.{IsHeader};

use crate as idr;
use crate::{Tagged, fields, rules, words};
use refusals::Refusal;

// Reads the fields of a record: none if its time tag is not valid.
pub fn read_record(s: &[u8]) -> Result<Option<Tagged>, Refusal>
    ensures { words_of result ≡ read_record s.now }
{
    let w = accepted_words(s)?;
    Ok(fields::given(&w))
}

// The header words of a record, if it is accepted.
fn accepted_words(s: &[u8]) -> Result<[u16; idr::HEADER], Refusal>
    ensures { IsHeader s.now result }
{
    if s.len() != idr::RECORD {
        return Err(Refusal::TapeLengths);
    }
    let w = words::header(s);
    rules::judge_words(&w)?;
    Ok(w)
}

// The samples: that part of the record itself. If the record is refused, the empty part at its start.
pub fn samples(s: &[u8]) -> &[u8]
    ensures { (result.now ≡ samples_part s.now) × (result.ref_ptr.0 ≡ s.entry.ref_ptr.0)
        × (result.ref_ptr.1 ≡ s.entry.ref_ptr.1 + samples_start s.now) }
{
    let accepted = accepted_words(s);
    match accepted {
        Ok(_) => &s[idr::SAMPLES_AT..idr::RECORD],
        Err(_) => &s[0..0],
    }
}

// Copies the header words of a record into a lent list of 28. A refusal leaves the list unchanged.
pub fn read_words(s: &[u8], list: &mut [u16]) -> Result<(), Refusal>
    ensures { (outcome_number result ∷ [], list.new) ≡ read_words s.now list.old }
{
    if list.len() != idr::HEADER {
        return Err(Refusal::TapeLengths);
    }
    let w = accepted_words(s)?;
    list.copy_from_slice(&w);
    Ok(())
}
