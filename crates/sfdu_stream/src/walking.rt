// The cursor's step, and the walk over a whole stream.
ghost use Rattle.std.specs.Prelude.{false, ◌≡◌, ◌+◌, ◌≤◌, length};
ghost use Rattle.refusals.specs.Table.{number_of};
ghost use Rattle.sfdu.specs.Read.{fault_words, is_count, in_stream};
ghost use Rattle.sfdu_stream.specs.Walk.{step_words, stop_words, words_of, whole, step};
ghost use Rattle.sfdu_stream.specs.inner.Refusal.{refusal};
ghost use Rattle.sfdu_stream.specs.Listing.{walked};

use crate::{Cursor, Step, Walked};
use refusals::Refusal;
use sfdu::{Fault, Record};

impl Cursor {
    // Reads the record at the cursor, and gives back the cursor behind it. At the stream's end there is none.
    pub fn step(self, s: &[u8]) -> Step
        ensures { step_words result ≡ step s.now self.at }
    {
        let at = self.at;
        if s.len() <= at {
            return self.stays(Ok(None));
        }
        match sfdu::read_one(&s[at..]) {
            Ok(found) => Step {
                found: Ok(Some(found)),
                next: Cursor {
                    at: at + found.size,
                },
            },
            Err(fault) => self.stays(Err(fault)),
        }
    }

    fn stays(self, found: Result<Option<Record>, Fault>) -> Step
        ensures { result ≡ record { found = found; next = self } }
    {
        Step { found, next: self }
    }
}

// Counts the whole records from the stream's start to its end, or to the first record that read one refuses. By index, since each record's length
// tells where the next one begins.
pub fn walk(s: &[u8]) -> Walked
    ensures { words_of result ≡ walked s.now }
{
    let mut at = 0;
    let mut count = 0;
    while let Some(size) = sfdu::whole_size(&s[at..]) {
        at += size;
        count += 1;
    }
    Walked {
        count,
        place: at,
        stop: stop_at(s, at),
    }
}

// Why a walk stops at a place where there is no whole record.
fn stop_at(s: &[u8], at: usize) -> Result<(), Fault>
    requires { whole s.now at ≡ false }
    ensures { stop_words result ≡ refusal s.now at }
{
    let step = Cursor { at }.step(s);
    match step.found {
        // The stream's end, since no whole record is here.
        Ok(_) => Ok(()),
        Err(fault) => Err(in_stream(s, at, fault)),
    }
}

// The refusal of the record at a place, with its offset counted from the stream's start. A count of bytes does not change.
pub fn in_stream(s: &[u8], place: usize, fault: Fault) -> Fault
    requires { place + fault.at ≤ length s.now }
    ensures { fault_words result ≡ in_stream place (fault_words fault) }
{
    let refusal = fault.refusal;
    let at = fault.at;
    if is_count(refusal) {
        return Fault { refusal, at };
    }
    Fault {
        refusal,
        at: place + at,
    }
}

// Whether a refusal's second number is a count of bytes.
fn is_count(refusal: Refusal) -> bool
    ensures { result ≡ is_count (number_of refusal) }
{
    matches!(refusal, Refusal::TooShort | Refusal::Truncated)
}
