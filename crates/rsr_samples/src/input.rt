// Reads a record of the stream into a window.
ghost use Rattle.std.specs.Prelude.{◌≡◌, length};
ghost use Rattle.streaming.specs.Window.{window_size};
ghost use Rattle.streaming.specs.Failure.{got_of};
ghost use Rattle.rsr_samples.specs.Parts.{OfOne};
ghost use Rattle.rsr_samples.specs.inner.Reading.{wanted_of};

use octets::numbers;
use sfdu::nesting;
use std::io::Read;
use streaming::{Failure, window};

// The next record, from the window's start: its label first, which says how long it is. None comes at the end of the input.
pub(crate) fn next_record<R: Read>(from: &mut R, w: &mut [u8]) -> Result<usize, Failure>
    requires { length w.old ≡ window_size }
    ensures { OfOne w.new (got_of result) }
{
    let got = streaming::read_up_to(from, w, 0, nesting::LABEL)?;
    if got < nesting::LABEL {
        return Ok(got);
    }
    let want = wanted(w);
    let rest = streaming::read_up_to(from, w, nesting::LABEL, want)?;
    Ok(nesting::LABEL + rest)
}

// The record's length by its label, but at most the window's.
fn wanted(w: &[u8]) -> usize
    requires { length w.now ≡ window_size }
    ensures { result ≡ wanted_of w.now }
{
    let after = numbers::read_be(w, nesting::LENGTH_AT, nesting::LENGTH);
    if (window::WINDOW - nesting::LABEL) as u64 <= after {
        return window::WINDOW;
    }
    nesting::LABEL + after as usize
}
