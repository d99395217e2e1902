// A window onto a stream of records: the longest record that a program takes, and why a stream stops at a record.
ghost use Rattle.std.specs.Prelude.{◌&&◌, ◌≡◌, ◌+◌, ◌<◌, ◌^◌, eqb};
ghost use Rattle.refusals.specs.Table.{number_of};
ghost use Rattle.sfdu.specs.Read.{fault_words, is_count};
ghost use Rattle.streaming.specs.Window.{is_long, stop_of};
ghost use Rattle.streaming.specs.inner.Stops.{told};

use octets::numbers;
use refusals::Refusal;
use sfdu::{Fault, nesting};

// The window's length.
pub const WINDOW: usize = 65536;

// The refusal and the number beside it, 0 where none goes with it.
#[derive(Clone, Copy)]
pub struct Stop {
    pub refusal: Refusal,
    pub beside: u64,
}

// Why a stream stops at the record at the start of `s`, of which the reader found a fault. A record too long for the window is 17, which
// is judged before 6. Of the other refusals those that count bytes keep their count, and an offset is counted from the stream's start.
pub fn stop_in(s: &[u8], place: u64, fault: Fault) -> Stop
    requires { place + fault.at < 2 ^ 64 }
    ensures { told result ≡ stop_of place s.now (fault_words fault) }
{
    let refusal = fault.refusal;
    let at = fault.at;
    if is_over(s, refusal) {
        return Stop {
            refusal: Refusal::BufferSize,
            beside: 0,
        };
    }
    if is_count(refusal) {
        return Stop {
            refusal,
            beside: at as u64,
        };
    }
    Stop {
        refusal,
        beside: place + at as u64,
    }
}

// Whether a refusal gives a count of bytes.
pub fn is_count(refusal: Refusal) -> bool
    ensures { result ≡ is_count (number_of refusal) }
{
    matches!(refusal, Refusal::TooShort | Refusal::Truncated)
}

// Whether a record is cut off and too long for the window, even if it were whole.
fn is_over(s: &[u8], refusal: Refusal) -> bool
    ensures { result ≡ (eqb (number_of refusal) 6 && is_long s.now) }
{
    matches!(refusal, Refusal::Truncated) && is_long(s)
}

// Whether there is a label, and it says more bytes than the window has.
fn is_long(s: &[u8]) -> bool
    ensures { result ≡ is_long s.now }
{
    if s.len() < nesting::LABEL {
        return false;
    }
    let after = numbers::read_be(s, nesting::LENGTH_AT, nesting::LENGTH);
    let most = (WINDOW - nesting::LABEL) as u64;
    most < after
}
