// Decides about a record: its samples, or why the stream stops at it. It makes no system call.
ghost use Rattle.std.specs.Prelude.{◌≡◌, ◌+◌, ◌^◌, ◌<◌, ◌≤◌, length};
ghost use Rattle.streaming.specs.Window.{window_size};
ghost use Rattle.rsr_samples.specs.Judging.{judging};
ghost use Rattle.rsr_samples.specs.inner.Outcomes.{unpacked_as};

use sfdu::RecordRefusal;
use streaming::window;
use streaming::window::Stop;

// Decides about the bytes that were read of the record at a place of the stream: how many numbers are at the list's start, or why the stream stops.
pub(crate) fn judge(s: &[u8], place: u64, list: &mut [i32]) -> Result<usize, Stop>
    requires { (length s.now ≤ window_size) × (place + window_size < 2 ^ 64) }
    ensures { (unpacked_as result, list.new) ≡ judging place s.now list.old }
{
    match sfdu_samples::unpack(s, list) {
        Ok(n) => Ok(n),
        Err(RecordRefusal::Fault(fault)) => Err(window::stop_in(s, place, fault)),
        Err(RecordRefusal::Alone(refusal)) => Err(Stop { refusal, beside: 0 }),
    }
}
