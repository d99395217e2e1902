// What programs share that read an input piece by piece: they read bytes behind those they hold, make text from them, and write it.

#![tactic(auto)]

pub mod listing;
mod system;
pub mod window;

ghost use Rattle.std.specs.Prelude.{◌≡◌, ◌≤◌, length, Decides, is_err};
ghost use Rattle.io.specs.Counts.{IsPrefixLen};
ghost use Rattle.streaming.specs.State.{emptied};
ghost use Rattle.streaming.specs.inner.Reading.{Behind, got_before};
ghost use Rattle.streaming.specs.inner.Turn.{Writes};
ghost use Rattle.streaming.specs.inner.Writing.{Unread};

use std::io::Read;
use system::try_write;
pub use system::{Failure, read_piece};

// Text is written once there is more of it than this. Then its buffer has room for more.
pub const ENOUGH: usize = 32768;

// A proved loop must end, but an input need not. So a program's loop has 2^47 turns, which no run uses up. A turn reads at most 65,536 bytes, so the
// place in the input stays below 2^63.
pub const TURNS: u64 = 140737488355328;

// Where a listing stands: the place in its input of the first byte that is held, how many bytes are held, how many bytes of text are laid
// out, and whether the last line is among them.
// A flag, since the place and the counts beside it hold before the last line and after it.
#[derive(Clone, Copy)]
pub struct State {
    pub place: u64,
    pub have: usize,
    pub text: usize,
    pub done: bool,
}

// Why a program ends early: nobody reads its output any more.
#[derive(Clone, Copy)]
pub struct NobodyReads;

// A program goes on after what it wrote, unless nobody reads it any more.
pub fn unless_unread(written: Result<(), Failure>) -> Result<(), NobodyReads>
    ensures { Decides (is_err result) (Unread written) }
{
    match written {
        Err(failure) if failure.lacks_reader() => Err(NobodyReads),
        _ => Ok(()),
    }
}

// A read that failed, and how many bytes came before.
#[derive(Clone, Copy)]
pub struct FailedRead {
    pub got: usize,
    pub failure: Failure,
}

impl From<FailedRead> for Failure {
    ghost from_gives = { λ failed failure. failure ≡ failed.failure };

    fn from(failed: FailedRead) -> Failure {
        failed.failure
    }
}

// Reads from index `have` on until there are `want` bytes, the input ends, or a read fails.
pub fn read_up_to<R: Read>(
    from: &mut R,
    w: &mut [u8],
    have: usize,
    want: usize,
) -> Result<usize, FailedRead>
    requires { (have ≤ want) × (want ≤ length w.old) }
    ensures { Behind w.old have want w.new (got_before result) }
{
    let mut at = have;
    // By index, since each turn goes on by as many bytes as its read gives.
    while at < want {
        let got = match read_piece(from, w, at, want) {
            Ok(got) => got,
            Err(failure) => {
                return Err(FailedRead {
                    got: at - have,
                    failure,
                });
            }
        };
        if got == 0 {
            return Ok(at - have);
        }
        at += got;
    }
    Ok(at - have)
}

// The same for a whole slice.
pub fn read_full<R: Read>(from: &mut R, w: &mut [u8]) -> Result<usize, FailedRead>
    ensures { IsPrefixLen (got_before result) w.new }
{
    let n = w.len();
    read_up_to(from, w, 0, n)
}

// Writes a line with a file's name on standard output. Where it cannot, the text that follows says so.
pub fn write_name(rt: &HostRuntime, name: &[u8]) -> Result<(), Failure> {
    let _ = try_write(rt, name);
    try_write(rt, b"\n")
}

// Writes bytes on standard output. If it cannot, says why on standard error, unless nobody reads any more.
pub fn write_out(rt: &HostRuntime, bytes: &[u8]) -> Result<(), Failure> {
    let written = try_write(rt, bytes);
    if let Err(failure) = written {
        if !failure.lacks_reader() {
            failure.tell(rt, b"standard output");
        }
    }
    written
}

// Writes the text in the buffer.
pub fn write_text(rt: &HostRuntime, out: &[u8], s: &mut State) -> Result<(), Failure>
    requires { s.old.text ≤ length out.now }
    ensures { s.new ≡ emptied s.old }
{
    let n = s.text;
    s.text = 0;
    write_out(rt, &out[..n])
}

// The same, if there is enough text.
pub fn write_enough(rt: &HostRuntime, out: &[u8], s: &mut State) -> Result<(), Failure>
    requires { s.old.text ≤ length out.now }
    ensures { Writes s.old s.new result }
{
    if s.text <= ENOUGH {
        return Ok(());
    }
    write_text(rt, out, s)
}
