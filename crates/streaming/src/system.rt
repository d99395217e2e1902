// What a reader or the system answers to a read or a write.
ghost use Rattle.std.specs.Prelude.{◌≤◌, length, Decides};
ghost use Rattle.streaming.specs.Failure.{got_of};
ghost use Rattle.streaming.specs.inner.Reading.{Behind};
ghost use Rattle.streaming.specs.inner.Writing.{LacksReader};

use std::io;
use std::io::Read;

// Why a read or a write failed. Its field is private to this file, so only `read_piece` and `try_write` make one, from what a reader or
// the system answered.
#[derive(Clone, Copy)]
pub struct Failure {
    error: io::Error,
}

impl Failure {
    // Whether a write failed because the reader is gone, as when `head` has its lines.
    pub fn lacks_reader(self) -> bool
        ensures { Decides result (LacksReader self) }
    {
        matches!(self.error.kind(), io::ErrorKind::BrokenPipe)
    }

    // Says on standard error why a read or a write of what is named failed.
    pub fn tell(self, rt: &HostRuntime, what: &[u8]) {
        failures::tell(rt, what, self.error);
    }
}

// Reads into `w` from index `have` on, up to `want`. If there is room for a byte, 0 bytes mean the end of the input.
pub fn read_piece<R: Read>(
    from: &mut R,
    w: &mut [u8],
    have: usize,
    want: usize,
) -> Result<usize, Failure>
    requires { (have ≤ want) × (want ≤ length w.old) }
    ensures { Behind w.old have want w.new (got_of result) }
{
    let part = &mut w[have..want];
    match from.read(part) {
        Ok(got) => Ok(got),
        Err(error) => Err(Failure { error }),
    }
}

// Writes bytes on standard output.
pub(crate) fn try_write(rt: &HostRuntime, bytes: &[u8]) -> Result<(), Failure> {
    match rt.stdout().write_all(bytes) {
        Ok(()) => Ok(()),
        Err(error) => Err(Failure { error }),
    }
}
