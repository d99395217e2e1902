// Reads a frame of the script on standard input.
use call_script_text::{Frame, Op};
use octets::numbers;
use std::io::Stdin;
use streaming::{FailedRead, Failure};

const HEADER: usize = 40;

const NUMBER: usize = 4;

const OP_AT: usize = 0;

const X_AT: usize = OP_AT + NUMBER;

const Y_AT: usize = X_AT + NUMBER;

const Z_AT: usize = Y_AT + NUMBER;

const W_AT: usize = Z_AT + NUMBER;

const KEY_AT: usize = 24;

const KEY: usize = 8;

const LENGTH_A_AT: usize = KEY_AT + KEY;

const LENGTH_B_AT: usize = LENGTH_A_AT + NUMBER;

// How many bytes the two runs behind the header have at most.
const MOST_A: usize = 131072;

const MOST_B: usize = 66000;

pub const MOST_RUNS: usize = MOST_A + MOST_B;

// Why no frame can be read: the read failed, or the frame is a bad one. Its own enum, since a bad frame is no failure of a read, and a None in its
// place would not name it.
#[derive(Clone, Copy)]
pub enum Broken {
    Failed(Failure),
    Bad,
}

impl From<FailedRead> for Broken {
    fn from(failed: FailedRead) -> Broken {
        Broken::Failed(failed.failure)
    }
}

// Reads a frame, and its two runs to the start of `runs`, one after the other. None at the end of the script.
// A fixed array, since a program's buffers have a fixed size, on the stack, and each header has this length.
pub(crate) fn read(from: &mut Stdin, runs: &mut [u8]) -> Result<Option<Frame>, Broken> {
    let mut header = [0u8; HEADER];
    let got = streaming::read_full(from, &mut header)?;
    if got == 0 {
        return Ok(None);
    }
    if got < HEADER {
        return Err(Broken::Bad);
    }
    let a = numbers::read_u32(&header, LENGTH_A_AT) as usize;
    let b = numbers::read_u32(&header, LENGTH_B_AT) as usize;
    read_runs(from, runs, a, b)?;
    let Ok(op) = Op::try_from(numbers::read_u32(&header, OP_AT)) else {
        return Err(Broken::Bad);
    };
    Ok(Some(Frame {
        op,
        x: numbers::read_u32(&header, X_AT),
        y: numbers::read_u32(&header, Y_AT),
        z: numbers::read_u32(&header, Z_AT),
        w: numbers::read_u32(&header, W_AT),
        key: numbers::read_u64(&header, KEY_AT),
        a,
        b,
    }))
}

// Reads the runs, if they are not too long, have room, and are whole.
fn read_runs(from: &mut Stdin, runs: &mut [u8], a: usize, b: usize) -> Result<(), Broken> {
    if MOST_A < a || MOST_B < b || runs.len() < a + b {
        return Err(Broken::Bad);
    }
    let n = a + b;
    if streaming::read_full(from, &mut runs[..n])? < n {
        return Err(Broken::Bad);
    }
    Ok(())
}

// The bytes behind the first n of s; all of s if it has fewer.
pub(crate) fn behind(s: &[u8], n: usize) -> &[u8] {
    s.get(n..).unwrap_or(s)
}
