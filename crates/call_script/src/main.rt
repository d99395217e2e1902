// Makes the calls of a script on standard input and writes a line for each.

#![tactic(auto)]

mod calls;
mod frame;
mod receives;
mod seasons;
mod setting;
mod sheets;

use arguments::Asked;
use call_script_text::{Frame, Op, line};
use frame::Broken;
use streaming::Failure;

// The lengths of the buffers of the sheet, the settings and the text.
const MOST_SHEET: usize = 8192;

const MOST_SETTINGS: usize = 1024;

const MOST_TEXT: usize = 65536;

// Text is written once there is more of it than this. Then there is room for the longest line.
const ENOUGH: usize = 32768;

const LINE_END: u8 = b'\n';

// The lengths of the sheet and of the settings. Each is the first bytes of its buffer.
#[derive(Clone, Copy)]
struct Lengths {
    sheet: usize,
    settings: usize,
}

// The state of a run: the lengths, and how much text is not written yet.
#[derive(Clone, Copy)]
struct State {
    kept: Lengths,
    text: usize,
}

// Says that a run ends: the script has ended, has a bad frame or cannot be read, or the text cannot be written.
#[derive(Clone, Copy)]
pub struct Ended;

impl From<Failure> for Ended {
    fn from(_failure: Failure) -> Ended {
        Ended
    }
}

const USAGE: &str = "\
usage: call_script < SCRIPT\n\
Makes the calls of a script, docs/call-script.md, and writes a line for each: 0 and the answer, or the refusal's number.\n";

fn main(rt: HostRuntime) {
    let rt = &rt;
    let count = arguments::count(rt);
    if count < 2 {
        make_calls(rt);
        return;
    }
    let asked = arguments::first_option(rt, count).unwrap_or(Asked::Unknown);
    arguments::tell_usage(rt, asked, USAGE);
}

// Lends the run its buffers. A fixed array, since a program's buffers have a fixed size, on the stack: each buffer has its longest length.
fn make_calls(rt: &HostRuntime) {
    let mut runs = [0u8; frame::MOST_RUNS];
    let mut sheet = [0u8; MOST_SHEET];
    let mut settings = [0u8; MOST_SETTINGS];
    let mut text = [0u8; MOST_TEXT];
    run(rt, &mut runs, &mut sheet, &mut settings, &mut text);
}

fn run(rt: &HostRuntime, runs: &mut [u8], sheet: &mut [u8], settings: &mut [u8], out: &mut [u8]) {
    let mut s = State {
        kept: Lengths {
            sheet: ledger_sheet::SHEET,
            settings: settings::SHEET,
        },
        text: 0,
    };
    let _ = take_frames(rt, runs, sheet, settings, out, &mut s);
    let _ = flush(rt, out, &mut s);
}

// By index, since a loop that is proved must end, and the script need not: the number of a turn is not used.
fn take_frames(
    rt: &HostRuntime,
    runs: &mut [u8],
    sheet: &mut [u8],
    settings: &mut [u8],
    out: &mut [u8],
    s: &mut State,
) -> Result<(), Ended> {
    for _turn in 0..streaming::TURNS {
        turn(rt, runs, sheet, settings, out, s)?;
    }
    Ok(())
}

// One frame: makes its line, and writes the text once there is enough of it.
fn turn(
    rt: &HostRuntime,
    runs: &mut [u8],
    sheet: &mut [u8],
    settings: &mut [u8],
    out: &mut [u8],
    s: &mut State,
) -> Result<(), Ended> {
    let at = s.text;
    let taken = take_frame(rt, runs, sheet, settings, out, s);
    end_line(out, at, s.text);
    if ENOUGH < s.text {
        flush(rt, out, s)?;
    }
    taken
}

// Ends a line: replaces its last space, if it has words, by a line end.
fn end_line(out: &mut [u8], at: usize, end: usize) {
    if end <= at {
        return;
    }
    let last = line::before(end);
    if last < out.len() {
        out[last] = LINE_END;
    }
}

// Reads a frame and makes its call.
fn take_frame(
    rt: &HostRuntime,
    runs: &mut [u8],
    sheet: &mut [u8],
    settings: &mut [u8],
    out: &mut [u8],
    s: &mut State,
) -> Result<(), Ended> {
    match frame::read(&mut rt.stdin(), runs) {
        Ok(Some(f)) => answer(f, runs, sheet, settings, out, s),
        Ok(None) => Err(Ended),
        Err(Broken::Failed(failure)) => {
            failure.tell(rt, b"standard input");
            Err(Ended)
        }
        Err(Broken::Bad) => bad_frame(out, s),
    }
}

fn bad_frame(out: &mut [u8], s: &mut State) -> Result<(), Ended> {
    s.text = line::letters(out, s.text, b"bad frame");
    Err(Ended)
}

fn answer(
    f: Frame,
    runs: &[u8],
    sheet: &mut [u8],
    settings: &mut [u8],
    out: &mut [u8],
    s: &mut State,
) -> Result<(), Ended> {
    let a = call_script_text::first(runs, f.a);
    let b = call_script_text::first(frame::behind(runs, f.a), f.b);
    let end = calls::call(f, a, b, sheet, settings, s.kept, out, s.text);
    if end == s.text {
        return bad_frame(out, s);
    }
    s.kept = kept_after(f, s.kept);
    s.text = end;
    Ok(())
}

// The lengths after a frame.
fn kept_after(f: Frame, kept: Lengths) -> Lengths {
    match f.op {
        Op::NewSheet => Lengths {
            sheet: f.a,
            settings: kept.settings,
        },
        Op::Convert => Lengths {
            sheet: f.z as usize,
            settings: kept.settings,
        },
        Op::NewSettings => Lengths {
            sheet: kept.sheet,
            settings: f.a,
        },
        _ => kept,
    }
}

// Writes the text in the buffer.
fn flush(rt: &HostRuntime, out: &[u8], s: &mut State) -> Result<(), Failure> {
    let n = s.text;
    s.text = 0;
    streaming::write_out(rt, call_script_text::first(out, n))
}
