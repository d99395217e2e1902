// Writes the samples of streams of RSR records: those of the files that its arguments name, one after the other, or of standard input if there are
// none. One pair, I and Q, on each line; with --raw as 32-bit little-endian integers.

#![tactic(auto)]

mod input;
mod judging;
mod output;

ghost use Rattle.std.specs.Prelude.{◌≡◌, ◌≤◌, length};
ghost use Rattle.rsr_samples_text.specs.inner.Room.{most_number};
ghost use Rattle.streaming.specs.Window.{window_size};
ghost use Rattle.rsr_samples.specs.Judging.{most_numbers};
ghost use Rattle.rsr_samples.specs.inner.Outcomes.{step_as};
ghost use Rattle.rsr_samples.specs.Parts.{Takes};
ghost use Rattle.rsr_samples.specs.inner.Written.{Ready, Writes};

use std::io::Read;
use streaming::window::Stop;
use streaming::{Failure, NobodyReads, window};

// The length of the text's buffer.
const TEXT: usize = 65536;

// The program's own option.
const RAW: &[u8] = b"--raw";

// The most numbers of a record: 32 for each word of its data, of which there are fewer than 2^14. So no record stops the stream with 35.
const NUMBERS: usize = 524288;

const USAGE: &str = "\
usage: rsr_samples [--raw] [FILE ..]\n\
Writes the samples of streams of RSR records, I and Q of each pair a line, in time order;\n\
with --raw as 32-bit little-endian integers. With no FILE it reads standard input.\n";

// Why a stream ends before its input does. (Public because the prover needs it.)
// Its own enum, since a stop, a failed read and a failed write are told in three ways.
#[derive(Clone, Copy)]
pub enum End {
    Stopped(Stop),
    // A read or a write failed.
    Unread(Failure),
    Unwritten(Failure),
}

// Writes the samples of the record that was read into the window. Gives the place behind it; none if the input has ended.
fn take_record(
    rt: &HostRuntime,
    read: Result<usize, Failure>,
    place: u64,
    raw: bool,
    w: &[u8],
    list: &mut [i32],
    out: &mut [u8],
) -> Result<Option<u64>, End>
    requires { Ready place read w.now list.old out.old }
    ensures { Takes raw place read w.now list.old out.new (step_as result) }
{
    let have = match read {
        Ok(have) => have,
        Err(failure) => return Err(End::Unread(failure)),
    };
    if have == 0 {
        return Ok(None);
    }
    match judging::judge(&w[..have], place, list) {
        Ok(n) => written(rt, list, n, raw, place + have as u64, out),
        Err(stop) => Err(End::Stopped(stop)),
    }
}

// Writes the list's first n numbers. Gives the next place. That `out` has room for a number is said in each, since the caller lends it at any length.
fn written(
    rt: &HostRuntime,
    list: &[i32],
    n: usize,
    raw: bool,
    next: u64,
    out: &mut [u8],
) -> Result<Option<u64>, End>
    requires { (n ≤ length list.now) × (most_number ≤ length out.old) }
    ensures { Writes raw list.now n next out.new (step_as result) }
{
    match output::write_parts(rt, &list[..n], raw, out) {
        Ok(()) => Ok(Some(next)),
        Err(failure) => Err(End::Unwritten(failure)),
    }
}

// Writes the samples of a stream.
fn write_stream<R: Read>(
    rt: &HostRuntime,
    from: &mut R,
    name: &[u8],
    raw: bool,
    w: &mut [u8],
    list: &mut [i32],
    out: &mut [u8],
) -> Result<(), NobodyReads>
    requires { (length w.old ≡ window_size) × (length list.old ≡ most_numbers) × (most_number ≤ length out.old) }
{
    let mut place: u64 = 0;
    // By index, since a proved loop must end: it counts turns, and no turn reads the count.
    for _turn in 0..streaming::TURNS {
        let read = input::next_record(from, w);
        match take_record(rt, read, place, raw, w, list, out) {
            Ok(Some(next)) => place = next,
            Ok(None) => return Ok(()),
            Err(end) => return tell_end(rt, name, place, end),
        }
    }
    Ok(())
}

// Says why a stream ends early.
fn tell_end(rt: &HostRuntime, name: &[u8], place: u64, end: End) -> Result<(), NobodyReads> {
    match end {
        End::Stopped(stop) => tell_stop(rt, name, place, stop),
        End::Unread(failure) => failure.tell(rt, name),
        // `write_out` has told why a write failed.
        End::Unwritten(failure) => return streaming::unless_unread(Err(failure)),
    }
    Ok(())
}

fn tell_stop(rt: &HostRuntime, name: &[u8], place: u64, stop: Stop) {
    let number = refusals::number(stop.refusal);
    let beside = stop.beside;
    failures::say(rt, name);
    let _ = eprint!(rt; ": stopped at byte {place}: {number} {beside} ");
    failures::say(rt, refusal_words::text(number));
    failures::say(rt, b"\n");
}

// The same, with buffers of its own. They are fixed arrays, since a program's buffers have a fixed size, on the stack.
fn stream<R: Read>(
    rt: &HostRuntime,
    from: &mut R,
    name: &[u8],
    raw: bool,
) -> Result<(), NobodyReads> {
    let mut window = [0u8; window::WINDOW];
    let mut numbers = [0i32; NUMBERS];
    let mut text = [0u8; TEXT];
    write_stream(rt, from, name, raw, &mut window, &mut numbers, &mut text)
}

// Writes the samples of the file that argument i names. A fixed array, since a program's buffers have a fixed size, on the stack.
fn file(rt: &HostRuntime, i: usize, raw: bool) -> Result<(), NobodyReads> {
    let mut path = [0u8; arguments::LONGEST];
    let Ok(mut opened) = arguments::open_at(rt, i, &mut path) else {
        return Ok(());
    };
    stream(rt, &mut opened.file, &path[..opened.size], raw)
}

// By index, since the system gives an argument by its index alone, and `?` leaves the loop where nobody reads.
fn files(rt: &HostRuntime, count: usize, raw: bool) -> Result<(), NobodyReads> {
    for i in 1..count {
        if !arguments::is_at(rt, i, RAW) {
            file(rt, i, raw)?;
        }
    }
    Ok(())
}

// Every argument except --raw names a file.
fn samples(rt: &HostRuntime, count: usize) -> Result<(), NobodyReads> {
    let raws = arguments::how_many(rt, count, RAW);
    let raw = 0 < raws;
    let named = count.wrapping_sub(raws);
    if named < 2 {
        return stream(rt, &mut rt.stdin(), b"standard input", raw);
    }
    files(rt, count, raw)
}

fn main(rt: HostRuntime) {
    let rt = &rt;
    let count = arguments::count(rt);
    if let Some(asked) = arguments::first_option_but(rt, count, RAW) {
        arguments::tell_usage(rt, asked, USAGE);
        return;
    }
    // Where nobody reads the samples any more, the program ends without a word.
    let _ = samples(rt, count);
}
