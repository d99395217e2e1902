// The lines of a listing. Each function writes its text into a lent slice from index `at` on, and gives the index behind it.
ghost use Rattle.std.specs.Prelude.{◌≡◌, ◌+◌, ◌≤◌, length};
ghost use Rattle.refusals.specs.Table.{number_of};
ghost use Rattle.text.specs.Text.{Puts};
ghost use Rattle.idr_list_text.specs.Text.{heading, origin_text, clock, time_text, reduction_text, untagged_text, why, last_line};
ghost use Rattle.idr_list_text.specs.Text.{most_line};
ghost use Rattle.idr_list_text.specs.Run.{of_tapes};
ghost use Rattle.streaming.specs.Run.{begun};
ghost use Rattle.idr_list_text.specs.inner.Lists.{number_told};
ghost use Rattle.idr_list_text.specs.inner.Room.{most_why, most_origin, most_time, most_reduction};

use idr::{Reduction, Time};
use refusals::Refusal;
use streaming::State;

const ZERO: u8 = b'0';

const COLON: u8 = b':';

const POINT: u8 = b'.';

// The state of a listing of which nothing has been read; the first line is laid out.
pub fn begin(out: &mut [u8]) -> State
    requires { length heading ≤ length out.old }
    ensures { (result ≡ begun of_tapes) × Puts out.old out.new 0 result.text heading }
{
    let end = text::put_text(
        out,
        0,
        b"place tape record spacecraft station day time playback sampling decimation\n",
    );
    State {
        place: 0,
        have: 0,
        text: end,
        done: false,
    }
}

// Writes a record's place and source.
pub(crate) fn put_origin(
    out: &mut [u8],
    at: usize,
    place: u64,
    tape: u16,
    number: u16,
    spacecraft: u16,
    station: u16,
) -> usize
    requires { at + most_origin ≤ length out.old }
    ensures puts { Puts out.old out.new at result (origin_text place tape number spacecraft station) }
    ensures upper_bound { result ≤ at + most_origin }
{
    let a = text::put_numeral(out, at, place, text::SPACE);
    let b = text::put_numeral(out, a, tape as u64, text::SPACE);
    let c = text::put_numeral(out, b, number as u64, text::SPACE);
    let d = text::put_numeral(out, c, spacecraft as u64, text::SPACE);
    text::put_numeral(out, d, station as u64, text::SPACE)
}

// Writes when it was recorded.
pub(crate) fn put_time(out: &mut [u8], at: usize, t: Time) -> usize
    requires { at + most_time ≤ length out.old }
    ensures puts { Puts out.old out.new at result (time_text t.day t.hour t.minute t.second t.micros) }
    ensures upper_bound { result ≤ at + most_time }
{
    let a = text::put_numeral(out, at, t.day as u64, text::SPACE);
    let time = clock_of(t);
    text::put_text(out, a, &time)
}

// Writes how it was reduced.
pub(crate) fn put_reduction(out: &mut [u8], at: usize, d: Reduction) -> usize
    requires { at + most_reduction ≤ length out.old }
    ensures puts { Puts out.old out.new at result (reduction_text d.playback d.sampling d.decimation) }
    ensures upper_bound { result ≤ at + most_reduction }
{
    let a = text::put_numeral(out, at, d.playback as u64, text::SPACE);
    let b = text::put_numeral(out, a, d.sampling as u64, text::SPACE);
    text::put_numeral(out, b, d.decimation as u64, text::LINE_END)
}

fn clock_of(t: Time) -> [u8; 16]
    ensures { result ≡ clock t.hour t.minute t.second t.micros }
{
    let hour = t.hour as u32;
    let minute = t.minute as u32;
    let second = t.second as u32;
    let micros = t.micros;
    [
        ZERO + (hour / 10 % 10) as u8,
        ZERO + (hour % 10) as u8,
        COLON,
        ZERO + (minute / 10 % 10) as u8,
        ZERO + (minute % 10) as u8,
        COLON,
        ZERO + (second / 10 % 10) as u8,
        ZERO + (second % 10) as u8,
        POINT,
        ZERO + (micros / 100000 % 10) as u8,
        ZERO + (micros / 10000 % 10) as u8,
        ZERO + (micros / 1000 % 10) as u8,
        ZERO + (micros / 100 % 10) as u8,
        ZERO + (micros / 10 % 10) as u8,
        ZERO + (micros % 10) as u8,
        text::SPACE,
    ]
}

// Writes the rest of a line whose time tag is not valid.
pub(crate) fn put_untagged(out: &mut [u8], at: usize) -> usize
    requires { at + length untagged_text ≤ length out.old }
    ensures { Puts out.old out.new at result untagged_text }
{
    text::put_text(out, at, b"- - - - -\n")
}

// Writes the last line: the stop place, the stop number, and what it means.
pub(crate) fn put_last(out: &mut [u8], at: usize, place: u64, stop: Option<Refusal>) -> usize
    requires { at + most_line ≤ length out.old }
    ensures puts { Puts out.old out.new at result (last_line place (number_told stop)) }
    ensures upper_bound { result ≤ at + most_line }
{
    let a = text::put_numeral(out, at, place, text::SPACE);
    let b = text::put_numeral(out, a, number(stop) as u64, text::SPACE);
    text::put_text(out, b, words(stop))
}

// The stop number; 0 at the tape's end.
// A number, since the last line has it, and `last_line` of specs/Text.antt is of numbers.
fn number(stop: Option<Refusal>) -> u32
    ensures { result ≡ number_told stop }
{
    match stop {
        None => 0,
        Some(refusal) => refusals::number(refusal),
    }
}

// What the stop number means.
fn words(stop: Option<Refusal>) -> &'static [u8]
    ensures value { result.now ≡ why (number_told stop) }
    ensures upper_bound { length result.now ≤ most_why }
{
    match stop {
        None => b"end of tape\n",
        Some(refusal) => meaning(refusal),
    }
}

fn meaning(refusal: Refusal) -> &'static [u8]
    ensures value { result.now ≡ why (number_of refusal) }
    ensures upper_bound { length result.now ≤ most_why }
{
    match refusal {
        Refusal::TapeLengths => b"not a whole record\n",
        Refusal::TapeLengthWord => b"length word not 2528\n",
        Refusal::TapeTime => b"not a time\n",
        Refusal::TapeRate => b"rate not listed\n",
        _ => b"block size zero or positive\n",
    }
}
