// The lines of the calls on records and streams.
ghost use Rattle.std.specs.Prelude.{◌<◌, ◌≤◌};

use crate::{ACCEPTED, FILL, Frame, MOST_SLICE, crc, line};
use answers::{places, records, streams};
use refusals::Refusal;
use sfdu::{Primary, Record};
use sfdu_headers::Headers;
use sfdu_stream::{Cursor, Walked};

// How many numbers an accepted answer has: read one, and read headers of each kind.
const RECORD: usize = 7;

const TELEMETRY: usize = 19;

const RSR: usize = 30;

pub(crate) fn read_one(s: &[u8], out: &mut [u8], at: usize) -> usize {
    match sfdu::read_one(s) {
        Ok(found) => one(out, at, found),
        Err(fault) => line::told(out, at, &answers::wrong(fault), 0),
    }
}

fn one(out: &mut [u8], at: usize, found: Record) -> usize {
    line::told(out, at, &records::record(found), RECORD)
}

pub(crate) fn part(part: &[u8], out: &mut [u8], at: usize) -> usize {
    let end = line::number(out, at, part.len() as u64);
    line::number(out, end, u64::from(crc::crc(part)))
}

// A telemetry record's uplink band can be a none, and an RSR record's Px/No can be negative.
pub(crate) fn read_headers(s: &[u8], wanted: u32, out: &mut [u8], at: usize) -> usize {
    let found = sfdu_headers::read_headers(s, wanted);
    let answer = records::headers(found);
    match found {
        Ok(Headers::Telemetry(_)) => headers(
            out,
            at,
            &answer,
            places::TELEMETRY_UPLINK,
            TELEMETRY,
            line::maybe,
        ),
        Ok(Headers::Rsr(_)) => headers(out, at, &answer, places::RSR_EXPECTED, RSR, line::signed),
        Err(_) => line::told(out, at, &answer, 0),
    }
}

// Writes the first n numbers of an answer. `write` writes the one at index i.
fn headers<F: Fn(&mut [u8], usize, u64) -> usize>(
    out: &mut [u8],
    at: usize,
    answer: &[u64; answers::NUMBERS],
    i: usize,
    n: usize,
    write: F,
) -> usize
    requires { (i < n) × (n ≤ 32) × F.IsAlwaysCallable write }
{
    let begun = line::numbers(out, at, &answer[..i]);
    let written = write(out, begun, answer[i]);
    line::numbers(out, written, &answer[i + 1..n])
}

// The crc covers all bytes that are lent.
pub(crate) fn write_one(f: Frame, a: &[u8], b: &[u8], out: &mut [u8], at: usize) -> usize {
    let z = f.z as usize;
    if MOST_SLICE < z {
        return at;
    }
    let mut room = [FILL; MOST_SLICE];
    let lent = &mut room[..z];
    let answer = sfdu_write::write_one(f.x, primary_of(f.y), a, b, lent);
    let end = written(out, at, answer);
    line::number(out, end, u64::from(crc::crc(lent)))
}

fn written(out: &mut [u8], at: usize, answer: Result<usize, Refusal>) -> usize {
    match answer {
        Ok(n) => line::numbers(out, at, &[ACCEPTED, n as u64]),
        Err(why) => line::refused(out, at, why),
    }
}

// The four bytes of a number, highest first, as primary values.
fn primary_of(y: u32) -> Primary {
    let [major, minor, mission, format] = y.to_be_bytes();
    Primary {
        major,
        minor,
        mission,
        format,
    }
}

// How many records, the stop place, the stop number and its second number; both 0 at the end.
pub(crate) fn walked(walked: Walked, out: &mut [u8], at: usize) -> usize {
    let answer = streams::walked(walked);
    line::numbers(
        out,
        at,
        &answer[places::WALK_COUNT..places::WALK_SECOND + 1],
    )
}

pub(crate) fn step(s: &[u8], place: u64, out: &mut [u8], at: usize) -> usize {
    let cursor = Cursor { at: place as usize };
    let step = cursor.step(s);
    let end = match step.found {
        Ok(Some(found)) => one(out, at, found),
        Ok(None) => line::letters(out, at, b"done"),
        Err(fault) => line::told(out, at, &answers::wrong(fault), 0),
    };
    line::number(out, end, step.next.at as u64)
}
