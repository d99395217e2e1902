// The lines of the calls on medium band records.
ghost use Rattle.std.specs.Prelude.{◌≤◌};

use crate::{ACCEPTED, FILL, Frame, crc, line};
use answers::{places, tapes};

// How many header words a frame has room for; and how many bytes the writer is lent at most.
const MOST_HEADER: usize = 65536;

const MOST_SLICE: usize = 8192;

// Writes the words, the fields if there are any, and the crc of the samples. A fixed array, since there is no heap here, and each header has this length.
pub(crate) fn read(s: &[u8], out: &mut [u8], at: usize) -> usize {
    let mut words = [0u16; idr::HEADER];
    match idr::read_words(s, &mut words) {
        Ok(()) => {
            let begun = line::number(out, at, ACCEPTED);
            let listed = line::numbers(out, begun, &words);
            let end = fields(out, listed, s);
            line::number(out, end, u64::from(crc::crc(idr::samples(s))))
        }
        Err(why) => line::refused(out, at, why),
    }
}

// Without a valid time tag each field is a none, and the line has no fields.
fn fields(out: &mut [u8], at: usize, s: &[u8]) -> usize {
    let origin = tapes::origin(idr::read_record(s));
    if origin[places::TAPE_FIRST] == answers::NONE {
        return at;
    }
    let begun = tagged(out, at, origin);
    reduced(out, begun, s)
}

// Writes the fields. The form of the line is fixed and has no tape type.
fn tagged(out: &mut [u8], at: usize, origin: [u64; answers::NUMBERS]) -> usize {
    let flags = line::numbers(out, at, &origin[places::TAPE_FIRST..places::TAPE_TYPE]);
    line::numbers(
        out,
        flags,
        &origin[places::TAPE_TAPE..places::TAPE_TRACK_SYNCED + 1],
    )
}

fn reduced(out: &mut [u8], at: usize, s: &[u8]) -> usize {
    let reduction = tapes::reduction(idr::read_record(s));
    let end = line::numbers(
        out,
        at,
        &reduction[places::TAPE_PLAYBACK..places::TAPE_COUNT],
    );
    line::maybe(out, end, reduction[places::TAPE_COUNT])
}

// No words if the first run is not a whole number of header words, or if either is too long. A fixed array, since there is no heap here.
pub(crate) fn write(f: Frame, a: &[u8], b: &[u8], out: &mut [u8], at: usize) -> usize {
    let z = f.z as usize;
    if MOST_SLICE < z {
        return at;
    }
    let (given, rest) = a.as_chunks::<{ idr::WORD }>();
    let n = given.len();
    if !rest.is_empty() || MOST_HEADER < n {
        return at;
    }
    let mut header = [0u16; MOST_HEADER];
    let words = &mut header[..n];
    fill(given, words);
    write_into(words, b, z, out, at)
}

fn fill(given: &[[u8; idr::WORD]], words: &mut [u16]) {
    for (word, bytes) in words.iter_mut().zip(given) {
        *word = u16::from_be_bytes(*bytes);
    }
}

// The crc covers all bytes that are lent.
fn write_into(words: &[u16], samples: &[u8], z: usize, out: &mut [u8], at: usize) -> usize
    requires { z ≤ 8192 }
{
    let mut room = [FILL; MOST_SLICE];
    let lent = &mut room[..z];
    let end = match idr_write::write_record(words, samples, lent) {
        Ok(()) => line::number(out, at, ACCEPTED),
        Err(why) => line::refused(out, at, why),
    };
    line::number(out, end, u64::from(crc::crc(lent)))
}
