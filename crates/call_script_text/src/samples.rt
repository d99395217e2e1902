// The lines of a script's calls on RSR records: unpack, pack and the gain multiplier.
use crate::{Frame, crc, line};
use answers::{places, receivers};

// How many numbers unpack is lent at most, and what they hold before the call.
const MOST_NUMBERS: usize = 131072;

const NUMBER_FILL: i32 = 7;

// A number in a run has four bytes, in two's complement; and how many numbers a run has room for.
const NUMBER: usize = 4;

const MOST_PACKED: usize = 32768;

// How many numbers an accepted answer has: of samples, and of the gain.
const COUNTED: usize = 2;

const GAIN: usize = 2;

pub(crate) fn gain(a: &[u8], edition: u32, out: &mut [u8], at: usize) -> usize {
    let answer = receivers::gain(sfdu_gain::gain(a, edition));
    line::told_or(out, at, &answer, GAIN, places::GAIN, b"none")
}

pub(crate) fn unpack(f: Frame, a: &[u8], out: &mut [u8], at: usize) -> usize {
    let mut numbers = [NUMBER_FILL; MOST_NUMBERS];
    unpack_into(a, f.z as usize, &mut numbers, out, at)
}

// Unpacks into the first z numbers. The crc covers all of these. No words if there are fewer.
fn unpack_into(a: &[u8], z: usize, numbers: &mut [i32], out: &mut [u8], at: usize) -> usize {
    if numbers.len() < z {
        return at;
    }
    let lent = &mut numbers[..z];
    let answer = receivers::samples(sfdu_samples::unpack(a, lent));
    let end = line::told(out, at, &answer, COUNTED);
    line::number(out, end, u64::from(crc::crc_of_int32s(lent)))
}

// A fixed array, since there is no heap here: each buffer has its longest length.
pub(crate) fn pack(f: Frame, a: &[u8], out: &mut [u8], at: usize) -> usize {
    let mut numbers = [0i32; MOST_PACKED];
    let mut slice = [crate::FILL; crate::MOST_SLICE];
    pack_from(f, a, &mut numbers, &mut slice, out, at)
}

// Packs the numbers of the run. The crc covers all bytes that are lent. No words if the run is not a whole number of numbers, or if there is no room
// for them or for the bytes.
fn pack_from(
    f: Frame,
    a: &[u8],
    numbers: &mut [i32],
    slice: &mut [u8],
    out: &mut [u8],
    at: usize,
) -> usize {
    let (words, rest) = a.as_chunks::<NUMBER>();
    let n = words.len();
    if !rest.is_empty() || numbers.len() < n {
        return at;
    }
    let samples = &mut numbers[..n];
    fill(words, samples);
    pack_into(f, samples, slice, out, at)
}

fn fill(words: &[[u8; NUMBER]], samples: &mut [i32]) {
    for (sample, word) in samples.iter_mut().zip(words) {
        *sample = i32::from_be_bytes(*word);
    }
}

fn pack_into(f: Frame, numbers: &[i32], slice: &mut [u8], out: &mut [u8], at: usize) -> usize {
    let z = f.z as usize;
    if slice.len() < z {
        return at;
    }
    let lent = &mut slice[..z];
    let answer = receivers::samples(sfdu_samples::pack(f.x, f.y, numbers, lent));
    let end = line::told(out, at, &answer, COUNTED);
    line::number(out, end, u64::from(crc::crc(lent)))
}
