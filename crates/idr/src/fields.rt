// The fields of the header words (document 001, words 1 to 28).
ghost use Rattle.std.specs.Prelude.{◌≡◌, ◌∷◌, ◌<◌};
ghost use Rattle.idr.specs.Fields.{tagged, counted, digit, digit_count, two_digits, playback_rates, sampling_rates, rate_in};
ghost use Rattle.idr.specs.Fields.{decimation_of, block_stored, origin_of, time_of, recorder_of, reduction_of, status_of, count_of};
ghost use Rattle.idr.specs.inner.Listed.{listed};
ghost use Rattle.idr.specs.Read.{origin_words, time_words, recorder_words, reduction_words, status_words, count_words, fields_words, given_of};

use crate as idr;
use crate::words;

// The digits of the time tag begin at word 6, four to a word.
const TIME_WORD: usize = 6;

const DIGITS: usize = 4;

const DIGIT_BITS: usize = 4;

// The weight of the microseconds' upper part.
const MICROS_UPPER: u32 = 256;

// A rate's code. The lower three bits are the tape's speed: 0 is the slowest, and each step doubles the rate. The upper two bits choose one of the
// three rates of the slowest tape.
const SPEEDS: u16 = 8;

const LAST_SPEED: u32 = 4;

const LAST_CHOICE: u32 = 2;

const FIRST_RATE: u32 = 75000;

const RATE_STEP: u32 = 12500;

// What a record's fields have for a code that is not listed. Records with such a code and a valid time tag are refused.
const UNLISTED: u32 = 0;

const MOST_DECIMATION: u16 = 8;

// 2^24. The stored block size is this number less the block size.
const BLOCK_END: u32 = 16777216;

pub(crate) fn is_tagged(w: &[u16; idr::HEADER]) -> bool
    ensures { result ≡ tagged w.now }
{
    words::field(w, 1, 1, 1) == 1
}

fn is_counted(w: &[u16; idr::HEADER]) -> bool
    ensures { result ≡ counted w.now }
{
    words::field(w, 1, 4, 4) == 1
}

// Digit k of the time tag; k counts from 0.
pub(crate) fn digit_at(w: &[u16; idr::HEADER], k: usize) -> u16
    requires { k < digit_count }
    ensures { (result ≡ digit w.now k) × (result < 16) }
{
    let before = k % DIGITS * DIGIT_BITS;
    words::field(w, TIME_WORD + k / DIGITS, before + 1, before + DIGIT_BITS)
}

fn two_digits(w: &[u16; idr::HEADER], k: usize) -> u16
    requires { k < 8 }
    ensures { (result ≡ two_digits w.now k) × (result < 256) }
{
    digit_at(w, k) * 10 + digit_at(w, k + 1)
}

pub(crate) fn time_of(w: &[u16; idr::HEADER]) -> idr::Time
    ensures { time_words result ≡ time_of w.now }
{
    idr::Time {
        day: digit_at(w, 0) * 100 + two_digits(w, 1),
        hour: two_digits(w, 3),
        minute: two_digits(w, 5),
        second: two_digits(w, 7),
        micros: words::field(w, 8, 5, 16) as u32 * MICROS_UPPER + words::field(w, 9, 1, 8) as u32,
    }
}

// The playback rates are the sampling rates of the slowest tape speed.
pub(crate) fn playback_rate(code: u16) -> Option<u32>
    requires { code < 32 }
    ensures { result ≡ listed (rate_in playback_rates code) }
{
    if code % SPEEDS != 0 {
        return None;
    }
    sampling_rate(code)
}

pub(crate) fn sampling_rate(code: u16) -> Option<u32>
    requires { code < 32 }
    ensures { result ≡ listed (rate_in sampling_rates code) }
{
    let choice = (code / SPEEDS) as u32;
    let speed = (code % SPEEDS) as u32;
    if LAST_CHOICE < choice {
        return None;
    }
    if LAST_SPEED < speed {
        return None;
    }
    Some((FIRST_RATE - RATE_STEP * choice) << speed)
}

fn decimation(code: u16) -> u16
    requires { code < 8 }
    ensures { result ≡ decimation_of code }
{
    MOST_DECIMATION - code
}

// The block size as stored, in 24 bits.
pub(crate) fn block_stored(w: &[u16; idr::HEADER]) -> u32
    ensures { (result ≡ block_stored w.now) × (result < 16777216) }
{
    words::long(words::field(w, 12, 9, 16), w[12])
}

fn origin_of(w: &[u16; idr::HEADER]) -> idr::Origin
    ensures { origin_words result ≡ origin_of w.now }
{
    idr::Origin {
        first: words::field(w, 1, 2, 2),
        source_error: words::field(w, 1, 3, 3),
        tape_type: words::field(w, 1, 5, 8),
        tape: words::field(w, 1, 9, 16),
        number: w[1],
        spacecraft: words::field(w, 4, 1, 8),
        station: words::field(w, 4, 9, 16),
        dra_tape: w[4],
    }
}

fn recorder_of(w: &[u16; idr::HEADER]) -> idr::Recorder
    ensures { recorder_words result ≡ recorder_of w.now }
{
    idr::Recorder {
        input: words::field(w, 9, 9, 11),
        pps_absent: words::field(w, 9, 12, 12),
        clock_unsynced: words::field(w, 9, 13, 13),
        recorder_b: words::field(w, 9, 14, 14),
        micros_abnormal: words::field(w, 9, 15, 15),
        track_synced: words::field(w, 9, 16, 16),
    }
}

fn reduction_of(w: &[u16; idr::HEADER]) -> idr::Reduction
    ensures { reduction_words result ≡ reduction_of w.now }
{
    idr::Reduction {
        playback: playback_rate(words::field(w, 10, 12, 16)).unwrap_or(UNLISTED),
        sampling: sampling_rate(words::field(w, 11, 12, 16)).unwrap_or(UNLISTED),
        bypass: words::field(w, 12, 1, 1),
        decimation: decimation(words::field(w, 12, 2, 4)),
        pps_track: words::field(w, 12, 5, 5),
        time_track: words::field(w, 12, 6, 6),
        channel: words::field(w, 12, 7, 8) + 1,
        block: BLOCK_END - block_stored(w),
    }
}

fn status_of(w: &[u16; idr::HEADER]) -> idr::Status
    ensures { status_words result ≡ status_of w.now }
{
    idr::Status {
        day: words::field(w, 23, 1, 9),
        second: words::long(words::field(w, 23, 16, 16), w[23]),
        overflow: words::field(w, 26, 9, 9),
        pps_unsynced: words::field(w, 26, 10, 10),
        bit_slip: words::field(w, 26, 11, 11),
        counter: decimation(words::field(w, 26, 14, 16)),
    }
}

fn count_of(w: &[u16; idr::HEADER]) -> Option<u32>
    ensures { count_words result ≡ count_of w.now }
{
    is_counted(w).then_some(words::long(w[26], w[27]))
}

// The answer for header words that are accepted.
pub(crate) fn given(w: &[u16; idr::HEADER]) -> Option<idr::Tagged>
    ensures { 0 ∷ fields_words result ≡ given_of w.now }
{
    if !is_tagged(w) {
        return None;
    }
    Some(idr::Tagged {
        origin: origin_of(w),
        time: time_of(w),
        recorder: recorder_of(w),
        reduction: reduction_of(w),
        status: status_of(w),
        count: count_of(w),
    })
}
