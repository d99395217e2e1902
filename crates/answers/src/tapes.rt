// The numbers of a medium band record. It has more fields than an answer has numbers, so two calls give them.
ghost use Rattle.std.specs.Prelude.{◌≡◌, [], ◌∷◌, replicate};
ghost use Rattle.std.proofs.lemmas.List.Edits.{sets};
ghost use Rattle.idr.specs.Read.{words_of, origin_words, time_words, recorder_words, reduction_words, status_words};
ghost use Rattle.idr.specs.Rules.{outcome_number};
ghost use Rattle.answers.specs.Numbers.{plain};
ghost use Rattle.answers.specs.Tapes as Fields;
ghost use Rattle.answers.specs.inner.Numbers.{Few, Numbers, count_number};

use crate::{FEW, NONE, NUMBERS, places};
use idr::Tagged;
use refusals::Refusal;

// The answer of a call that only writes.
pub fn outcome(answer: Result<(), Refusal>) -> [u64; FEW]
    ensures { Few result (plain (outcome_number answer ∷ [])) }
{
    crate::done(answer)
}

// The record's source, its time tag and the recorder.
pub fn origin(found: Result<Option<Tagged>, Refusal>) -> [u64; NUMBERS]
    ensures { Numbers result (Fields.origin (words_of found)) }
{
    match found {
        Ok(Some(tagged)) => with_recorder(
            with_time(with_origin([0u64; NUMBERS], tagged.origin), tagged.time),
            tagged.recorder,
        ),
        Ok(None) => no_origin(),
        Err(why) => crate::all(crate::refused(why)),
    }
}

// A medium band record: how it was reduced, and how many samples it has. Twice, since the two calls give other fields.
pub fn reduction(found: Result<Option<Tagged>, Refusal>) -> [u64; NUMBERS]
    ensures { Numbers result (Fields.reduction (words_of found)) }
{
    match found {
        Ok(Some(tagged)) => with_count(
            with_status(
                with_reduction([0u64; NUMBERS], tagged.reduction),
                tagged.status,
            ),
            tagged.count,
        ),
        Ok(None) => no_reduction(),
        Err(why) => crate::all(crate::refused(why)),
    }
}

// The numbers of a record whose time tag is not valid: 0, nones for the fields, then zeros.
fn no_origin() -> [u64; NUMBERS]
    ensures { result ≡ sets (replicate 32 0) 1 (replicate 19 18446744073709551615) }
{
    [
        0, NONE, NONE, NONE, NONE, NONE, NONE, NONE, NONE, NONE, NONE, NONE, NONE, NONE, NONE,
        NONE, NONE, NONE, NONE, NONE, 0, 0, 0, 0, 0, 0, 0, 0, 0, 0, 0, 0,
    ]
}

fn no_reduction() -> [u64; NUMBERS]
    ensures { result ≡ sets (replicate 32 0) 1 (replicate 15 18446744073709551615) }
{
    [
        0, NONE, NONE, NONE, NONE, NONE, NONE, NONE, NONE, NONE, NONE, NONE, NONE, NONE, NONE,
        NONE, 0, 0, 0, 0, 0, 0, 0, 0, 0, 0, 0, 0, 0, 0, 0, 0,
    ]
}

fn with_origin(begun: [u64; NUMBERS], origin: idr::Origin) -> [u64; NUMBERS]
    ensures { result ≡ sets begun 1 (origin_words origin) }
{
    let mut numbers = begun;
    numbers[places::TAPE_FIRST] = origin.first as u64;
    numbers[places::TAPE_SOURCE_ERROR] = origin.source_error as u64;
    numbers[places::TAPE_TYPE] = origin.tape_type as u64;
    numbers[places::TAPE_TAPE] = origin.tape as u64;
    numbers[places::TAPE_NUMBER] = origin.number as u64;
    numbers[places::TAPE_SPACECRAFT] = origin.spacecraft as u64;
    numbers[places::TAPE_STATION] = origin.station as u64;
    numbers[places::TAPE_DRA_TAPE] = origin.dra_tape as u64;
    numbers
}

fn with_time(begun: [u64; NUMBERS], time: idr::Time) -> [u64; NUMBERS]
    ensures { result ≡ sets begun 9 (time_words time) }
{
    let mut numbers = begun;
    numbers[places::TAPE_DAY] = time.day as u64;
    numbers[places::TAPE_HOUR] = time.hour as u64;
    numbers[places::TAPE_MINUTE] = time.minute as u64;
    numbers[places::TAPE_SECOND] = time.second as u64;
    numbers[places::TAPE_MICROS] = time.micros as u64;
    numbers
}

fn with_recorder(begun: [u64; NUMBERS], recorder: idr::Recorder) -> [u64; NUMBERS]
    ensures { result ≡ sets begun 14 (recorder_words recorder) }
{
    let mut numbers = begun;
    numbers[places::TAPE_INPUT] = recorder.input as u64;
    numbers[places::TAPE_PPS_ABSENT] = recorder.pps_absent as u64;
    numbers[places::TAPE_CLOCK_UNSYNCED] = recorder.clock_unsynced as u64;
    numbers[places::TAPE_RECORDER_B] = recorder.recorder_b as u64;
    numbers[places::TAPE_MICROS_ABNORMAL] = recorder.micros_abnormal as u64;
    numbers[places::TAPE_TRACK_SYNCED] = recorder.track_synced as u64;
    numbers
}

fn with_reduction(begun: [u64; NUMBERS], reduction: idr::Reduction) -> [u64; NUMBERS]
    ensures { result ≡ sets begun 1 (reduction_words reduction) }
{
    let mut numbers = begun;
    numbers[places::TAPE_PLAYBACK] = reduction.playback as u64;
    numbers[places::TAPE_SAMPLING] = reduction.sampling as u64;
    numbers[places::TAPE_BYPASS] = reduction.bypass as u64;
    numbers[places::TAPE_DECIMATION] = reduction.decimation as u64;
    numbers[places::TAPE_PPS_TRACK] = reduction.pps_track as u64;
    numbers[places::TAPE_TIME_TRACK] = reduction.time_track as u64;
    numbers[places::TAPE_CHANNEL] = reduction.channel as u64;
    numbers[places::TAPE_BLOCK] = reduction.block as u64;
    numbers
}

fn with_status(begun: [u64; NUMBERS], status: idr::Status) -> [u64; NUMBERS]
    ensures { result ≡ sets begun 9 (status_words status) }
{
    let mut numbers = begun;
    numbers[places::TAPE_REDUCED_DAY] = status.day as u64;
    numbers[places::TAPE_REDUCED_SECOND] = status.second as u64;
    numbers[places::TAPE_OVERFLOW] = status.overflow as u64;
    numbers[places::TAPE_PPS_UNSYNCED] = status.pps_unsynced as u64;
    numbers[places::TAPE_BIT_SLIP] = status.bit_slip as u64;
    numbers[places::TAPE_COUNTER] = status.counter as u64;
    numbers
}

fn with_count(begun: [u64; NUMBERS], count: Option<u32>) -> [u64; NUMBERS]
    ensures { result ≡ sets begun 15 (count_number count ∷ []) }
{
    let mut numbers = begun;
    numbers[places::TAPE_COUNT] = count.map_or(NONE, u64::from);
    numbers
}
