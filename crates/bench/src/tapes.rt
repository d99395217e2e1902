// Reads a medium band record.
ghost use Rattle.std.specs.Prelude.{◌≡◌, ◌++◌, map};
ghost use Rattle.sfdu_headers.specs.Words.{number};
ghost use Rattle.idr.specs.Read.{read_record, origin_words, time_words, recorder_words, reduction_words, status_words, count_words};
ghost use Rattle.bench.specs.inner.Digest.{onto, digest};

use crate::{ACCEPTED, NOTHING};

// Uses every word of the answer, so that every field is read.
#[unsafe(no_mangle)]
pub extern "C" fn bench_read_tape(s: &[u8]) -> u64
    ensures { result ≡ digest (map number (read_record s.now)) }
{
    let found = idr::read_record(s);
    match found {
        Ok(Some(tagged)) => {
            let last = reduced_onto(tagged.reduction, tagged.status, tagged.count);
            ACCEPTED ^ recorded_onto(tagged.origin, tagged.time, tagged.recorder, last)
        }
        Ok(None) => ACCEPTED ^ NOTHING,
        Err(why) => refusals::number(why) as u64 ^ NOTHING,
    }
}

fn recorded_onto(origin: idr::Origin, time: idr::Time, recorder: idr::Recorder, rest: u64) -> u64
    ensures { result ≡ onto (map number (origin_words origin ++ time_words time ++ recorder_words recorder)) rest }
{
    origin_onto(origin, time_onto(time, recorder_onto(recorder, rest)))
}

fn reduced_onto(reduction: idr::Reduction, status: idr::Status, count: Option<u32>) -> u64
    ensures { result ≡ digest (map number (reduction_words reduction ++ status_words status ++ count_words count)) }
{
    reduction_onto(reduction, status_onto(status, counted(count)))
}

fn origin_onto(f: idr::Origin, rest: u64) -> u64
    ensures { result ≡ onto (map number (origin_words f)) rest }
{
    let last = f.spacecraft as u64 ^ (f.station as u64 ^ (f.dra_tape as u64 ^ rest));
    let middle = f.tape_type as u64 ^ (f.tape as u64 ^ (f.number as u64 ^ last));
    f.first as u64 ^ (f.source_error as u64 ^ middle)
}

fn time_onto(f: idr::Time, rest: u64) -> u64
    ensures { result ≡ onto (map number (time_words f)) rest }
{
    let last = f.minute as u64 ^ (f.second as u64 ^ (f.micros as u64 ^ rest));
    f.day as u64 ^ (f.hour as u64 ^ last)
}

fn recorder_onto(f: idr::Recorder, rest: u64) -> u64
    ensures { result ≡ onto (map number (recorder_words f)) rest }
{
    let last = f.recorder_b as u64 ^ (f.micros_abnormal as u64 ^ (f.track_synced as u64 ^ rest));
    f.input as u64 ^ (f.pps_absent as u64 ^ (f.clock_unsynced as u64 ^ last))
}

fn reduction_onto(f: idr::Reduction, rest: u64) -> u64
    ensures { result ≡ onto (map number (reduction_words f)) rest }
{
    let last = f.time_track as u64 ^ (f.channel as u64 ^ (f.block as u64 ^ rest));
    let middle = f.bypass as u64 ^ (f.decimation as u64 ^ (f.pps_track as u64 ^ last));
    f.playback as u64 ^ (f.sampling as u64 ^ middle)
}

fn status_onto(f: idr::Status, rest: u64) -> u64
    ensures { result ≡ onto (map number (status_words f)) rest }
{
    let last = f.pps_unsynced as u64 ^ (f.bit_slip as u64 ^ (f.counter as u64 ^ rest));
    f.day as u64 ^ (f.second as u64 ^ (f.overflow as u64 ^ last))
}

fn counted(count: Option<u32>) -> u64
    ensures { result ≡ digest (map number (count_words count)) }
{
    match count {
        Some(n) => n as u64 ^ NOTHING,
        None => NOTHING,
    }
}
