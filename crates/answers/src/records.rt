// The numbers of the answer of read headers.
ghost use Rattle.std.specs.Prelude.{◌≡◌, ◌∷◌, map};
ghost use Rattle.std.proofs.lemmas.List.Edits.{sets};
ghost use Rattle.sfdu.specs.Read.{values_of};
ghost use Rattle.sfdu_headers.specs.Words.{number, signed};
ghost use Rattle.sfdu_headers.specs.Headers.{words_of, telemetry_words, rsr_words, band_word, telemetry_field_words, source_words, signal_words};
ghost use Rattle.answers.specs.Numbers.{numbers_of, value_of};
ghost use Rattle.answers.specs.inner.Numbers.{Numbers};

use crate::{NONE, NUMBERS, places};
use sfdu::{Kind, Record, RecordRefusal};
use sfdu_headers::{Headers, RsrHeaders, RsrSignal, RsrSource, TelemetryFields, TelemetryHeaders};

pub fn headers(found: Result<Headers, RecordRefusal>) -> [u64; NUMBERS]
    ensures { Numbers result (words_of found) }
{
    match found {
        Ok(Headers::Telemetry(headers)) => telemetry(headers),
        Ok(Headers::Rsr(headers)) => rsr(headers),
        Err(why) => crate::all(crate::refused_record(why)),
    }
}

fn band(band: Option<u8>) -> u64
    ensures { result ≡ value_of (band_word band) }
{
    match band {
        Some(letter) => letter as u64,
        None => NONE,
    }
}

// A signed number in two's complement of 64 bits.
fn two(z: i8) -> u64
    ensures { result ≡ value_of (signed z) }
{
    if z < 0 {
        return NONE - (-1 - z) as u64;
    }
    z as u64
}

fn expected(signal: RsrSignal) -> u64
    ensures { result ≡ value_of (signed signal.expected) }
{
    two(signal.expected)
}

// The first numbers of both kinds, which are also the whole answer of read one.
pub fn record(found: Record) -> [u64; NUMBERS]
    ensures { result ≡ numbers_of (number 0 ∷ map number (values_of found)) }
{
    let primary = found.primary;
    let mut numbers = [0u64; NUMBERS];
    numbers[places::KIND] = u32::from(found.kind) as u64;
    numbers[places::SIZE] = found.size as u64;
    numbers[places::MAJOR] = primary.major as u64;
    numbers[places::MINOR] = primary.minor as u64;
    numbers[places::MISSION] = primary.mission as u64;
    numbers[places::FORMAT] = primary.format as u64;
    numbers
}

fn telemetry(headers: TelemetryHeaders) -> [u64; NUMBERS]
    ensures { Numbers result (telemetry_words headers) }
{
    let received = headers.received;
    let begun = record(Record {
        kind: Kind::Telemetry,
        size: headers.size,
        primary: headers.primary,
    });
    let mut numbers = with_fields(begun, headers.fields);
    numbers[places::TELEMETRY_KEY] = headers.key;
    numbers[places::TELEMETRY_DAYS] = received.days as u64;
    numbers[places::TELEMETRY_MILLISECONDS] = received.milliseconds as u64;
    numbers[places::TELEMETRY_EXTENDED] = received.extended as u64;
    numbers
}

fn with_fields(begun: [u64; NUMBERS], fields: TelemetryFields) -> [u64; NUMBERS]
    ensures { result ≡ sets begun 7 (map value_of (telemetry_field_words fields)) }
{
    let uplink = fields.uplink;
    let mut numbers = begun;
    numbers[places::TELEMETRY_SPACECRAFT] = fields.spacecraft as u64;
    numbers[places::TELEMETRY_SOURCE] = fields.source as u64;
    numbers[places::TELEMETRY_RECEIVED] = fields.received;
    numbers[places::TELEMETRY_NUMBER] = fields.number as u64;
    numbers[places::TELEMETRY_UPLINK] = band(uplink);
    numbers[places::TELEMETRY_MODE] = fields.mode as u64;
    numbers[places::TELEMETRY_STREAM] = fields.stream as u64;
    numbers[places::TELEMETRY_EQUIPMENT] = fields.equipment as u64;
    numbers
}

fn rsr(headers: RsrHeaders) -> [u64; NUMBERS]
    ensures { Numbers result (rsr_words headers) }
{
    let time = headers.time;
    let begun = record(Record {
        kind: Kind::Rsr,
        size: headers.size,
        primary: headers.primary,
    });
    let from = with_source(begun, headers.source);
    let mut numbers = with_signal(from, headers.signal);
    numbers[places::RSR_YEAR] = time.year as u64;
    numbers[places::RSR_DAY] = time.day as u64;
    numbers[places::RSR_FREQUENCY] = time.frequency;
    numbers[places::RSR_KEY] = headers.key;
    numbers[places::RSR_DAY_COUNT] = headers.day_count as u64;
    numbers
}

fn with_source(begun: [u64; NUMBERS], source: RsrSource) -> [u64; NUMBERS]
    ensures { result ≡ sets begun 7 (map value_of (source_words source)) }
{
    let mut numbers = begun;
    numbers[places::RSR_SOFTWARE] = source.software as u64;
    numbers[places::RSR_NUMBER] = source.number as u64;
    numbers[places::RSR_COMPLEX] = source.complex as u64;
    numbers[places::RSR_STATION] = source.station as u64;
    numbers[places::RSR_RECEIVER] = source.receiver as u64;
    numbers[places::RSR_SUBCHANNEL] = source.subchannel as u64;
    numbers[places::RSR_SPACECRAFT] = source.spacecraft as u64;
    numbers[places::RSR_PASS] = source.pass as u64;
    numbers
}

fn with_signal(begun: [u64; NUMBERS], signal: RsrSignal) -> [u64; NUMBERS]
    ensures { result ≡ sets begun 15 (map value_of (signal_words signal)) }
{
    let mut numbers = begun;
    numbers[places::RSR_UPLINK] = signal.uplink as u64;
    numbers[places::RSR_DOWNLINK] = signal.downlink as u64;
    numbers[places::RSR_MODE] = signal.mode as u64;
    numbers[places::RSR_UPLINK_STATION] = signal.uplink_station as u64;
    numbers[places::RSR_EXPECTED] = expected(signal);
    numbers[places::RSR_BANDWIDTH] = signal.bandwidth as u64;
    numbers[places::RSR_OVERRIDDEN] = signal.overridden as u64;
    numbers[places::RSR_ATTENUATION] = signal.attenuation as u64;
    numbers[places::RSR_RMS] = signal.rms as u64;
    numbers[places::RSR_PEAK] = signal.peak as u64;
    numbers
}
