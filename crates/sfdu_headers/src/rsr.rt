// The fields of an RSR record.
ghost use Rattle.std.specs.Prelude.{◌≡◌, cond, [], ◌∷◌, ◌≤◌, ◌+◌, length};
ghost use Rattle.sfdu.specs.declared.Kind.TheVariants.{Rsr};
ghost use Rattle.sfdu.specs.Nesting.{data_value_at, secondary_at};
ghost use Rattle.sfdu.specs.Read.{primary_words, primary_of, record_length};
ghost use Rattle.sfdu.specs.inner.Checked.{checked};
ghost use Rattle.refusals.specs.declared.Refusal.TheVariants.{FieldRange};
ghost use Rattle.dates.specs.Calendar.{is_year};
ghost use Rattle.sfdu_headers.specs.inner.Found.{found_words};
ghost use Rattle.sfdu_headers.specs.inner.Dated.{dated};
ghost use Rattle.sfdu_headers.specs.inner.Streams.{stream_key_in};
ghost use Rattle.sfdu_headers.specs.Fields.{record_number, signed_byte, year_at, day_at};
ghost use Rattle.sfdu_headers.specs.Headers.{
  accepted_fields,
  judged_fields,
  rsr_words,
  source_words,
  source_of,
  signal_words,
  signal_of,
  time_words,
  time_of,
  added_of,
};
ghost use Rattle.sfdu_headers.specs.Ranges.{in_range, byte_rules};
ghost use Rattle.sfdu_headers.specs.Words.{number};

use crate as headers;
use crate::bands;
use octets::numbers;
use refusals::Refusal;
use sfdu::{Fault, Primary, nesting};

// The offsets of the fields from the record's start.
const SOFTWARE_AT: usize = nesting::SECONDARY_AT + 6;

const NUMBER_AT: usize = nesting::SECONDARY_AT + 8;

const COMPLEX_AT: usize = nesting::SECONDARY_AT + 10;

const STATION_AT: usize = nesting::SECONDARY_AT + 11;

const RECEIVER_AT: usize = nesting::SECONDARY_AT + 12;

const SUBCHANNEL_AT: usize = nesting::SECONDARY_AT + 13;

const SPACECRAFT_AT: usize = nesting::SECONDARY_AT + 15;

const PASS_AT: usize = nesting::SECONDARY_AT + 16;

const UPLINK_AT: usize = nesting::SECONDARY_AT + 18;

const DOWNLINK_AT: usize = nesting::SECONDARY_AT + 19;

const MODE_AT: usize = nesting::SECONDARY_AT + 20;

const UPLINK_STATION_AT: usize = nesting::SECONDARY_AT + 21;

const EXPECTED_AT: usize = nesting::SECONDARY_AT + 22;

const BANDWIDTH_AT: usize = nesting::SECONDARY_AT + 23;

const OVERRIDDEN_AT: usize = nesting::SECONDARY_AT + 24;

const ATTENUATION_AT: usize = nesting::SECONDARY_AT + 25;

const RMS_AT: usize = nesting::SECONDARY_AT + 26;

const PEAK_AT: usize = nesting::SECONDARY_AT + 27;

const YEAR_AT: usize = nesting::SECONDARY_AT + 28;

const DAY_AT: usize = nesting::SECONDARY_AT + 30;

const FREQUENCY_AT: usize = nesting::SECONDARY_AT + 64;

// The bytes that are tested, lowest first.
const BYTE_RULES: [headers::ByteRule; 10] = [
    headers::ByteRule {
        at: nesting::PRIMARY_VALUE_AT,
        allowed: headers::Allowed::Between(21, 21),
    },
    headers::ByteRule {
        at: nesting::PRIMARY_VALUE_AT + 1,
        allowed: headers::Allowed::Between(4, 4),
    },
    headers::ByteRule {
        at: nesting::PRIMARY_VALUE_AT + 3,
        allowed: headers::Allowed::Between(0, 0),
    },
    headers::ByteRule {
        at: UPLINK_AT,
        allowed: headers::Allowed::Bands,
    },
    headers::ByteRule {
        at: DOWNLINK_AT,
        allowed: headers::Allowed::Bands,
    },
    headers::ByteRule {
        at: MODE_AT,
        allowed: headers::Allowed::Between(1, 3),
    },
    headers::ByteRule {
        at: BANDWIDTH_AT,
        allowed: headers::Allowed::Between(1, 127),
    },
    headers::ByteRule {
        at: ATTENUATION_AT,
        allowed: headers::Allowed::Between(0, 63),
    },
    headers::ByteRule {
        at: RMS_AT,
        allowed: headers::Allowed::Between(0, 128),
    },
    headers::ByteRule {
        at: PEAK_AT,
        allowed: headers::Allowed::Between(0, 128),
    },
];

// The fields, the key and the day count of a whole RSR record; or the offset of the lowest field that is out of range. Said in each, since a struct for
// what is known of the slice, its length and its primary value would say the same in its invariant, and each contract would speak of the slice in it.
pub(crate) fn headers(s: &[u8], size: usize, primary: Primary) -> Result<headers::RsrHeaders, Fault>
    requires { (size ≡ record_length s.now) × (primary_words primary ≡ primary_of s.now) × (data_value_at Rsr ≤ length s.now) }
    ensures { found_words rsr_words result ≡ judged_fields Rsr s.now }
{
    judge_bytes(s)?;
    let count = read_date(s)?;
    Ok(read_fields(s, size, primary, count))
}

// The stream key, if no field is out of range.
pub(crate) fn stream_key(s: &[u8]) -> Option<u64>
    requires { data_value_at Rsr ≤ length s.now }
    ensures { result ≡ stream_key_in Rsr s.now }
{
    judge_bytes(s).ok()?;
    read_date(s).ok()?;
    Some(keys::rsr_key_of(
        s[SPACECRAFT_AT],
        s[STATION_AT],
        s[RECEIVER_AT],
        s[SUBCHANNEL_AT],
    ))
}

fn out_of_range(at: usize) -> Fault
    ensures { result ≡ record { refusal = FieldRange; at = at } }
{
    Fault {
        refusal: Refusal::FieldRange,
        at,
    }
}

fn read_fields(s: &[u8], size: usize, primary: Primary, count: u32) -> headers::RsrHeaders
    requires { (size ≡ record_length s.now) × (primary_words primary ≡ primary_of s.now) × (data_value_at Rsr ≤ length s.now)
        × (number count ∷ [] ≡ added_of Rsr s.now) }
    ensures { rsr_words result ≡ accepted_fields Rsr s.now }
{
    let source = read_source(s);
    let signal = read_signal(s);
    let time = read_time(s);
    let key = keys::rsr_key_of(
        source.spacecraft,
        source.station,
        source.receiver,
        source.subchannel,
    );
    headers::RsrHeaders {
        size,
        primary,
        source,
        signal,
        time,
        key,
        day_count: count,
    }
}

// Refuses the lowest tested byte that is out of range. The table is a local before the loop, so LLVM unrolls the loop and each entry is a constant.
fn judge_bytes(s: &[u8]) -> Result<(), Fault>
    requires { data_value_at Rsr ≤ length s.now }
    ensures { result ≡ checked FieldRange (byte_rules s.now) }
{
    let table = BYTE_RULES;
    for rule in &table {
        if !in_range(rule.allowed, s[rule.at]) {
            return Err(out_of_range(rule.at));
        }
    }
    Ok(())
}

fn in_range(allowed: headers::Allowed, b: u8) -> bool
    ensures { result ≡ in_range allowed b }
{
    match allowed {
        headers::Allowed::Between(low, high) => (low <= b) & (b <= high),
        headers::Allowed::Bands => bands::is_rsr_band(b),
    }
}

// The day count of the year and the day; refuses the one of them that is out of range.
fn read_date(s: &[u8]) -> Result<u32, Fault>
    requires { data_value_at Rsr ≤ length s.now }
    ensures { result ≡ dated s.now }
{
    let year = numbers::read_u16(s, YEAR_AT);
    let day = numbers::read_u16(s, DAY_AT);
    let Some(count) = dates::day_count(year, day) else {
        return Err(out_of_range(wrong_date_at(year)));
    };
    Ok(count)
}

// The offset of the wrong field, if a year and a day are no date: the year's, or the day's if the year is right.
fn wrong_date_at(year: u16) -> usize
    ensures { result ≡ cond (is_year year) (secondary_at + day_at) (secondary_at + year_at) }
{
    if dates::is_year(year) {
        return DAY_AT;
    }
    YEAR_AT
}

fn read_source(s: &[u8]) -> headers::RsrSource
    requires { data_value_at Rsr ≤ length s.now }
    ensures { source_words result ≡ source_of s.now }
{
    headers::RsrSource {
        software: numbers::read_u16(s, SOFTWARE_AT),
        number: number(s),
        complex: s[COMPLEX_AT],
        station: s[STATION_AT],
        receiver: s[RECEIVER_AT],
        subchannel: s[SUBCHANNEL_AT],
        spacecraft: s[SPACECRAFT_AT],
        pass: numbers::read_u16(s, PASS_AT),
    }
}

pub(crate) fn number(s: &[u8]) -> u16
    requires { data_value_at Rsr ≤ length s.now }
    ensures { result ≡ record_number Rsr s.now }
{
    numbers::read_u16(s, NUMBER_AT)
}

fn read_signal(s: &[u8]) -> headers::RsrSignal
    requires { data_value_at Rsr ≤ length s.now }
    ensures { signal_words result ≡ signal_of s.now }
{
    let expected = signed(s[EXPECTED_AT]);
    headers::RsrSignal {
        uplink: s[UPLINK_AT],
        downlink: s[DOWNLINK_AT],
        mode: s[MODE_AT],
        uplink_station: s[UPLINK_STATION_AT],
        expected,
        bandwidth: s[BANDWIDTH_AT],
        overridden: s[OVERRIDDEN_AT],
        attenuation: s[ATTENUATION_AT],
        rms: s[RMS_AT],
        peak: s[PEAK_AT],
    }
}

// A byte as a number in two's complement.
fn signed(b: u8) -> i8
    ensures { result ≡ signed_byte b }
{
    if b < 128 {
        return b as i8;
    }
    (b as i16 - 256) as i8
}

fn read_time(s: &[u8]) -> headers::RsrReading
    requires { data_value_at Rsr ≤ length s.now }
    ensures { time_words result ≡ time_of s.now }
{
    headers::RsrReading {
        year: numbers::read_u16(s, YEAR_AT),
        day: numbers::read_u16(s, DAY_AT),
        frequency: numbers::read_u64(s, FREQUENCY_AT),
    }
}
