// The fields of a telemetry record.
ghost use Rattle.std.specs.Prelude.{cond, ◌≡◌, [], ◌∷◌, ◌≤◌, ◌/◌, ◌%◌, length};
ghost use Rattle.sfdu.specs.declared.Kind.TheVariants.{Telemetry};
ghost use Rattle.sfdu.specs.Nesting.{data_value_at};
ghost use Rattle.sfdu.specs.Read.{primary_words, primary_of, record_length};
ghost use Rattle.sfdu_headers.specs.Fields.{record_number, spacecraft, has_band, uplink};
ghost use Rattle.sfdu_headers.specs.Headers.{telemetry_words, judged_fields, telemetry_field_words, fields_of, band_word, received_words};
ghost use Rattle.sfdu_headers.specs.inner.Parts.{extended_values, millisecond_values};
ghost use Rattle.sfdu_headers.specs.inner.Found.{found_words};
ghost use Rattle.sfdu_headers.specs.inner.Fault.{fault};
ghost use Rattle.sfdu_headers.specs.inner.Streams.{stream_key_in};
ghost use Rattle.sfdu_headers.specs.Words.{number, none};

use crate::{ReceivedTime, TelemetryFields, TelemetryHeaders, bands};
use octets::numbers;
use refusals::Refusal;
use sfdu::{Fault, Primary, nesting};

// The offsets of the fields from the record's start.
const SPACECRAFT_AT: usize = nesting::SECONDARY_AT + 6;

const SOURCE_AT: usize = nesting::SECONDARY_AT + 10;

const RECEIVED_AT: usize = nesting::SECONDARY_AT + 14;

// How many values the lower two parts of the received time have.
const EXTENDED_VALUES: u64 = 65536;

const MILLISECOND_VALUES: u64 = 4294967296;

const NUMBER_AT: usize = nesting::SECONDARY_AT + 22;

const UPLINK_AT: usize = nesting::SECONDARY_AT + 26;

const MODE_AT: usize = nesting::SECONDARY_AT + 28;

const STREAM_AT: usize = nesting::SECONDARY_AT + 30;

const EQUIPMENT_AT: usize = nesting::SECONDARY_AT + 74;

// The fields and the key of a whole telemetry record; or the offset of the band, if it is out of range. Said in each, since a struct for what is known
// of the slice, its length and its primary value would say the same in its invariant, and each contract would speak of the slice in it.
pub(crate) fn headers(s: &[u8], size: usize, primary: Primary) -> Result<TelemetryHeaders, Fault>
    requires { (size ≡ record_length s.now) × (primary_words primary ≡ primary_of s.now) × (data_value_at Telemetry ≤ length s.now) }
    ensures { found_words telemetry_words result ≡ judged_fields Telemetry s.now }
{
    judge_band(s)?;
    let fields = read_fields(s);
    let key = keys::telemetry_key_of(
        fields.spacecraft,
        fields.source,
        fields.equipment,
        fields.stream,
    );
    let received = split(fields.received);
    Ok(TelemetryHeaders {
        size,
        primary,
        fields,
        key,
        received,
    })
}

// The stream key, if the band is in range.
pub(crate) fn stream_key(s: &[u8]) -> Option<u64>
    requires { data_value_at Telemetry ≤ length s.now }
    ensures { result ≡ stream_key_in Telemetry s.now }
{
    judge_band(s).ok()?;
    let equipment = numbers::read_u16(s, EQUIPMENT_AT);
    Some(keys::telemetry_key_of(spacecraft(s), s[SOURCE_AT], equipment, s[STREAM_AT]))
}

// Refuses a band that is not one of the letters, if the record has a band.
fn judge_band(s: &[u8]) -> Result<(), Fault>
    requires { data_value_at Telemetry ≤ length s.now }
    ensures { result ≡ fault Telemetry s.now }
{
    if !has_band(s) {
        return Ok(());
    }
    if bands::is_telemetry_band(s[UPLINK_AT]) {
        return Ok(());
    }
    Err(Fault {
        refusal: Refusal::FieldRange,
        at: UPLINK_AT,
    })
}

fn has_band(s: &[u8]) -> bool
    requires { data_value_at Telemetry ≤ length s.now }
    ensures { result ≡ has_band s.now }
{
    2 <= s[MODE_AT] % 4
}

fn read_fields(s: &[u8]) -> TelemetryFields
    requires { data_value_at Telemetry ≤ length s.now }
    ensures { telemetry_field_words result ≡ fields_of Telemetry s.now }
{
    let uplink = band(s);
    TelemetryFields {
        spacecraft: spacecraft(s),
        source: s[SOURCE_AT],
        received: numbers::read_u64(s, RECEIVED_AT),
        number: number(s),
        uplink,
        mode: s[MODE_AT] % 4,
        stream: s[STREAM_AT],
        equipment: numbers::read_u16(s, EQUIPMENT_AT),
    }
}

// The parts of the received time: days, milliseconds of the day, extended resolution.
fn split(received: u64) -> ReceivedTime
    ensures { received_words result ≡ number (received / extended_values / millisecond_values)
        ∷ number (received / extended_values % millisecond_values) ∷ number (received % extended_values) ∷ [] }
{
    let time = received / EXTENDED_VALUES;
    ReceivedTime {
        days: (time / MILLISECOND_VALUES) as u16,
        milliseconds: (time % MILLISECOND_VALUES) as u32,
        extended: (received % EXTENDED_VALUES) as u16,
    }
}

// The lowest two bits of a byte, then the next byte.
fn spacecraft(s: &[u8]) -> u16
    requires { data_value_at Telemetry ≤ length s.now }
    ensures { result ≡ spacecraft s.now }
{
    (s[SPACECRAFT_AT] % 4) as u16 * 256 + s[SPACECRAFT_AT + 1] as u16
}

fn band(s: &[u8]) -> Option<u8>
    requires { data_value_at Telemetry ≤ length s.now }
    ensures { band_word result ≡ cond (has_band s.now) (number (uplink s.now)) none }
{
    if has_band(s) {
        return Some(s[UPLINK_AT]);
    }
    None
}

pub(crate) fn number(s: &[u8]) -> u32
    requires { data_value_at Telemetry ≤ length s.now }
    ensures { result ≡ record_number Telemetry s.now }
{
    numbers::read_u32(s, NUMBER_AT)
}
