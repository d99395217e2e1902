// Stream keys: makes a key from a stream's four numbers, tests it, and gives its parts (document 01, "Stream key").

#![tactic(auto)]

ghost use Rattle.std.specs.Prelude.{◌≡◌, ◌∷◌, ◌<◌, ◌≤◌, ◌^◌, MatchResult};
ghost use Rattle.refusals.specs.declared.Refusal.TheVariants.{BadKey};
ghost use Rattle.keys.specs.Key.{valid_key, telemetry_key, rsr_key, telemetry_key_call, rsr_key_call, parts_call};
ghost use Rattle.keys.specs.Key.{rsr_start, telemetry_kind, telemetry_parts, rsr_kind, rsr_parts};
ghost use Rattle.keys.specs.Numbers.{is_number};
ghost use Rattle.keys.specs.Words.{words_of, parts_words, values_of};

use refusals::Refusal;

// The first number that does not fit 8, 10 or 16 bits.
const LIMIT_8: u32 = 256;

const LIMIT_10: u32 = 1024;

const LIMIT_16: u32 = 65536;

// The weight of a field that starts at bit 8, 16, 24 or 32 of a key.
const AT_8: u64 = 256;

const AT_16: u64 = 65536;

const AT_24: u64 = 16777216;

const AT_32: u64 = 4294967296;

// 2^42, the lowest RSR key, and the first number past the RSR keys.
pub const RSR_START: u64 = 4398046511104;

const RSR_END: u64 = RSR_START + AT_32;

// How many record numbers an RSR stream has. A telemetry stream has 2^32.
pub const RSR_NUMBERS: u32 = LIMIT_16;

// The parts of a key: its four numbers, in the order of the call that makes it.
#[derive(Clone, Copy)]
pub enum KeyParts {
    Telemetry {
        spacecraft: u32,
        source: u32,
        equipment: u32,
        stream: u32,
    },
    Rsr {
        spacecraft: u32,
        station: u32,
        receiver: u32,
        subchannel: u32,
    },
}

// The number, if it lies below the limit of its field; otherwise refuses it.
fn below(n: u32, limit: u32) -> Result<u32, Refusal>
    ensures { MatchResult result (λ m. (m ≡ n) × (n < limit)) (λ why. (why ≡ BadKey) × (limit ≤ n)) }
{
    if limit <= n {
        return Err(Refusal::BadKey);
    }
    Ok(n)
}

// The key of a telemetry stream. Refuses a number that does not fit its field.
pub fn telemetry_key(
    spacecraft: u32,
    source: u32,
    equipment: u32,
    stream: u32,
) -> Result<u64, Refusal>
    ensures { words_of result ≡ telemetry_key_call spacecraft source equipment stream }
{
    let spacecraft = below(spacecraft, LIMIT_10)?;
    let source = below(source, LIMIT_8)?;
    let equipment = below(equipment, LIMIT_16)?;
    let stream = below(stream, LIMIT_8)?;
    Ok(telemetry_key_of(
        spacecraft as u16,
        source as u8,
        equipment as u16,
        stream as u8,
    ))
}

// The same for a caller that has the numbers from a record. The caller owes that the spacecraft number fits 10 bits.
pub fn telemetry_key_of(spacecraft: u16, source: u8, equipment: u16, stream: u8) -> u64
    requires { spacecraft < 2 ^ 10 }
    ensures { result ≡ telemetry_key spacecraft source equipment stream }
{
    spacecraft as u64 * AT_32 + source as u64 * AT_24 + equipment as u64 * AT_8 + stream as u64
}

// The key of an RSR stream. Refuses a number that does not fit its field.
pub fn rsr_key(
    spacecraft: u32,
    station: u32,
    receiver: u32,
    subchannel: u32,
) -> Result<u64, Refusal>
    ensures { words_of result ≡ rsr_key_call spacecraft station receiver subchannel }
{
    let spacecraft = below(spacecraft, LIMIT_8)?;
    let station = below(station, LIMIT_8)?;
    let receiver = below(receiver, LIMIT_8)?;
    let subchannel = below(subchannel, LIMIT_8)?;
    Ok(rsr_key_of(
        spacecraft as u8,
        station as u8,
        receiver as u8,
        subchannel as u8,
    ))
}

// The same for a caller that has the numbers as bytes. Any four bytes are a stream's.
pub fn rsr_key_of(spacecraft: u8, station: u8, receiver: u8, subchannel: u8) -> u64
    ensures { result ≡ rsr_key spacecraft station receiver subchannel }
{
    RSR_START
        + spacecraft as u64 * AT_24
        + station as u64 * AT_16
        + receiver as u64 * AT_8
        + subchannel as u64
}

pub fn valid(key: u64) -> bool
    ensures { result ≡ valid_key key }
{
    if key < RSR_START {
        return true;
    }
    key < RSR_END
}

// Whether records of the stream with this key can have the number n.
pub fn is_number(key: u64, n: u32) -> bool
    ensures { result ≡ is_number key n }
{
    if key < RSR_START {
        return true;
    }
    n < RSR_NUMBERS
}

// The parts of a key: its kind and its four numbers.
pub fn parts(key: u64) -> Result<KeyParts, Refusal>
    ensures { parts_words result ≡ parts_call key }
{
    if RSR_END <= key {
        return Err(Refusal::BadKey);
    }
    if key < RSR_START {
        return Ok(telemetry_parts(key));
    }
    Ok(rsr_parts(key - RSR_START))
}

fn telemetry_parts(key: u64) -> KeyParts
    requires { key < rsr_start }
    ensures { values_of result ≡ telemetry_kind ∷ telemetry_parts key }
{
    KeyParts::Telemetry {
        spacecraft: (key / AT_32) as u32,
        source: (key / AT_24 % AT_8) as u32,
        equipment: (key / AT_8 % AT_16) as u32,
        stream: (key % AT_8) as u32,
    }
}

// The parts of the RSR key RSR_START + above.
fn rsr_parts(above: u64) -> KeyParts
    requires { above < 2 ^ 32 }
    ensures { values_of result ≡ rsr_kind ∷ rsr_parts above }
{
    KeyParts::Rsr {
        spacecraft: (above / AT_24) as u32,
        station: (above / AT_16 % AT_8) as u32,
        receiver: (above / AT_8 % AT_8) as u32,
        subchannel: (above % AT_8) as u32,
    }
}
